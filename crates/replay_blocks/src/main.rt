// Replays recorded answers about name blocks on the proved calls, and says how many differ, bit for bit.
#![tactic(auto)]

mod calls;

use calls::Call;
use std::io;

// What the four programs share is `run`.
fn main(rt: HostRuntime) -> io::Result<()> {
    records::run::<8, 8256, Call>(&rt, &mut rt.stdin())
}

// Replays recorded answers of the original Rust on the proved calls, and says how many differ, bit for bit.
#![tactic(auto)]

mod calls;

use calls::Call;
use std::io;

// What the four programs share is `run`.
fn main(rt: HostRuntime) -> io::Result<()> {
    records::run::<13, 16512, Call>(&rt, &mut rt.stdin())
}

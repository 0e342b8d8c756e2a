// Replays recorded answers about axes and meshes on the proved calls, and says how many differ, bit for bit.
#![tactic(auto)]

mod axes;
mod calls;
mod meshes;
mod places;

use calls::Call;
use std::io;

// What the four programs share is `run`.
fn main(rt: HostRuntime) -> io::Result<()> {
    records::run::<4, 20696, Call>(&rt, &mut rt.stdin())
}

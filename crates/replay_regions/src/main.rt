// Replays recorded answers about regions on the proved calls, and says how many differ, bit for bit.
#![tactic(auto)]

mod calls;
mod extrusions;
mod places;
mod stacks;
mod totals;

use calls::Call;
use std::io;

// What the four programs share is `run`.
fn main(rt: HostRuntime) -> io::Result<()> {
    records::run::<4, 24992, Call>(&rt, &mut rt.stdin())
}

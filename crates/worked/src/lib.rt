// What the programs of worked shapes share: boxes and blocks made in one line, and names read from blocks and compared with what is expected.
#![tactic(auto)]

mod blocks;
mod boxes;
mod parts;

pub use boxes::{box_of, heights_of};
pub use parts::{layer_name_is, place_is, place_starts, via_is};

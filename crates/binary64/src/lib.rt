// What the original takes from Rust's std on binary64 numbers: range tests, abs, rounding with capping casts, the square root.
#![tactic(auto)]

mod pattern;
mod range;
mod root;
mod rounding;
mod size;

pub use pattern::{from_bits, infinity, minus_infinity, to_bits};
pub use range::{coordinate_in_range, extent_in_range, figure_in_range};
pub use root::sqrt;
pub use rounding::{ceil_capped, nearest_capped};
pub use size::{abs, is_within, larger};

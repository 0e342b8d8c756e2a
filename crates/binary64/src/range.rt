// Which numbers the calls admit: finite, and at most a power of two in size. There are three functions, since C calls each by its name.
ghost use Rattle.std.specs.Prelude.{◌≡◌};
ghost use Rattle.binary64.specs.Numbers.{at_most};

use crate::size::is_within;

// Coordinates, heights, cell sizes and the weld tolerance: at most 2^20.
#[tactic(auto, using(crate::proofs::Sizes::at_most_is), unfolding(std::specs::Prelude::from_bits))]
pub fn coordinate_in_range(x: f64) -> bool
    ensures { result ≡ at_most 20 x }
{
    is_within(x, 1048576.0)
}

// The cell count's extent: at most 2^21.
#[tactic(auto, using(crate::proofs::Sizes::at_most_is), unfolding(std::specs::Prelude::from_bits))]
pub fn extent_in_range(x: f64) -> bool
    ensures { result ≡ at_most 21 x }
{
    is_within(x, 2097152.0)
}

// Heights and thicknesses of the stack: at most 2^19.
#[tactic(auto, using(crate::proofs::Sizes::at_most_is), unfolding(std::specs::Prelude::from_bits))]
pub fn figure_in_range(x: f64) -> bool
    ensures { result ≡ at_most 19 x }
{
    is_within(x, 524288.0)
}

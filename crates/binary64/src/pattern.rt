// The infinities, and numbers and their bit patterns. There are two functions for the infinities, as Rust has two constants.
ghost use Rattle.std.specs.Prelude.{◌≡◌, ◌/◌, ◌%◌, ◌^◌, true, false, from_bits, to_bits};
ghost use Rattle.std.specs.Float.{binary64, inf};
ghost use Rattle.std.specs.Float.Ieee.{le};
ghost use Rattle.binary64.specs.Numbers.{at_most};

// As Rust's `f64::INFINITY`.
#[tactic(auto, unfolding(std::specs::Prelude::from_bits))]
pub fn infinity() -> f64
    ensures { result ≡ inf false }
{
    f64::INFINITY
}

// As Rust's `f64::NEG_INFINITY`.
#[tactic(auto, unfolding(std::specs::Prelude::from_bits))]
pub fn minus_infinity() -> f64
    ensures { result ≡ inf true }
{
    f64::NEG_INFINITY
}

// As Rust's `f64::from_bits`; every pattern of a not-a-number gives one not-a-number, that of 0 / 0.
pub fn from_bits(bits: u64) -> f64
    ensures { result ≡ from_bits binary64 bits }
{
    std::num::f64_from_bits_with_nan(bits)
}

// As Rust's `f64::to_bits`. Where bit 62 is clear, x is below 2 in size, and so in range. For a caller that has found x to be a number.
#[tactic(auto, using(crate::proofs::Patterns::clear_pattern, crate::proofs::Patterns::number_no_nan))]
pub fn to_bits(x: f64) -> u64
    requires { le x x ≡ true }
    ensures { (result ≡ to_bits binary64 x) × (result / 2 ^ 62 % 2 ≡ 0 → at_most 20 x ≡ true) }
{
    f64::to_bits(x)
}

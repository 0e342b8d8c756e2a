// The size of a number, and the larger of two.
ghost use Rattle.std.specs.Prelude.{◌≡◌};
ghost use Rattle.std.specs.Float.Ieee.{le};
ghost use Rattle.binary64.specs.Numbers as numbers;

// The size of x, as Rust's `abs`: a zero loses its sign too.
#[tactic(auto, using(crate::proofs::Sizes::abs_is))]
pub fn abs(x: f64) -> f64
    ensures { result ≡ numbers.abs x }
{
    x.abs()
}

// Whether the size of d is at most e. Two comparisons take less time than working out the size.
#[tactic(auto, using(crate::proofs::Sizes::within_abs))]
pub fn is_within(d: f64, e: f64) -> bool
    ensures { result ≡ le (numbers.abs d) e }
{
    d <= e && d >= -e
}

// The larger of a and b, and a where they are equal. Not std's `max`: it takes b where a is no number, and of two zeros the positive one.
pub fn larger(a: f64, b: f64) -> f64
    ensures { result ≡ numbers.larger a b }
{
    if a < b { b } else { a }
}

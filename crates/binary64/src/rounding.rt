// Rounding to a whole number, capped to the integer type's range.
ghost use Rattle.std.specs.Prelude.{◌≡◌};
ghost use Rattle.binary64.specs.Rounding.{ceil_capped, nearest_capped};

// x rounded up, as Rust's `x.ceil() as u64`. From 2^53 on a number has no fraction.
// std's `ceil` before the conversion takes twice the time.
#[tactic(auto, using(crate::proofs::Ceilings::ceil_up, crate::proofs::Ceilings::ceil_here, crate::proofs::Ceilings::ceil_whole))]
pub fn ceil_capped(x: f64) -> u64
    ensures { result ≡ ceil_capped x }
{
    let whole = std::num::saturating_f64_to_u64(x);
    if whole < 9007199254740992 && (whole as f64) < x {
        whole + 1
    } else {
        whole
    }
}

// x rounded with halves away from zero, as Rust's `x.round() as i64`: the size doubled is exact, and its last binary digit is the half.
// std's `round` before the conversion takes twice the time, and welding asks this in a loop over the nodes.
#[tactic(auto, using(crate::proofs::Halves::nearest_minus, crate::proofs::Halves::nearest_plus), unfolding(std::specs::Prelude::from_bits))]
pub fn nearest_capped(x: f64) -> i64
    ensures { result ≡ nearest_capped x }
{
    let size = x.abs();
    let t = std::num::saturating_f64_to_u64(size + size);
    let k = t / 2 + t % 2;
    if x < 0.0 {
        0i64.saturating_sub_unsigned(k)
    } else {
        0i64.saturating_add_unsigned(k)
    }
}

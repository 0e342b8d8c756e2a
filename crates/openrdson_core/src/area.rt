// The area of a ring by the shoelace rule.
ghost use Rattle.std.specs.Prelude.{◌≡◌, ◌+◌, ◌≤◌, ◌<◌, length, true};
ghost use Rattle.std.specs.Float.Ieee.{le};
ghost use Rattle.lists.specs.Answer.{unless, given};
ghost use Rattle.lists.specs.Lists.{all_below};
ghost use Rattle.binary64.specs.Numbers.{at, at_most};
ghost use Rattle.openrdson_core.specs.Points.{point_at, point_in, points_in, of_ring};
ghost use Rattle.openrdson_core.specs.Area.{cross, shoelace, signed_area, area, is_ccw};
ghost use Rattle.openrdson_core.specs.Sums.{Numbers, Summed};
ghost use Rattle.openrdson_core.specs.Answers.{answer};

use crate::points::Point;
use crate::refusals::Refusal;
use crate::ring::{Ring, next_place};

// Half the shoelace sum: above zero for a ring that turns counter-clockwise, and zero under three points.
#[tactic(auto, unfolding(crate::specs::Points::ring_fault))]
pub fn polygon_signed_area(xs: &[f64], ys: &[f64]) -> Result<f64, Refusal>
    ensures { answer result ≡ of_ring xs.now ys.now (signed_area xs.now ys.now) }
{
    let ring = Ring::new(xs, ys)?;
    signed_area_of_points(ring)
}

// The size of the signed area.
pub fn polygon_area(xs: &[f64], ys: &[f64]) -> Result<f64, Refusal>
    ensures { answer result ≡ of_ring xs.now ys.now (area xs.now ys.now) }
{
    let signed = polygon_signed_area(xs, ys)?;
    Ok(binary64::abs(signed))
}

// Whether the signed area is above zero.
pub fn is_ccw(xs: &[f64], ys: &[f64]) -> Result<bool, Refusal>
    ensures { answer result ≡ of_ring xs.now ys.now (is_ccw xs.now ys.now) }
{
    let signed = polygon_signed_area(xs, ys)?;
    Ok(signed > 0.0)
}

// What the edge from a to b adds to the shoelace sum.
pub fn cross_of(a: Point, b: Point) -> f64
    ensures { result ≡ cross a b }
{
    a.x * b.y - b.x * a.y
}

// The sum with the eight edges from place i on. All x are read before all y: the compiler then works on two neighbours of one list at once.
#[tactic(auto, using(crate::proofs::Areas::sum_eight))]
fn add_eight(ring: Ring, i: usize, sum: f64) -> f64
    requires inside { i + 8 ≤ length ring.xs.now }
    requires total { sum ≡ shoelace ring.xs.now ring.ys.now i }
    ensures { result ≡ shoelace ring.entry.xs.now ring.entry.ys.now (i + 8) }
{
    let next = next_place(ring.xs.len(), i + 7);
    let x0 = ring.xs[i];
    let x1 = ring.xs[i + 1];
    let x2 = ring.xs[i + 2];
    let x3 = ring.xs[i + 3];
    let x4 = ring.xs[i + 4];
    let x5 = ring.xs[i + 5];
    let x6 = ring.xs[i + 6];
    let x7 = ring.xs[i + 7];
    let x8 = ring.xs[next];
    let y0 = ring.ys[i];
    let y1 = ring.ys[i + 1];
    let y2 = ring.ys[i + 2];
    let y3 = ring.ys[i + 3];
    let y4 = ring.ys[i + 4];
    let y5 = ring.ys[i + 5];
    let y6 = ring.ys[i + 6];
    let y7 = ring.ys[i + 7];
    let y8 = ring.ys[next];
    let first = sum + (x0 * y1 - x1 * y0) + (x1 * y2 - x2 * y1);
    let second = first + (x2 * y3 - x3 * y2) + (x3 * y4 - x4 * y3);
    let third = second + (x4 * y5 - x5 * y4) + (x5 * y6 - x6 * y5);
    third + (x6 * y7 - x7 * y6) + (x7 * y8 - x8 * y7)
}

// The sum over all edges, from that over the edges from the first `from` points.
#[tactic(auto, using(crate::proofs::Areas::sum_next))]
fn add_rest(ring: Ring, from: usize, start: f64) -> f64
    requires inside { from ≤ length ring.xs.now }
    requires total { start ≡ shoelace ring.xs.now ring.ys.now from }
    ensures { result ≡ shoelace ring.entry.xs.now ring.entry.ys.now (length ring.entry.xs.now) }
{
    let mut sum = start;
    let n = ring.xs.len();
    for i in from..n {
        let here = ring.point(i);
        let next = ring.point(next_place(n, i));
        sum = sum + cross_of(here, next);
    }
    sum
}

// The upper half of a number's pattern, without the sign. The larger of two sizes has no smaller half, and 2^20 has 0x4130_0000.
#[tactic(auto, using(binary64::proofs::Patterns::low_pattern))]
fn upper_half(x: f64) -> u32
    requires { le x x ≡ true }
    ensures { result < 0x4130_0000 → at_most 20 x ≡ true }
{
    (binary64::to_bits(x) / 0x1_0000_0000 % 0x8000_0000) as u32
}

// The largest of `start` and the upper halves of the eight entries from place `from` on, which are numbers.
fn largest_half(list: &[f64], from: usize, start: u32) -> u32
    requires inside { from + 8 ≤ length list.now }
    requires numbers { Numbers list.now from 8 }
    ensures { result < 0x4130_0000 → (start < 0x4130_0000) × (all_below 8 (λ k. at_most 20 (at list.now (from + k))) ≡ true) }
{
    let mut most = start;
    for k in 0..8 {
        most = most.max(upper_half(list[from + k]));
    }
    most
}

// Whether the `count` points from place `from` on are in range. There is no branch in the loop, as in `Points::is_within` (points.rt); a ring
// of these points alone, for `Ring::is_in_range`, would have its lengths to prove again.
#[tactic(auto, using(lists::proofs::Scans::all_start, lists::proofs::Scans::all_noted))]
fn are_in_range(ring: Ring, from: usize, count: usize) -> bool
    requires inside { from + count ≤ length ring.xs.now }
    ensures { result ≡ all_below count (λ k. point_in (point_at ring.entry.xs.now ring.entry.ys.now (from + k))) }
{
    let mut fine = true;
    for k in 0..count {
        let here = ring.point(from + k);
        fine = fine & here.is_in_range();
    }
    fine
}

// The sum over the edges from the first `count` points, which are in range.
#[derive(Clone, Copy)]
struct Partial {
    sum: f64,
    count: usize,
}

// Eight edges a turn, until the sum is no number or the upper half of a coordinate is not below that of 2^20. A not-a-number's pattern may not
// be asked for; each sum that is a number was made of numbers.
fn sum_of_eights(ring: Ring) -> Partial
    ensures inside { result.count ≤ length ring.entry.xs.now }
    ensures summed { Summed ring.entry.xs.now ring.entry.ys.now result.count result.sum true }
{
    let mut done = Partial { sum: 0.0, count: 0 };
    for turn in 0..ring.xs.len() / 8 {
        let i = 8 * turn;
        let sum = add_eight(ring, i, done.sum);
        if sum != sum {
            return done;
        }
        let of_xs = largest_half(ring.xs, i, 0);
        if largest_half(ring.ys, i, of_xs) >= 0x4130_0000 {
            return done;
        }
        let count = i + 8;
        done = Partial { sum, count };
    }
    done
}

// Eight edges a turn on from there, until a point is out of range. Where a coordinate is 2^20 in size, which is in range, the upper halves do not show it; here
// each point is tested.
fn sum_of_more(ring: Ring, first: Partial) -> Partial
    requires inside { first.count ≤ length ring.xs.now }
    requires summed { Summed ring.xs.now ring.ys.now first.count first.sum true }
    ensures inside { result.count ≤ length ring.entry.xs.now }
    ensures summed { Summed ring.entry.xs.now ring.entry.ys.now result.count result.sum true }
{
    let mut done = first;
    for _turn in 0..(ring.xs.len() - first.count) / 8 {
        let sum = add_eight(ring, done.count, done.sum);
        if !are_in_range(ring, done.count, 8) {
            return done;
        }
        let count = done.count + 8;
        done = Partial { sum, count };
    }
    done
}

// The signed area, or 1.
fn signed_area_of_points(ring: Ring) -> Result<f64, Refusal>
    ensures { answer result ≡ unless (points_in ring.entry.xs.now ring.entry.ys.now) 1 (given (signed_area ring.entry.xs.now ring.entry.ys.now)) }
{
    let n = ring.xs.len();
    let first = sum_of_more(ring, sum_of_eights(ring));
    if !are_in_range(ring, first.count, n - first.count) {
        return Err(Refusal::NumberOutOfRange);
    }
    let sum = add_rest(ring, first.count, first.sum);
    if n < 3 {
        return Ok(0.0);
    }
    Ok(sum / 2.0)
}

// The test whether a ring is an axis-aligned rectangle.
ghost use Rattle.std.specs.Prelude.{◌≡◌, true, false, ◌&&◌, ◌||◌, ◌≤◌, length};
ghost use Rattle.std.specs.Float.Ieee.{neg, le};
ghost use Rattle.binary64.specs.Numbers.{◌⊖◌};
ghost use Rattle.openrdson_core.specs.Points.{points_in, of_ring};
ghost use Rattle.openrdson_core.specs.Apart.{points_within, are_apart, tolerance_within, three_apart};
ghost use Rattle.openrdson_core.specs.Bounds.{bounds_of};
ghost use Rattle.openrdson_core.specs.Rectangle.{on_corner, all_on_corners, is_taken, all_corners_taken, fills_corners, fills_bounds, is_rectangle};
ghost use Rattle.openrdson_core.specs.Answers.{answer};

use crate::bounds::{Bbox, checked_bounds};
use crate::points::Point;
use crate::refusals::Refusal;
use crate::ring::Ring;

// Whether each point lies on a corner of the bounding box, and each corner has a point; 16, 2, 1.
#[tactic(auto, unfolding(crate::specs::Points::ring_fault))]
pub fn is_axis_aligned_rectangle(xs: &[f64], ys: &[f64]) -> Result<bool, Refusal>
    ensures { answer result ≡ of_ring xs.now ys.now (is_rectangle xs.now ys.now) }
{
    let ring = Ring::new(xs, ys)?;
    if is_plainly_none(ring) {
        return Ok(false);
    }
    let bounds = checked_bounds(ring)?;
    Ok(fills_bounds(ring, bounds))
}

// Whether three points show, without the bounds, that a ring is in range and no rectangle. A smaller limit gives a smaller tolerance, so after the limit of
// a coordinate 1.0 is tried: a layout in metres lies within it.
#[tactic(auto, using(crate::proofs::Apart::shown, binary64::proofs::Differences::one_limit, binary64::proofs::Differences::coordinate_limit))]
fn is_plainly_none(ring: Ring) -> bool
    ensures { result ≡ true → (points_in ring.entry.xs.now ring.entry.ys.now ≡ true) × (is_rectangle ring.entry.xs.now ring.entry.ys.now ≡ false) }
{
    ring.xs.len() >= 4 && (is_off_corners(ring, 1048576.0) || is_off_corners(ring, 1.0))
}

// Whether the points are within the limit, and three of them have three x, or three y, that are farther from each other than the
// tolerance can be: a side is at most twice the limit. The middle one of the three is then at no side of the bounds. Places 0, 2 and 3
// show it of a curve, and of a ring whose first three edges turn and do not close a rectangle.
fn is_off_corners(ring: Ring, limit: f64) -> bool
    requires four { 4 ≤ length ring.xs.now }
    ensures { result ≡ (three_apart (tolerance_within limit) ring.entry.xs.now ring.entry.ys.now && points_within limit ring.entry.xs.now ring.entry.ys.now) }
{
    let most = 1e-9 * (limit + limit);
    let xs_apart = are_apart(ring.xs[0], ring.xs[2], ring.xs[3], most);
    let ys_apart = are_apart(ring.ys[0], ring.ys[2], ring.ys[3], most);
    (xs_apart | ys_apart) && ring.is_within(limit)
}

// Whether no two of the three are within t of each other.
fn are_apart(a: f64, b: f64, c: f64, t: f64) -> bool
    ensures { result ≡ are_apart t a b c }
{
    !binary64::is_within(a - b, t) & !binary64::is_within(b - c, t) & !binary64::is_within(a - c, t)
}

// Whether points in range, which have these bounds, lie on their corners and take each. The tolerance is 1e-9 of the larger side. Bounds and eps go
// separately: a struct would be made for one call.
#[tactic(auto, unfolding(crate::specs::Rectangle::fills_bounds))]
fn fills_bounds(ring: Ring, bounds: Bbox) -> bool
    requires in_range { points_in ring.xs.now ring.ys.now ≡ true }
    requires bounds { bounds ≡ bounds_of ring.xs.now ring.ys.now }
    ensures { result ≡ fills_bounds ring.entry.xs.now ring.entry.ys.now bounds }
{
    let width = bounds.width();
    let height = bounds.height();
    if width <= 0.0 || height <= 0.0 {
        return false;
    }
    fills_corners(ring, bounds, 1e-9 * binary64::larger(width, height))
}

// Whether each point is within eps of a corner of the bounds, and each corner has a point. Most rings that are no rectangle show it at their first point.
#[tactic(auto, unfolding(crate::specs::Rectangle::fills_corners))]
fn fills_corners(ring: Ring, bounds: Bbox, eps: f64) -> bool
    requires in_range { points_in ring.xs.now ring.ys.now ≡ true }
    requires bounds { bounds ≡ bounds_of ring.xs.now ring.ys.now }
    ensures { result ≡ fills_corners ring.entry.xs.now ring.entry.ys.now bounds eps }
{
    if ring.xs.len() > 0 && !is_near_corner(ring.point(0), bounds, eps) {
        return false;
    }
    all_on_corners(ring, bounds, eps) && all_corners_taken(ring, bounds, eps)
}

// Whether p, a point within the bounds, is within eps of a corner: of one of their sides in x, and of one in y. The difference from a lower bound is not
// below zero, and that from an upper one not above, so that one comparison tells of its size.
fn is_near_corner(p: Point, bounds: Bbox, eps: f64) -> bool
    ensures { result ≡ ((le (p.x ⊖ bounds.min_x) eps || le (neg eps) (p.x ⊖ bounds.max_x)) && (le (p.y ⊖ bounds.min_y) eps || le (neg eps) (p.y ⊖ bounds.max_y))) }
{
    let left = p.x - bounds.min_x <= eps;
    let right = -eps <= p.x - bounds.max_x;
    let low = p.y - bounds.min_y <= eps;
    let high = -eps <= p.y - bounds.max_y;
    (left | right) & (low | high)
}

// Whether every point is within eps of a corner. There is no branch in the loop, as in `Points::is_within` (points.rt).
#[tactic(auto, using(crate::proofs::Apart::near_at, lists::proofs::Scans::all_start, lists::proofs::Scans::all_noted))]
fn all_on_corners(ring: Ring, bounds: Bbox, eps: f64) -> bool
    requires in_range { points_in ring.xs.now ring.ys.now ≡ true }
    requires bounds { bounds ≡ bounds_of ring.xs.now ring.ys.now }
    ensures { result ≡ all_on_corners ring.entry.xs.now ring.entry.ys.now bounds eps }
{
    let mut fine = true;
    for i in 0..ring.xs.len() {
        fine = fine & is_near_corner(ring.point(i), bounds, eps);
    }
    fine
}

// Whether each corner of the bounds has a point within eps.
fn all_corners_taken(ring: Ring, bounds: Bbox, eps: f64) -> bool
    ensures { result ≡ all_corners_taken ring.entry.xs.now ring.entry.ys.now bounds eps }
{
    let low_left = Point::new(bounds.min_x, bounds.min_y);
    let low_right = Point::new(bounds.max_x, bounds.min_y);
    let high_right = Point::new(bounds.max_x, bounds.max_y);
    let high_left = Point::new(bounds.min_x, bounds.max_y);
    is_taken(ring, low_left, eps)
        & is_taken(ring, low_right, eps)
        & is_taken(ring, high_right, eps)
        & is_taken(ring, high_left, eps)
}

// Whether a point is within eps of the corner. `any` over the places takes longer: 82 ns in place of 78 for a ring of 8 points on four corners.
#[tactic(auto, using(lists::proofs::Scans::any_start, lists::proofs::Scans::any_none, lists::proofs::Scans::any_holds))]
fn is_taken(ring: Ring, corner: Point, eps: f64) -> bool
    ensures { result ≡ is_taken ring.entry.xs.now ring.entry.ys.now corner eps }
{
    for i in 0..ring.xs.len() {
        if on_corner(ring.point(i), corner, eps) {
            return true;
        }
    }
    false
}

// Whether p is within eps of the corner, in x and in y.
#[tactic(auto, unfolding(crate::specs::Rectangle::on_corner))]
fn on_corner(p: Point, corner: Point, eps: f64) -> bool
    ensures { result ≡ on_corner corner eps p }
{
    binary64::is_within(p.x - corner.x, eps) & binary64::is_within(p.y - corner.y, eps)
}

// Axis-aligned bounding boxes.
ghost use Rattle.std.specs.Prelude.{◌≡◌, ◌≤◌, ◌+◌, ◌&&◌, length};
ghost use Rattle.std.specs.Float.Ieee.{le};
ghost use Rattle.lists.specs.Answer.{unless, given};
ghost use Rattle.lists.specs.Lists.{all_below, fold_below};
ghost use Rattle.binary64.specs.Numbers.{at};
ghost use Rattle.openrdson_core.specs.Points.{point_at, point_in, points_in, of_ring};
ghost use Rattle.openrdson_core.specs.Bounds as spec;
ghost use Rattle.openrdson_core.specs.Answers.{answer};

use crate::points::Point;
use crate::refusals::Refusal;
use crate::ring::Ring;

// The least and the greatest x and y of some points.
#[repr(C)]
#[derive(Clone, Copy, Debug, PartialEq)]
pub struct Bbox {
    pub min_x: f64,
    pub min_y: f64,
    pub max_x: f64,
    pub max_y: f64,
}

impl Bbox {
    // An inverted box: the first point that extends it becomes its bounds.
    pub fn empty() -> Self
        ensures { result ≡ spec.empty_bbox }
    {
        Self {
            min_x: binary64::infinity(),
            min_y: binary64::infinity(),
            max_x: binary64::minus_infinity(),
            max_y: binary64::minus_infinity(),
        }
    }

    // Whether the bounds are inverted in x or in y.
    pub fn is_empty(self) -> bool
        ensures { result ≡ spec.is_empty self }
    {
        (self.min_x > self.max_x) | (self.min_y > self.max_y)
    }

    // Whether its low corner and its high one are in range.
    pub fn is_in_range(self) -> bool
        ensures { result ≡ spec.corners_in self }
    {
        let low = Point::new(self.min_x, self.min_y);
        let high = Point::new(self.max_x, self.max_y);
        low.is_in_range() & high.is_in_range()
    }

    // The bounds of a ring's points; 16, 2, 1.
    #[tactic(auto, unfolding(crate::specs::Points::ring_fault))]
    pub fn from_points(xs: &[f64], ys: &[f64]) -> Result<Bbox, Refusal>
        ensures { answer result ≡ of_ring xs.now ys.now (spec.bounds_of xs.now ys.now) }
    {
        let ring = Ring::new(xs, ys)?;
        checked_bounds(ring)
    }

    // Whether the point lies within the bounds.
    fn holds(self, p: Point) -> bool
        ensures { result ≡ ((le self.min_x p.x && le p.x self.max_x) && (le self.min_y p.y && le p.y self.max_y)) }
    {
        (self.min_x <= p.x) & (p.x <= self.max_x) & ((self.min_y <= p.y) & (p.y <= self.max_y))
    }

    // The bounds of the box and the point.
    pub fn extend_point(self, p: Point) -> Self
        ensures { result ≡ spec.extend_point self p }
    {
        Self {
            min_x: lesser(p.x, self.min_x),
            min_y: lesser(p.y, self.min_y),
            max_x: binary64::larger(self.max_x, p.x),
            max_y: binary64::larger(self.max_y, p.y),
        }
    }

    // Extended by the corners of the other box, unless that is empty.
    pub fn extend(self, other: Bbox) -> Self
        ensures { result ≡ spec.extend self other }
    {
        if other.is_empty() {
            return self;
        }
        let low = self.extend_point(Point::new(other.min_x, other.min_y));
        low.extend_point(Point::new(other.max_x, other.max_y))
    }

    // As `extend`.
    pub fn union(self, other: Bbox) -> Self
        ensures { result ≡ spec.extend self other }
    {
        self.extend(other)
    }

    // The extent in x; zero for an empty box. One function of an axis would be no shorter than this and `height`.
    pub fn width(self) -> f64
        ensures { result ≡ spec.width self }
    {
        if self.is_empty() {
            0.0
        } else {
            self.max_x - self.min_x
        }
    }

    // The extent in y; zero for an empty box.
    pub fn height(self) -> f64
        ensures { result ≡ spec.height self }
    {
        if self.is_empty() {
            0.0
        } else {
            self.max_y - self.min_y
        }
    }

    // Half way between the bounds, also of an empty box.
    pub fn center(self) -> Point
        ensures { result ≡ spec.center self }
    {
        Point::new(
            (self.min_x + self.max_x) / 2.0,
            (self.min_y + self.max_y) / 2.0,
        )
    }
}

// x where it is below the bound, else the bound. Not std's `min`: of two zeros it may take the other one.
fn lesser(x: f64, bound: f64) -> f64
    ensures { result ≡ spec.lesser x bound }
{
    if x < bound { x } else { bound }
}

// The bounds of a ring's points; 1. Above sixteen points those after the first four are compared with the bounds of these, eight a turn, up to the first eight
// that do not all lie within; from there on each point extends the box. To compare takes less time, and only the eight that end it are looked at twice.
#[tactic(auto, unfolding(crate::specs::Bounds::bounds_of))]
pub fn checked_bounds(ring: Ring) -> Result<Bbox, Refusal>
    ensures { answer result ≡ unless (points_in ring.entry.xs.now ring.entry.ys.now) 1 (given (spec.bounds_of ring.entry.xs.now ring.entry.ys.now)) }
{
    let count = ring.xs.len();
    if count <= 16 {
        return bounds_to(ring, 0, Bbox::empty(), count);
    }
    let first = bounds_to(ring, 0, Bbox::empty(), 4)?;
    let held = held_to(ring, first);
    bounds_to(ring, held, first, count)
}

// The bounds of the first `count` points, from those of the first `from`, which are in range: the box, extended by each of the others in turn; 1. These are
// tested in the same loop, without a branch, since each extension waits for the one before.
#[tactic(auto, using(lists::proofs::Folds::fold_more, lists::proofs::Scans::all_noted))]
fn bounds_to(ring: Ring, from: usize, start: Bbox, count: usize) -> Result<Bbox, Refusal>
    requires inside { (from ≤ count) × (count ≤ length ring.xs.now) }
    requires begun { spec.FirstBounds ring.xs.now ring.ys.now from start }
    ensures { answer result ≡ unless (all_below count (λ i. point_in (point_at ring.entry.xs.now ring.entry.ys.now i))) 1 (given (fold_below count (λ b i. spec.extend_point b (point_at ring.entry.xs.now ring.entry.ys.now i)) spec.empty_bbox)) }
{
    let mut fine = true;
    let mut bounds = start;
    for i in from..count {
        let p = ring.point(i);
        fine = fine & p.is_in_range();
        bounds = bounds.extend_point(p);
    }
    if !fine {
        return Err(Refusal::NumberOutOfRange);
    }
    Ok(bounds)
}

// A place up to which all points lie within the bounds of the first four, so that these are theirs.
fn held_to(ring: Ring, first: Bbox) -> usize
    requires some { 4 ≤ length ring.xs.now }
    requires begun { spec.FirstBounds ring.xs.now ring.ys.now 4 first }
    ensures inside { result ≤ length ring.entry.xs.now }
    ensures held { spec.FirstBounds ring.entry.xs.now ring.entry.ys.now result first }
{
    let mut held = 4;
    for _turn in 0..(ring.xs.len() - 4) / 8 {
        if !holds_eight(ring, held, first) {
            return held;
        }
        held += 8;
    }
    held
}

// Whether the eight points from place `from` on lie within the bounds.
#[tactic(auto, using(lists::proofs::Scans::all_start, lists::proofs::Scans::all_noted))]
fn holds_eight(ring: Ring, from: usize, bounds: Bbox) -> bool
    requires { from + 8 ≤ length ring.xs.now }
    ensures { result ≡ all_below 8 (λ k. (le bounds.min_x (at ring.entry.xs.now (from + k)) && le (at ring.entry.xs.now (from + k)) bounds.max_x) && (le bounds.min_y (at ring.entry.ys.now (from + k)) && le (at ring.entry.ys.now (from + k)) bounds.max_y)) }
{
    let mut fine = true;
    for k in 0..8 {
        fine = fine & bounds.holds(ring.point(from + k));
    }
    fine
}

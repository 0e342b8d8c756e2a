// Rings: points in two equally long lists. The public calls take the two lists as they are lent, and make a ring of them first.
ghost use Rattle.std.specs.Prelude.{◌≡◌, ◌≤◌, ◌<◌, true, length, IfOk};
ghost use Rattle.lists.specs.Answer.{map_answer};
ghost use Rattle.lists.specs.Lists.{next_of};
ghost use Rattle.openrdson_core.specs.Points.{point_at, points_in, ring_size, ring_fault};
ghost use Rattle.openrdson_core.specs.Apart.{points_within};
ghost use Rattle.openrdson_core.specs.Answers.{answer};

use crate::points::{Point, Points, ring_size};
use crate::refusals::Refusal;

// Two equally long lists of at most 512 points.
#[derive(Clone, Copy)]
pub struct Ring<'a> {
    pub xs: &'a [f64],
    pub ys: &'a [f64],
    ghost even: { length xs.now ≡ length ys.now },
    ghost short: { length xs.now ≤ 512 },
}

// A ring whose points are in range.
#[derive(Clone, Copy)]
pub struct SoundRing<'a> {
    pub ring: Ring<'a>,
    ghost in_range: { points_in ring.xs.now ring.ys.now ≡ true },
}

impl<'a> Ring<'a> {
    // The ring of two lists; 16, 2.
    pub fn new(xs: &'a [f64], ys: &'a [f64]) -> Result<Self, Refusal>
        ensures size { map_answer (λ _. tt {0}) (answer result) ≡ ring_size (length xs.now) (length ys.now) }
        ensures lists { IfOk result (λ r. (r.xs.now ≡ xs.now) × (r.ys.now ≡ ys.now)) }
    {
        ring_size(xs.len(), ys.len())?;
        Ok(Ring { xs, ys })
    }

    // The ring of two lists, its points in range; 16, 2, 1.
    #[tactic(auto, unfolding(crate::specs::Points::ring_fault))]
    pub fn checked(xs: &'a [f64], ys: &'a [f64]) -> Result<SoundRing<'a>, Refusal>
        ensures fault { map_answer (λ _. tt {0}) (answer result) ≡ ring_fault xs.now ys.now }
        ensures lists { IfOk result (λ r. (r.ring.xs.now ≡ xs.now) × (r.ring.ys.now ≡ ys.now)) }
    {
        let ring = Ring::new(xs, ys)?;
        if !ring.is_in_range() {
            return Err(Refusal::NumberOutOfRange);
        }
        Ok(SoundRing { ring })
    }

    // The point at place i. For a caller that has found i below the points.
    pub fn point(self, i: usize) -> Point
        requires { i < length self.xs.now }
        ensures { result ≡ point_at self.entry.xs.now self.entry.ys.now i }
    {
        Point::new(self.xs[i], self.ys[i])
    }

    // Its points.
    fn points(self) -> Points<'a>
        ensures { (result.xs.now ≡ self.entry.xs.now) × (result.ys.now ≡ self.entry.ys.now) }
    {
        Points {
            xs: self.xs,
            ys: self.ys,
        }
    }

    // Whether every point is in range.
    pub fn is_in_range(self) -> bool
        ensures { result ≡ points_in self.entry.xs.now self.entry.ys.now }
    {
        self.points().is_in_range()
    }

    // Whether every coordinate is at most limit in size.
    pub fn is_within(self, limit: f64) -> bool
        ensures { result ≡ points_within limit self.entry.xs.now self.entry.ys.now }
    {
        self.points().is_within(limit)
    }
}

// The place after place i on a ring of n places. For a caller that has found i below n: a type for the n places would be made at each call, and hold no more
// than n.
pub fn next_place(n: usize, i: usize) -> usize
    requires { i < n }
    ensures { (result ≡ next_of n i) × (result < n) }
{
    if i + 1 < n {
        return i + 1;
    }
    0
}

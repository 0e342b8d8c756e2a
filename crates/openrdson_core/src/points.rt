// Points, lists of them, and what is against a ring.
ghost use Rattle.std.specs.Prelude.{◌≡◌, length, IfOk, option_map};
ghost use Rattle.lists.specs.Answer.{map_answer};
ghost use Rattle.openrdson_core.specs.Points.{the_point, point_in, points_in, even_points, points_part, ring_size, ring_fault};
ghost use Rattle.openrdson_core.specs.Apart.{points_within};
ghost use Rattle.openrdson_core.specs.Answers.{answer};

use crate::refusals::Refusal;
use crate::ring::Ring;

// A point of a layout.
#[repr(C)]
#[derive(Clone, Copy, Debug, PartialEq)]
pub struct Point {
    pub x: f64,
    pub y: f64,
}

impl Point {
    // The point (x, y).
    pub fn new(x: f64, y: f64) -> Self
        ensures { result ≡ the_point x y }
    {
        Self { x, y }
    }

    // Whether both coordinates are finite and at most 2^20 in size.
    pub fn is_in_range(self) -> bool
        ensures { result ≡ point_in self }
    {
        binary64::coordinate_in_range(self.x) & binary64::coordinate_in_range(self.y)
    }
}

// Two lists of coordinates, equally long.
#[derive(Clone, Copy)]
pub struct Points<'a> {
    pub xs: &'a [f64],
    pub ys: &'a [f64],
    ghost even: { length xs.now ≡ length ys.now },
}

impl<'a> Points<'a> {
    // The points of two lists; 16.
    pub fn new(xs: &'a [f64], ys: &'a [f64]) -> Result<Self, Refusal>
        ensures size { map_answer (λ _. tt {0}) (answer result) ≡ even_points (length xs.now) (length ys.now) }
        ensures lists { IfOk result (λ p. (p.xs.now ≡ xs.now) × (p.ys.now ≡ ys.now)) }
    {
        even_check(xs.len(), ys.len())?;
        Ok(Points { xs, ys })
    }

    // `count` of them from place `start` on; none where they end past the lists.
    #[tactic(auto, unfolding(crate::specs::Points::points_part))]
    pub fn part(self, start: u32, count: u32) -> Option<Points<'a>>
        ensures { option_map (λ p. (p.xs.now, p.ys.now)) result ≡ points_part self.entry.xs.now self.entry.ys.now start count }
    {
        let first = start as usize;
        let end = first + count as usize;
        if end > self.xs.len() {
            return None;
        }
        let xs = &self.xs[first..end];
        let ys = &self.ys[first..end];
        Some(Points { xs, ys })
    }

    // Whether every point is in range.
    #[tactic(auto, using(crate::proofs::Rings::range_is))]
    pub fn is_in_range(self) -> bool
        ensures { result ≡ points_in self.entry.xs.now self.entry.ys.now }
    {
        self.is_within(1048576.0)
    }

    // Whether every coordinate is at most limit in size. There is no branch in the loop: with `all`, 512 points take 875 ns in place of 640.
    #[tactic(auto, using(lists::proofs::Scans::all_start, lists::proofs::Scans::all_noted))]
    pub fn is_within(self, limit: f64) -> bool
        ensures { result ≡ points_within limit self.entry.xs.now self.entry.ys.now }
    {
        let mut fine = true;
        for i in 0..self.xs.len() {
            fine = fine
                & (binary64::is_within(self.xs[i], limit) & binary64::is_within(self.ys[i], limit));
        }
        fine
    }
}

// Whether anything is against a ring: 16, 2, 1.
pub fn ring_check(xs: &[f64], ys: &[f64]) -> Result<(), Refusal>
    ensures { answer result ≡ ring_fault xs.now ys.now }
{
    Ring::checked(xs, ys)?;
    Ok(())
}

// 16, from the lists' lengths.
fn even_check(m: usize, n: usize) -> Result<(), Refusal>
    ensures { answer result ≡ even_points m n }
{
    if m != n {
        return Err(Refusal::UnequalLists);
    }
    Ok(())
}

// 16 and 2, from the lists' lengths.
pub fn ring_size(m: usize, n: usize) -> Result<(), Refusal>
    ensures { answer result ≡ ring_size m n }
{
    even_check(m, n)?;
    if m > 512 {
        return Err(Refusal::ListTooLong);
    }
    Ok(())
}

// The total volume of a region list.
ghost use Rattle.std.specs.Prelude.{◌≡◌, ◌&&◌, ◌<◌, ◌≤◌, length};
ghost use Rattle.lists.specs.Answer.{unless, given};
ghost use Rattle.binary64.specs.Numbers.{◌⊖◌, ◌⊗◌, abs};
ghost use Rattle.openrdson_core.specs.Answers.{answer};
ghost use Rattle.openrdson_core.specs.Area.{area};
ghost use Rattle.openrdson_core.specs.Bounds.{corners_in};
ghost use Rattle.openrdson_core.specs.Points.{of_ring};
ghost use Rattle.openrdson_core.specs.Solids.{heights_in, of_solid, volume};
ghost use Rattle.openrdson_core.specs.declared.solids.Solid.TheVariants.{Prism};
ghost use Rattle.geometry.specs.Regions.{listed};
ghost use Rattle.geometry.specs.Volumes.{row_volume, total_to, total_volume};

use crate::regions::{EvenRegions, LARGEST_MATERIAL, Part, Regions, RowKind};
use openrdson_core::{Bbox, Heights, Point, Points, Refusal, cross_of};

// The size of the area of a ring; 2, 1. It is core's `polygon_area` with two edges a turn, and stands here so that the compiler puts it into the loop over
// the rows.
#[tactic(auto, using(crate::proofs::RingLaws::ring_long, crate::proofs::RingLaws::no_points))]
fn ring_area(ring: Points<'_>) -> Result<f64, Refusal>
    ensures { answer result ≡ of_ring ring.entry.xs.now ring.entry.ys.now (area ring.entry.xs.now ring.entry.ys.now) }
{
    let xs = ring.xs;
    let ys = ring.ys;
    let n = xs.len();
    if n > 512 {
        return Err(Refusal::ListTooLong);
    }
    if n == 0 {
        return Ok(0.0);
    }
    let mut sum = 0.0;
    for turn in 0..(n - 1) / 2 {
        let i = 2 * turn;
        let a = Point::new(xs[i], ys[i]);
        let b = Point::new(xs[i + 1], ys[i + 1]);
        let c = Point::new(xs[i + 2], ys[i + 2]);
        if !(a.is_in_range() & b.is_in_range()) {
            return Err(Refusal::NumberOutOfRange);
        }
        sum = sum + cross_of(a, b) + cross_of(b, c);
    }
    let i = (n - 1) / 2 * 2;
    let here = Point::new(xs[i], ys[i]);
    let last = Point::new(xs[n - 1], ys[n - 1]);
    if !(here.is_in_range() & last.is_in_range()) {
        return Err(Refusal::NumberOutOfRange);
    }
    if n < 3 {
        return Ok(0.0);
    }
    let closing = cross_of(last, Point::new(xs[0], ys[0]));
    if i + 1 < n {
        return Ok(binary64::abs((sum + cross_of(here, last) + closing) / 2.0));
    }
    Ok(binary64::abs((sum + closing) / 2.0))
}

// The volume of a box; 1. Not by `Solid::volume`, which looks at the point lists for each box.
fn box_volume(sides: Bbox, heights: Heights) -> Result<f64, Refusal>
    ensures { answer result ≡ unless (corners_in sides && heights_in heights.bottom heights.top) 1 (given (abs ((sides.max_x ⊖ sides.min_x) ⊗ (sides.max_y ⊖ sides.min_y) ⊗ (heights.top ⊖ heights.bottom)))) }
{
    if !(sides.is_in_range() & heights.is_in_range()) {
        return Err(Refusal::NumberOutOfRange);
    }
    Ok(heights.volume_over_box(sides))
}

// The rows of a region list, and the points of their prisms.
#[derive(Clone, Copy)]
struct Rows<'a> {
    regions: EvenRegions<'a>,
    points: Points<'a>,
    ghost few: { length points.xs.now ≤ 2097152 },
}

impl Rows<'_> {
    // The volume of a prism; 15, 2, 1.
    #[tactic(auto, unfolding(openrdson_core::specs::Solids::volume, openrdson_core::specs::Points::ring_fault, openrdson_core::specs::Points::points_part))]
    fn prism_volume(self, part: Part, heights: Heights) -> Result<f64, Refusal>
        ensures { answer result ≡ of_solid self.entry.points.xs.now self.entry.points.ys.now (Prism heights.bottom heights.top part.start part.count) (volume self.entry.points.xs.now self.entry.points.ys.now (Prism heights.bottom heights.top part.start part.count)) }
    {
        let ring = self
            .points
            .part(part.start, part.count)
            .ok_or(Refusal::OutsideList)?;
        let area = ring_area(ring)?;
        if !heights.is_in_range() {
            return Err(Refusal::NumberOutOfRange);
        }
        Ok(heights.volume_over_area(area))
    }

    // The volume of row i; 15, 2, 1. It is that of the region that `EvenRegions::region` reads; making that region for each row takes 81 µs for the total, and
    // this 22.
    #[tactic(auto, using(crate::proofs::VolumeLaws::box_beside), unfolding(crate::specs::Volumes::row_volume, crate::specs::Regions::region_at, crate::specs::Regions::solid_at, openrdson_core::specs::Solids::volume))]
    fn volume(self, i: usize) -> Result<f64, Refusal>
        requires { i < length self.regions.lists.kinds.now }
        ensures { answer result ≡ row_volume (listed self.entry.regions.lists) self.entry.points.xs.now self.entry.points.ys.now i }
    {
        let lists = self.regions.lists;
        if lists.materials[i] > LARGEST_MATERIAL {
            return Err(Refusal::OutsideList);
        }
        let heights = Heights {
            bottom: lists.z_bottom[i],
            top: lists.z_top[i],
        };
        match RowKind::try_from(lists.kinds[i])? {
            RowKind::Box => {
                let sides = Bbox {
                    min_x: lists.min_x[i],
                    min_y: lists.min_y[i],
                    max_x: lists.max_x[i],
                    max_y: lists.max_y[i],
                };
                box_volume(sides, heights)
            }
            RowKind::Prism => {
                let part = Part {
                    start: lists.starts[i],
                    count: lists.counts[i],
                };
                self.prism_volume(part, heights)
            }
        }
    }

    // The sum of the volumes of all rows, in order; 15, 2, 1.
    #[tactic(auto, using(lists::proofs::Folds::steps_start, crate::proofs::VolumeLaws::total_more, crate::proofs::VolumeLaws::total_stops))]
    fn total(self) -> Result<f64, Refusal>
        ensures { answer result ≡ total_to (listed self.entry.regions.lists) self.entry.points.xs.now self.entry.points.ys.now (length self.entry.regions.lists.kinds.now) }
    {
        let mut sum = 0.0;
        for i in 0..self.regions.rows() {
            sum = sum + self.volume(i)?;
        }
        Ok(sum)
    }
}

// The total volume of a region list, whose prisms are parts of the point lists; 16, 2, then row by row 15, 2, 1.
#[tactic(auto, unfolding(crate::specs::Volumes::total_volume))]
pub fn total_volume(regions: Regions<'_>, xs: &[f64], ys: &[f64]) -> Result<f64, Refusal>
    ensures { answer result ≡ total_volume (listed regions.entry) xs.now ys.now }
{
    let regions = regions.checked()?;
    let points = Points::new(xs, ys)?;
    if regions.rows() > 4096 {
        return Err(Refusal::ListTooLong);
    }
    if xs.len() > 2097152 {
        return Err(Refusal::ListTooLong);
    }
    let rows = Rows { regions, points };
    rows.total()
}

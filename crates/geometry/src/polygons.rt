// The polygons of a layout: layer, net and a part of the point lists each.
ghost use Rattle.std.specs.Prelude.{◌≡◌, ◌≤◌, ◌<◌, length, get_or, IfOk};
ghost use Rattle.lists.specs.Answer.{map_answer, given};
ghost use Rattle.openrdson_core.specs.Answers.{answer};
ghost use Rattle.geometry.specs.Polygons as spec;

use crate::extrude::extrude_ring;
use crate::regions::{Part, all_equal};
use openrdson_core::{Heights, Points, Refusal, Ring, Solid};

// A layout's polygons, as they are lent: four lists of polygons and two of points.
#[derive(Clone, Copy)]
pub struct Polygons<'a> {
    pub layers: &'a [i16],
    pub nets: &'a [u32],
    pub starts: &'a [u32],
    pub counts: &'a [u32],
    pub xs: &'a [f64],
    pub ys: &'a [f64],
}

// At most 4096 polygons, each a ring in range.
#[derive(Clone, Copy)]
pub struct SoundPolygons<'a> {
    pub lists: Polygons<'a>,
    ghost even: { spec.EvenPolygons (spec.polygons_of lists) },
    ghost few: { length lists.layers.now ≤ 4096 },
    ghost fine: { spec.parts_fault lists.xs.now lists.ys.now lists.starts.now lists.counts.now (length lists.layers.now) ≡ given tt },
}

// Whether anything is against the polygon with this part of the points: 15, 2, 1.
#[tactic(auto, unfolding(crate::specs::Polygons::part_fault, openrdson_core::specs::Points::points_part))]
fn polygon_check(points: Points<'_>, part: Part) -> Result<(), Refusal>
    ensures { answer result ≡ spec.part_fault points.entry.xs.now points.entry.ys.now part.start part.count }
{
    let ring = points
        .part(part.start, part.count)
        .ok_or(Refusal::OutsideList)?;
    Ring::checked(ring.xs, ring.ys)?;
    Ok(())
}

impl<'a> Polygons<'a> {
    // Whether the four lists of polygons, and the two of points, are equally long.
    #[tactic(auto, unfolding(crate::specs::Polygons::even_polygons))]
    fn is_even(self) -> bool
        ensures { result ≡ spec.even_polygons (spec.polygons_of self.entry) }
    {
        let lengths = [self.nets.len(), self.starts.len(), self.counts.len()];
        all_equal(self.layers.len(), &lengths) & (self.xs.len() == self.ys.len())
    }

    // Whether anything is against a polygon, the first of them deciding. For a caller that has found the lists equally long.
    #[tactic(auto, using(lists::proofs::Folds::steps_start, lists::proofs::Folds::steps_more, lists::proofs::Folds::steps_stop))]
    fn parts_check(self) -> Result<(), Refusal>
        requires { spec.EvenPolygons (spec.polygons_of self) }
        ensures { answer result ≡ spec.parts_fault self.entry.xs.now self.entry.ys.now self.entry.starts.now self.entry.counts.now (length self.entry.layers.now) }
    {
        let points = Points {
            xs: self.xs,
            ys: self.ys,
        };
        for i in 0..self.layers.len() {
            let part = Part {
                start: self.starts[i],
                count: self.counts[i],
            };
            polygon_check(points, part)?;
        }
        Ok(())
    }

    // The polygons, if nothing is against them: 16, 2, then polygon by polygon 15, 2, 1.
    #[tactic(auto, using(crate::proofs::PolygonLaws::polygons_even_of), unfolding(crate::specs::Polygons::polygons_fault))]
    pub fn checked(self) -> Result<SoundPolygons<'a>, Refusal>
        ensures fault { map_answer (λ _. tt {0}) (answer result) ≡ spec.polygons_fault (spec.polygons_of self.entry) }
        ensures lists { IfOk result (λ p. spec.polygons_of p.lists ≡ spec.polygons_of self.entry) }
    {
        if !self.is_even() {
            return Err(Refusal::UnequalLists);
        }
        if self.layers.len() > 4096 {
            return Err(Refusal::ListTooLong);
        }
        if self.xs.len() > 2097152 {
            return Err(Refusal::ListTooLong);
        }
        self.parts_check()?;
        Ok(SoundPolygons { lists: self })
    }
}

// The solid of a polygon between two heights. For a caller that has found nothing against it.
#[tactic(auto, unfolding(crate::specs::Polygons::part_fault, crate::specs::Polygons::part_solid, openrdson_core::specs::Points::points_part))]
fn polygon_solid(points: Points<'_>, part: Part, heights: Heights) -> Solid
    requires { spec.part_fault points.xs.now points.ys.now part.start part.count ≡ given tt }
    ensures { result ≡ spec.part_solid points.entry.xs.now points.entry.ys.now part.start part.count heights.bottom heights.top }
{
    let ring = points.part(part.start, part.count).unwrap();
    extrude_ring(ring.xs, ring.ys, heights, part).unwrap()
}

impl SoundPolygons<'_> {
    // The solid of polygon i between two heights. For a caller that has found i below the polygons.
    #[tactic(auto, using(crate::proofs::PolygonLaws::parts_passed))]
    pub fn solid(self, i: usize, heights: Heights) -> Solid
        requires { i < length self.lists.layers.now }
        ensures { result ≡ spec.part_solid self.entry.lists.xs.now self.entry.lists.ys.now (get_or self.entry.lists.starts.now i 0) (get_or self.entry.lists.counts.now i 0) heights.bottom heights.top }
    {
        let points = Points {
            xs: self.lists.xs,
            ys: self.lists.ys,
        };
        let part = Part {
            start: self.lists.starts[i],
            count: self.lists.counts[i],
        };
        polygon_solid(points, part, heights)
    }
}

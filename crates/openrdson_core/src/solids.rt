// Solids, and the regions that carry them.
ghost use Rattle.std.specs.Prelude.{◌≡◌, length};
ghost use Rattle.lists.specs.Answer.{map_answer};
ghost use Rattle.binary64.specs.Numbers.{◌⊖◌, ◌⊗◌, abs};
ghost use Rattle.openrdson_core.specs.Solids as spec;
ghost use Rattle.openrdson_core.specs.Answers.{answer};

use crate::area::polygon_area;
use crate::bounds::Bbox;
use crate::points::Points;
use crate::refusals::Refusal;

// A material's number, from 1; 0 is unassigned.
#[derive(Clone, Copy, Debug, PartialEq, Eq)]
pub struct Material(pub u32);

// A polygon's number, from 0; 4,294,967,295 is none.
#[derive(Clone, Copy, Debug, PartialEq, Eq)]
pub struct PolygonNumber(pub u32);

// The heights of a solid's bottom and of its top.
#[derive(Clone, Copy, Debug, PartialEq)]
pub struct Heights {
    pub bottom: f64,
    pub top: f64,
}

impl Heights {
    // Whether both are finite and at most 2^20 in size.
    pub fn is_in_range(self) -> bool
        ensures { result ≡ spec.heights_in self.bottom self.top }
    {
        binary64::coordinate_in_range(self.bottom) & binary64::coordinate_in_range(self.top)
    }

    // 1, unless both are in range.
    fn check(self) -> Result<(), Refusal>
        ensures { answer result ≡ spec.heights_fault self.bottom self.top }
    {
        if !self.is_in_range() {
            return Err(Refusal::NumberOutOfRange);
        }
        Ok(())
    }

    // The volume between them over a rectangle.
    pub fn volume_over_box(self, sides: Bbox) -> f64
        ensures { result ≡ abs ((sides.max_x ⊖ sides.min_x) ⊗ (sides.max_y ⊖ sides.min_y) ⊗ (self.top ⊖ self.bottom)) }
    {
        let area = (sides.max_x - sides.min_x) * (sides.max_y - sides.min_y);
        binary64::abs(area * (self.top - self.bottom))
    }

    // The volume between them over an area.
    pub fn volume_over_area(self, area: f64) -> f64
        ensures { result ≡ area ⊗ abs (self.top ⊖ self.bottom) }
    {
        area * binary64::abs(self.top - self.bottom)
    }
}

// A box with its six bounds, or a prism with two heights and a part of the point lists.
#[derive(Clone, Copy, Debug, PartialEq)]
pub enum Solid {
    Box {
        min_x: f64,
        min_y: f64,
        max_x: f64,
        max_y: f64,
        z_bottom: f64,
        z_top: f64,
    },
    Prism {
        z_bottom: f64,
        z_top: f64,
        start: u32,
        count: u32,
    },
}

// What a solid stands on: a box on its sides, a prism on a ring, a part of the point lists.
#[derive(Clone, Copy, Debug, PartialEq)]
pub enum Footprint {
    Sides(Bbox),
    Ring { start: u32, count: u32 },
}

// A solid with its material, its net (the caller's number, 0 for none) and the polygon it came from.
#[derive(Clone, Copy, Debug, PartialEq)]
pub struct SolidRegion {
    pub material_id: Material,
    pub net: u32,
    pub source_polygon: PolygonNumber,
    pub solid: Solid,
}

impl Solid {
    // The box with these sides between two heights.
    pub fn of_box(sides: Bbox, heights: Heights) -> Solid
        ensures { result ≡ spec.box_of sides heights.bottom heights.top }
    {
        Solid::Box {
            min_x: sides.min_x,
            min_y: sides.min_y,
            max_x: sides.max_x,
            max_y: sides.max_y,
            z_bottom: heights.bottom,
            z_top: heights.top,
        }
    }

    // The two heights.
    pub fn heights(self) -> Heights
        ensures { result ≡ spec.heights_of self }
    {
        match self {
            Solid::Box {
                z_bottom,
                z_top,
                ..
            }
            | Solid::Prism {
                z_bottom,
                z_top,
                ..
            } => Heights {
                bottom: z_bottom,
                top: z_top,
            },
        }
    }

    // What it stands on, and its heights.
    pub fn parts(self) -> (Footprint, Heights)
        ensures { self ≡ spec.solid_on result.0 result.1 }
    {
        let heights = self.heights();
        match self {
            Solid::Box {
                min_x,
                min_y,
                max_x,
                max_y,
                ..
            } => {
                let sides = Bbox {
                    min_x,
                    min_y,
                    max_x,
                    max_y,
                };
                (Footprint::Sides(sides), heights)
            }
            Solid::Prism { start, count, .. } => (Footprint::Ring { start, count }, heights),
        }
    }

    // The height of its bottom.
    pub fn z_bottom(self) -> f64
        ensures { result ≡ spec.z_bottom_of self }
    {
        self.heights().bottom
    }

    // The height of its top.
    pub fn z_top(self) -> f64
        ensures { result ≡ spec.z_top_of self }
    {
        self.heights().top
    }

    // The bounds of the footprint; a prism's points are a part of the lists xs and ys; 16, 15, 2, 1. The cases are those of `volume`: one judgement for both
    // would test a ring's points twice, since `polygon_area` tests them beside its sum.
    #[tactic(auto, unfolding(crate::specs::Solids::footprint))]
    pub fn footprint_bbox(self, xs: &[f64], ys: &[f64]) -> Result<Bbox, Refusal>
        ensures { answer result ≡ spec.of_solid xs.now ys.now self (spec.footprint xs.now ys.now self) }
    {
        let (footprint, heights) = self.parts();
        match footprint {
            Footprint::Sides(sides) => {
                box_check(sides, heights, xs, ys)?;
                Ok(sides)
            }
            Footprint::Ring { start, count } => {
                let part = part_of(start, count, xs, ys)?;
                let bounds = Bbox::from_points(part.xs, part.ys)?;
                heights.check()?;
                Ok(bounds)
            }
        }
    }

    // The volume; a prism's points are a part of the lists xs and ys; 16, 15, 2, 1.
    #[tactic(auto, unfolding(crate::specs::Solids::volume))]
    pub fn volume(self, xs: &[f64], ys: &[f64]) -> Result<f64, Refusal>
        ensures { answer result ≡ spec.of_solid xs.now ys.now self (spec.volume xs.now ys.now self) }
    {
        let (footprint, heights) = self.parts();
        match footprint {
            Footprint::Sides(sides) => {
                box_check(sides, heights, xs, ys)?;
                Ok(heights.volume_over_box(sides))
            }
            Footprint::Ring { start, count } => {
                let part = part_of(start, count, xs, ys)?;
                let area = polygon_area(part.xs, part.ys)?;
                heights.check()?;
                Ok(heights.volume_over_area(area))
            }
        }
    }
}

impl SolidRegion {
    // The volume of its solid; 16, 15, 2, 1.
    pub fn volume(self, xs: &[f64], ys: &[f64]) -> Result<f64, Refusal>
        ensures { answer result ≡ spec.of_solid xs.now ys.now self.solid (spec.volume xs.now ys.now self.solid) }
    {
        self.solid.volume(xs, ys)
    }
}

// Whether anything is against a box and the point lists lent with it: 16, 2, 1.
fn box_check(sides: Bbox, heights: Heights, xs: &[f64], ys: &[f64]) -> Result<(), Refusal>
    ensures { answer result ≡ spec.box_fault (length xs.now) (length ys.now) sides heights.bottom heights.top }
{
    part_of(0, 0, xs, ys)?;
    if !sides.is_in_range() {
        return Err(Refusal::NumberOutOfRange);
    }
    heights.check()
}

// A part of the point lists: 16, 15, 2.
#[tactic(auto, unfolding(crate::specs::Points::points_part))]
fn part_of<'a>(start: u32, count: u32, xs: &'a [f64], ys: &'a [f64]) -> Result<Points<'a>, Refusal>
    ensures { map_answer (λ p. (p.xs.now, p.ys.now)) (answer result) ≡ spec.part_of xs.now ys.now start count }
{
    let points = Points::new(xs, ys)?;
    let part = points.part(start, count).ok_or(Refusal::OutsideList)?;
    if xs.len() > 2097152 {
        return Err(Refusal::ListTooLong);
    }
    Ok(part)
}

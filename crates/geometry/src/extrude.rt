// Extruding a footprint between two heights. The calls take a ring's two lists, a material and a net as they are lent, each as an argument of its own.
ghost use Rattle.std.specs.Prelude.{◌≡◌};
ghost use Rattle.openrdson_core.specs.Points.{of_ring};
ghost use Rattle.openrdson_core.specs.Bounds.{bounds_of};
ghost use Rattle.openrdson_core.specs.Answers.{answer};
ghost use Rattle.geometry.specs.Extrude as spec;

use crate::regions::{LARGEST_MATERIAL, NO_POLYGON, Part};
use openrdson_core::{
    Bbox, Heights, Material, PolygonNumber, Refusal, Solid, SolidRegion, is_axis_aligned_rectangle,
    ring_size,
};

// A ring between two heights, a box or a prism of this part of the point lists; 16, 2, 1.
#[tactic(auto, unfolding(crate::specs::Extrude::solid_of))]
pub fn extrude_ring(xs: &[f64], ys: &[f64], heights: Heights, part: Part) -> Result<Solid, Refusal>
    ensures { answer result ≡ of_ring xs.now ys.now (spec.solid_of xs.now ys.now heights.bottom heights.top part.start part.count) }
{
    if is_axis_aligned_rectangle(xs, ys)? {
        let bounds = Bbox::from_points(xs, ys)?;
        return Ok(Solid::of_box(bounds, heights));
    }
    Ok(Solid::Prism {
        z_bottom: heights.bottom,
        z_top: heights.top,
        start: part.start,
        count: part.count,
    })
}

// A solid as a region of a material and a net, where its heights are in range; 1, 15.
#[tactic(auto, unfolding(crate::specs::Extrude::region_of))]
fn region_of(
    solid: Solid,
    heights: Heights,
    material: Material,
    net: u32,
) -> Result<SolidRegion, Refusal>
    ensures { answer result ≡ spec.region_of solid heights.bottom heights.top material.0 net }
{
    if !heights.is_in_range() {
        return Err(Refusal::NumberOutOfRange);
    }
    if material.0 > LARGEST_MATERIAL {
        return Err(Refusal::OutsideList);
    }
    Ok(SolidRegion {
        material_id: material,
        net,
        source_polygon: PolygonNumber(NO_POLYGON),
        solid,
    })
}

// A polygon between two heights, as a region of a material and a net; 16, 2, 1, 15.
#[tactic(auto, unfolding(crate::specs::Extrude::extrude_polygon, openrdson_core::specs::Points::ring_fault))]
pub fn extrude_polygon(
    xs: &[f64],
    ys: &[f64],
    heights: Heights,
    material: Material,
    net: u32,
) -> Result<SolidRegion, Refusal>
    ensures { answer result ≡ spec.extrude_polygon xs.now ys.now heights.bottom heights.top material.0 net }
{
    ring_size(xs.len(), ys.len())?;
    let all = Part {
        start: 0,
        count: xs.len() as u32,
    };
    let solid = extrude_ring(xs, ys, heights, all)?;
    region_of(solid, heights, material, net)
}

// A box of explicit bounds, as a region of a material and a net; 1, 15.
#[tactic(auto, unfolding(crate::specs::Extrude::extrude_box))]
pub fn extrude_box(
    sides: Bbox,
    heights: Heights,
    material: Material,
    net: u32,
) -> Result<SolidRegion, Refusal>
    ensures { answer result ≡ spec.extrude_box sides heights.bottom heights.top material.0 net }
{
    if !sides.is_in_range() {
        return Err(Refusal::NumberOutOfRange);
    }
    let solid = Solid::of_box(sides, heights);
    region_of(solid, heights, material, net)
}

// The calls of openrdson_core on solids.
// C hands each list and number over by itself, and takes each value through its own reference.
ghost use Rattle.std.specs.Prelude.{◌≡◌};
ghost use Rattle.openrdson_core.specs.Bounds.{the_bbox};
ghost use Rattle.openrdson_core.specs.Solids as solids;
ghost use Rattle.openrdson_core.specs.declared.solids.Solid.TheVariants.{Box, Prism};
ghost use Rattle.c_api.specs.Given.{Given};

use crate::answers::{give, give_bounds};
use openrdson_core::{Material, PolygonNumber, Solid, SolidRegion};

// The box of these numbers, which C hands over by themselves; below it a prism and a region.
fn boxed(min_x: f64, min_y: f64, max_x: f64, max_y: f64, z_bottom: f64, z_top: f64) -> Solid
    ensures { result ≡ Box min_x min_y max_x max_y z_bottom z_top }
{
    Solid::Box {
        min_x,
        min_y,
        max_x,
        max_y,
        z_bottom,
        z_top,
    }
}

fn prism(z_bottom: f64, z_top: f64, start: u32, count: u32) -> Solid
    ensures { result ≡ Prism z_bottom z_top start count }
{
    Solid::Prism {
        z_bottom,
        z_top,
        start,
        count,
    }
}

fn region(material: u32, net: u32, polygon: u32, solid: Solid) -> SolidRegion
    ensures { result.solid ≡ solid }
{
    SolidRegion {
        material_id: Material(material),
        net,
        source_polygon: PolygonNumber(polygon),
        solid,
    }
}

#[unsafe(no_mangle)]
pub extern "C" fn openrdson_box_volume(
    min_x: f64,
    min_y: f64,
    max_x: f64,
    max_y: f64,
    z_bottom: f64,
    z_top: f64,
    xs: &[f64],
    ys: &[f64],
    volume: &mut f64,
) -> u32
    ensures { Given (solids.of_solid xs.now ys.now (Box min_x min_y max_x max_y z_bottom z_top) (solids.volume xs.now ys.now (Box min_x min_y max_x max_y z_bottom z_top))) result volume.old volume.new }
{
    let solid = boxed(min_x, min_y, max_x, max_y, z_bottom, z_top);
    give(solid.volume(xs, ys), volume)
}

#[unsafe(no_mangle)]
pub extern "C" fn openrdson_prism_volume(
    z_bottom: f64,
    z_top: f64,
    start: u32,
    count: u32,
    xs: &[f64],
    ys: &[f64],
    volume: &mut f64,
) -> u32
    ensures { Given (solids.of_solid xs.now ys.now (Prism z_bottom z_top start count) (solids.volume xs.now ys.now (Prism z_bottom z_top start count))) result volume.old volume.new }
{
    let solid = prism(z_bottom, z_top, start, count);
    give(solid.volume(xs, ys), volume)
}

// The volume of a region depends neither on its material nor on its net or its polygon.
#[unsafe(no_mangle)]
pub extern "C" fn openrdson_box_region_volume(
    material: u32,
    net: u32,
    polygon: u32,
    min_x: f64,
    min_y: f64,
    max_x: f64,
    max_y: f64,
    z_bottom: f64,
    z_top: f64,
    xs: &[f64],
    ys: &[f64],
    volume: &mut f64,
) -> u32
    ensures { Given (solids.of_solid xs.now ys.now (Box min_x min_y max_x max_y z_bottom z_top) (solids.volume xs.now ys.now (Box min_x min_y max_x max_y z_bottom z_top))) result volume.old volume.new }
{
    let solid = boxed(min_x, min_y, max_x, max_y, z_bottom, z_top);
    let whole = region(material, net, polygon, solid);
    give(whole.volume(xs, ys), volume)
}

#[unsafe(no_mangle)]
pub extern "C" fn openrdson_prism_region_volume(
    material: u32,
    net: u32,
    polygon: u32,
    z_bottom: f64,
    z_top: f64,
    start: u32,
    count: u32,
    xs: &[f64],
    ys: &[f64],
    volume: &mut f64,
) -> u32
    ensures { Given (solids.of_solid xs.now ys.now (Prism z_bottom z_top start count) (solids.volume xs.now ys.now (Prism z_bottom z_top start count))) result volume.old volume.new }
{
    let whole = region(material, net, polygon, prism(z_bottom, z_top, start, count));
    give(whole.volume(xs, ys), volume)
}

#[unsafe(no_mangle)]
pub extern "C" fn openrdson_box_footprint_bbox(
    min_x: f64,
    min_y: f64,
    max_x: f64,
    max_y: f64,
    z_bottom: f64,
    z_top: f64,
    xs: &[f64],
    ys: &[f64],
    out_min_x: &mut f64,
    out_min_y: &mut f64,
    out_max_x: &mut f64,
    out_max_y: &mut f64,
) -> u32
    ensures { Given (solids.of_solid xs.now ys.now (Box min_x min_y max_x max_y z_bottom z_top) (solids.footprint xs.now ys.now (Box min_x min_y max_x max_y z_bottom z_top))) result (the_bbox out_min_x.old out_min_y.old out_max_x.old out_max_y.old) (the_bbox out_min_x.new out_min_y.new out_max_x.new out_max_y.new) }
{
    let solid = boxed(min_x, min_y, max_x, max_y, z_bottom, z_top);
    give_bounds(
        solid.footprint_bbox(xs, ys),
        out_min_x,
        out_min_y,
        out_max_x,
        out_max_y,
    )
}

#[unsafe(no_mangle)]
pub extern "C" fn openrdson_prism_footprint_bbox(
    z_bottom: f64,
    z_top: f64,
    start: u32,
    count: u32,
    xs: &[f64],
    ys: &[f64],
    min_x: &mut f64,
    min_y: &mut f64,
    max_x: &mut f64,
    max_y: &mut f64,
) -> u32
    ensures { Given (solids.of_solid xs.now ys.now (Prism z_bottom z_top start count) (solids.footprint xs.now ys.now (Prism z_bottom z_top start count))) result (the_bbox min_x.old min_y.old max_x.old max_y.old) (the_bbox min_x.new min_y.new max_x.new max_y.new) }
{
    let solid = prism(z_bottom, z_top, start, count);
    give_bounds(solid.footprint_bbox(xs, ys), min_x, min_y, max_x, max_y)
}

#[unsafe(no_mangle)]
pub extern "C" fn openrdson_box_z_bottom(
    min_x: f64,
    min_y: f64,
    max_x: f64,
    max_y: f64,
    z_bottom: f64,
    z_top: f64,
) -> f64
    ensures { result ≡ solids.z_bottom_of (Box min_x min_y max_x max_y z_bottom z_top) }
{
    let solid = boxed(min_x, min_y, max_x, max_y, z_bottom, z_top);
    solid.z_bottom()
}

#[unsafe(no_mangle)]
pub extern "C" fn openrdson_box_z_top(
    min_x: f64,
    min_y: f64,
    max_x: f64,
    max_y: f64,
    z_bottom: f64,
    z_top: f64,
) -> f64
    ensures { result ≡ solids.z_top_of (Box min_x min_y max_x max_y z_bottom z_top) }
{
    let solid = boxed(min_x, min_y, max_x, max_y, z_bottom, z_top);
    solid.z_top()
}

#[unsafe(no_mangle)]
pub extern "C" fn openrdson_prism_z_bottom(z_bottom: f64, z_top: f64, start: u32, count: u32) -> f64
    ensures { result ≡ solids.z_bottom_of (Prism z_bottom z_top start count) }
{
    let solid = prism(z_bottom, z_top, start, count);
    solid.z_bottom()
}

#[unsafe(no_mangle)]
pub extern "C" fn openrdson_prism_z_top(z_bottom: f64, z_top: f64, start: u32, count: u32) -> f64
    ensures { result ≡ solids.z_top_of (Prism z_bottom z_top start count) }
{
    let solid = prism(z_bottom, z_top, start, count);
    solid.z_top()
}

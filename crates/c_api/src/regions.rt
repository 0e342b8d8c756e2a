// The calls of geometry: extruding, and the total volume of a region list. A region is given as its row of a region list.
// C hands each list and number over by itself, and takes each value through its own reference.
ghost use Rattle.std.specs.Prelude.{◌≡◌};
ghost use Rattle.lists.specs.Answer.{map_answer};
ghost use Rattle.openrdson_core.specs.Answers.{answer};
ghost use Rattle.geometry.specs.Extrude.{extrude_polygon, extrude_box};
ghost use Rattle.geometry.specs.Regions.{the_regions};
ghost use Rattle.geometry.specs.Volumes.{total_volume};
ghost use Rattle.c_api.specs.Given.{Given};
ghost use Rattle.c_api.specs.Regions as spec;

use crate::answers::give;
use geometry::{Columns, Regions};
use openrdson_core::{Bbox, Heights, Material, Refusal, Solid, SolidRegion};

// The entries of a solid in its row.
fn give_solid(
    solid: Solid,
    kind: &mut u8,
    min_x: &mut f64,
    min_y: &mut f64,
    max_x: &mut f64,
    max_y: &mut f64,
    z_bottom: &mut f64,
    z_top: &mut f64,
    start: &mut u32,
    count: &mut u32,
)
    ensures { spec.the_solid_row kind.new min_x.new min_y.new max_x.new max_y.new z_bottom.new z_top.new start.new count.new ≡ spec.solid_row solid }
{
    let columns = Columns::from(solid);
    let heights = solid.heights();
    *kind = u8::from(columns.kind);
    *min_x = columns.sides.min_x;
    *min_y = columns.sides.min_y;
    *max_x = columns.sides.max_x;
    *max_y = columns.sides.max_y;
    *z_bottom = heights.bottom;
    *z_top = heights.top;
    *start = columns.part.start;
    *count = columns.part.count;
}

// The row of a region, or the refusal.
fn give_region(
    built: Result<SolidRegion, Refusal>,
    kind: &mut u8,
    min_x: &mut f64,
    min_y: &mut f64,
    max_x: &mut f64,
    max_y: &mut f64,
    z_bottom: &mut f64,
    z_top: &mut f64,
    start: &mut u32,
    count: &mut u32,
    material: &mut u32,
    net: &mut u32,
    polygon: &mut u32,
) -> u32
    ensures { Given (map_answer spec.row_of (answer built)) result (spec.the_row (spec.the_solid_row kind.old min_x.old min_y.old max_x.old max_y.old z_bottom.old z_top.old start.old count.old) material.old net.old polygon.old) (spec.the_row (spec.the_solid_row kind.new min_x.new min_y.new max_x.new max_y.new z_bottom.new z_top.new start.new count.new) material.new net.new polygon.new) }
{
    match built {
        Ok(region) => {
            *material = region.material_id.0;
            *net = region.net;
            *polygon = region.source_polygon.0;
            let solid = region.solid;
            give_solid(
                solid, kind, min_x, min_y, max_x, max_y, z_bottom, z_top, start, count,
            );
            0
        }
        Err(why) => u32::from(why),
    }
}

#[unsafe(no_mangle)]
pub extern "C" fn openrdson_extrude_polygon(
    xs: &[f64],
    ys: &[f64],
    z_bottom: f64,
    z_top: f64,
    material: u32,
    net: u32,
    kind: &mut u8,
    min_x: &mut f64,
    min_y: &mut f64,
    max_x: &mut f64,
    max_y: &mut f64,
    out_z_bottom: &mut f64,
    out_z_top: &mut f64,
    start: &mut u32,
    count: &mut u32,
    out_material: &mut u32,
    out_net: &mut u32,
    polygon: &mut u32,
) -> u32
    ensures { Given (map_answer spec.row_of (extrude_polygon xs.now ys.now z_bottom z_top material net)) result (spec.the_row (spec.the_solid_row kind.old min_x.old min_y.old max_x.old max_y.old out_z_bottom.old out_z_top.old start.old count.old) out_material.old out_net.old polygon.old) (spec.the_row (spec.the_solid_row kind.new min_x.new min_y.new max_x.new max_y.new out_z_bottom.new out_z_top.new start.new count.new) out_material.new out_net.new polygon.new) }
{
    let heights = Heights {
        bottom: z_bottom,
        top: z_top,
    };
    let built = geometry::extrude_polygon(xs, ys, heights, Material(material), net);
    give_region(
        built,
        kind,
        min_x,
        min_y,
        max_x,
        max_y,
        out_z_bottom,
        out_z_top,
        start,
        count,
        out_material,
        out_net,
        polygon,
    )
}

#[unsafe(no_mangle)]
pub extern "C" fn openrdson_extrude_box(
    sides: Bbox,
    z_bottom: f64,
    z_top: f64,
    material: u32,
    net: u32,
    kind: &mut u8,
    min_x: &mut f64,
    min_y: &mut f64,
    max_x: &mut f64,
    max_y: &mut f64,
    out_z_bottom: &mut f64,
    out_z_top: &mut f64,
    start: &mut u32,
    count: &mut u32,
    out_material: &mut u32,
    out_net: &mut u32,
    polygon: &mut u32,
) -> u32
    ensures { Given (map_answer spec.row_of (extrude_box sides z_bottom z_top material net)) result (spec.the_row (spec.the_solid_row kind.old min_x.old min_y.old max_x.old max_y.old out_z_bottom.old out_z_top.old start.old count.old) out_material.old out_net.old polygon.old) (spec.the_row (spec.the_solid_row kind.new min_x.new min_y.new max_x.new max_y.new out_z_bottom.new out_z_top.new start.new count.new) out_material.new out_net.new polygon.new) }
{
    let heights = Heights {
        bottom: z_bottom,
        top: z_top,
    };
    let built = geometry::extrude_box(sides, heights, Material(material), net);
    give_region(
        built,
        kind,
        min_x,
        min_y,
        max_x,
        max_y,
        out_z_bottom,
        out_z_top,
        start,
        count,
        out_material,
        out_net,
        polygon,
    )
}

#[unsafe(no_mangle)]
pub extern "C" fn openrdson_total_volume(
    kinds: &[u8],
    min_x: &[f64],
    min_y: &[f64],
    max_x: &[f64],
    max_y: &[f64],
    z_bottom: &[f64],
    z_top: &[f64],
    starts: &[u32],
    counts: &[u32],
    materials: &[u32],
    nets: &[u32],
    polygons: &[u32],
    xs: &[f64],
    ys: &[f64],
    volume: &mut f64,
) -> u32
    ensures { Given (total_volume (the_regions kinds.now min_x.now min_y.now max_x.now max_y.now z_bottom.now z_top.now starts.now counts.now materials.now nets.now polygons.now) xs.now ys.now) result volume.old volume.new }
{
    let regions = Regions {
        kinds,
        min_x,
        min_y,
        max_x,
        max_y,
        z_bottom,
        z_top,
        starts,
        counts,
        materials,
        nets,
        polygons,
    };
    give(geometry::total_volume(regions, xs, ys), volume)
}

// The calls of meshing on rings.
// C hands each list and number over by itself, and takes each value through its own reference.
ghost use Rattle.std.specs.Prelude.{◌≡◌, length};
ghost use Rattle.meshing.specs.Triangulate.{triangulate_polygon};
ghost use Rattle.c_api.specs.Given.{Given};
ghost use Rattle.openrdson_core.specs.Answers.{answer};
ghost use Rattle.c_api.specs.Polygons.{GivenRing, GivenTriangles, the_numbers};

use crate::answers::give;
use meshing::PolygonCounts;
use openrdson_core::Refusal;

// The points that are left go to the start of the two lists, and their number through the last reference.
#[unsafe(no_mangle)]
pub extern "C" fn openrdson_dedup_ring(
    xs: &[f64],
    ys: &[f64],
    out_x: &mut [f64],
    out_y: &mut [f64],
    points: &mut usize,
) -> u32
    ensures { GivenRing xs.now ys.now out_x.old out_y.old result points.old points.new out_x.new out_y.new }
{
    give(meshing::dedup_ring(xs, ys, out_x, out_y), points)
}

// The numbers of vertices and of triangles.
fn give_counts(
    triangulated: Result<PolygonCounts, Refusal>,
    vertices: &mut usize,
    triangles: &mut usize,
) -> u32
    ensures { Given (answer triangulated) result (the_numbers vertices.old triangles.old) (the_numbers vertices.new triangles.new) }
{
    match triangulated {
        Ok(counts) => {
            *vertices = counts.vertices;
            *triangles = counts.triangles;
            0
        }
        Err(why) => u32::from(why),
    }
}

// The cleaned ring and the corners go to the start of their lists, and their numbers through the last two references.
#[unsafe(no_mangle)]
pub extern "C" fn openrdson_triangulate_polygon(
    xs: &[f64],
    ys: &[f64],
    out_x: &mut [f64],
    out_y: &mut [f64],
    corners: &mut [u32],
    vertices: &mut usize,
    triangles: &mut usize,
) -> u32
    ensures { GivenTriangles (triangulate_polygon xs.now ys.now (length out_x.old) (length out_y.old) (length corners.old)) xs.now ys.now out_x.old out_y.old corners.old result (the_numbers vertices.old triangles.old) (the_numbers vertices.new triangles.new) out_x.new out_y.new corners.new }
{
    let triangulated = meshing::triangulate_polygon(xs, ys, out_x, out_y, corners);
    give_counts(triangulated, vertices, triangles)
}

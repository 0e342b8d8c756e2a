// The calls of meshing on an axis and on a box.
// C hands each list and number over by itself, and takes each value through its own reference.
ghost use Rattle.std.specs.Prelude.{◌≡◌};
ghost use Rattle.openrdson_core.specs.Mesh.{the_counts, the_mesh};
ghost use Rattle.openrdson_core.specs.Answers.{answer};
ghost use Rattle.meshing.specs.Boxes.{mesh_box};
ghost use Rattle.meshing.specs.Cells.{axis_coordinate, cell_count};
ghost use Rattle.c_api.specs.Given.{Given};
ghost use Rattle.c_api.specs.Meshes.{GivenMesh, the_config};

use crate::answers::give;
use meshing::MeshConfig;
use openrdson_core::{Bbox, Counts, Heights, Material, MeshLists, Refusal};

#[unsafe(no_mangle)]
pub extern "C" fn openrdson_cell_count(extent: f64, cell: f64, cells: &mut usize) -> u32
    ensures { Given (cell_count extent cell) result cells.old cells.new }
{
    give(meshing::cell_count(extent, cell), cells)
}

#[unsafe(no_mangle)]
pub extern "C" fn openrdson_axis_coordinate(
    min: f64,
    max: f64,
    cell: f64,
    place: usize,
    coordinate: &mut f64,
) -> u32
    ensures { Given (axis_coordinate min max cell place) result coordinate.old coordinate.new }
{
    give(meshing::axis_coordinate(min, max, cell, place), coordinate)
}

// The numbers of nodes and of elements of the mesh that the call leaves.
pub fn give_grown(meshed: Result<Counts, Refusal>, nodes: &mut usize, elements: &mut usize) -> u32
    ensures { Given (answer meshed) result (the_counts nodes.old elements.old) (the_counts nodes.new elements.new) }
{
    match meshed {
        Ok(counts) => {
            *nodes = counts.nodes;
            *elements = counts.elements;
            0
        }
        Err(why) => u32::from(why),
    }
}

// The two counts are those of the mesh handed in, and after the call those of the mesh with the box.
#[tactic(auto, using(crate::proofs::MeshCalls::given_mesh))]
#[unsafe(no_mangle)]
pub extern "C" fn openrdson_mesh_box(
    bounds: Bbox,
    z_bottom: f64,
    z_top: f64,
    material: u32,
    region: u32,
    lateral_cell: f64,
    z_cell: f64,
    xs: &mut [f64],
    ys: &mut [f64],
    zs: &mut [f64],
    kinds: &mut [u8],
    places: &mut [u32],
    regions: &mut [u32],
    nodes: &mut usize,
    elements: &mut usize,
) -> u32
    ensures { GivenMesh (mesh_box bounds z_bottom z_top material (the_config lateral_cell z_cell) (the_counts nodes.old elements.old) (the_mesh xs.old ys.old zs.old kinds.old places.old regions.old)) result region (the_counts nodes.old elements.old) (the_counts nodes.new elements.new) (the_mesh xs.old ys.old zs.old kinds.old places.old regions.old) (the_mesh xs.new ys.new zs.new kinds.new places.new regions.new) }
{
    let config = MeshConfig {
        lateral_cell,
        z_cell,
    };
    let counts = Counts {
        nodes: *nodes,
        elements: *elements,
    };
    let heights = Heights {
        bottom: z_bottom,
        top: z_top,
    };
    let mut lists = MeshLists {
        xs,
        ys,
        zs,
        kinds,
        places,
        regions,
    };
    let material = Material(material);
    let meshed = meshing::mesh_box(
        bounds, heights, material, region, config, counts, &mut lists,
    );
    give_grown(meshed, nodes, elements)
}

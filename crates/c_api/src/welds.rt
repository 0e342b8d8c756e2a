// The calls of meshing on a mesh whose lists hold it and nothing past it. The welded mesh goes to the start of lists of its
// own, and its counts through references.
// C hands each list and number over by itself, and takes each value through its own reference.
ghost use Rattle.std.specs.Prelude.{◌≡◌};
ghost use Rattle.openrdson_core.specs.Mesh.{the_counts, the_mesh};
ghost use Rattle.meshing.specs.Volumes.{mesh_volume};
ghost use Rattle.meshing.specs.Welds.{weld_nodes};
ghost use Rattle.c_api.specs.Given.{Given};
ghost use Rattle.c_api.specs.Meshes.{GivenWelded};

use crate::answers::give;
use crate::boxes::give_grown;
use openrdson_core::{Mesh, MeshLists};

#[tactic(auto, using(crate::proofs::MeshCalls::given_welded))]
#[unsafe(no_mangle)]
pub extern "C" fn openrdson_weld_nodes(
    xs: &[f64],
    ys: &[f64],
    zs: &[f64],
    kinds: &[u8],
    places: &[u32],
    regions: &[u32],
    tolerance: f64,
    out_x: &mut [f64],
    out_y: &mut [f64],
    out_z: &mut [f64],
    out_kinds: &mut [u8],
    out_places: &mut [u32],
    out_regions: &mut [u32],
    nodes: &mut usize,
    elements: &mut usize,
) -> u32
    ensures { GivenWelded (weld_nodes (the_mesh xs.now ys.now zs.now kinds.now places.now regions.now) tolerance (the_mesh out_x.old out_y.old out_z.old out_kinds.old out_places.old out_regions.old)) result (the_counts nodes.old elements.old) (the_counts nodes.new elements.new) (the_mesh out_x.old out_y.old out_z.old out_kinds.old out_places.old out_regions.old) (the_mesh out_x.new out_y.new out_z.new out_kinds.new out_places.new out_regions.new) }
{
    let mesh = Mesh {
        xs,
        ys,
        zs,
        kinds,
        places,
        regions,
    };
    let mut out = MeshLists {
        xs: out_x,
        ys: out_y,
        zs: out_z,
        kinds: out_kinds,
        places: out_places,
        regions: out_regions,
    };
    let welded = meshing::weld_nodes(mesh, tolerance, &mut out);
    give_grown(welded, nodes, elements)
}

#[unsafe(no_mangle)]
pub extern "C" fn openrdson_mesh_volume(
    xs: &[f64],
    ys: &[f64],
    zs: &[f64],
    kinds: &[u8],
    places: &[u32],
    regions: &[u32],
    volume: &mut f64,
) -> u32
    ensures { Given (mesh_volume (the_mesh xs.now ys.now zs.now kinds.now places.now regions.now)) result volume.old volume.new }
{
    let mesh = Mesh {
        xs,
        ys,
        zs,
        kinds,
        places,
        regions,
    };
    give(meshing::mesh_volume(mesh), volume)
}

// The calls of meshing on a model. The two counts are those of the mesh handed in, and after the call those of the mesh with the model.
// C hands each list and number over by itself, and takes each value through its own reference.
ghost use Rattle.std.specs.Prelude.{◌≡◌, length};
ghost use Rattle.openrdson_core.specs.Mesh.{the_counts, the_mesh};
ghost use Rattle.geometry.specs.Regions.{the_regions};
ghost use Rattle.meshing.specs.Models.{mesh_model, the_overrides, no_overrides};
ghost use Rattle.c_api.specs.Meshes.{GivenModel, the_config};

use crate::boxes::give_grown;
use geometry::Regions;
use meshing::{MeshConfig, Overrides};
use openrdson_core::{Counts, MeshLists};

// The three lists of the overrides are `materials`, `laterals` and `verticals`.
#[tactic(auto, using(crate::proofs::MeshCalls::given_model))]
#[unsafe(no_mangle)]
pub extern "C" fn openrdson_mesh_model_with_options(
    row_kinds: &[u8],
    min_x: &[f64],
    min_y: &[f64],
    max_x: &[f64],
    max_y: &[f64],
    z_bottom: &[f64],
    z_top: &[f64],
    starts: &[u32],
    row_counts: &[u32],
    row_materials: &[u32],
    nets: &[u32],
    polygons: &[u32],
    point_x: &[f64],
    point_y: &[f64],
    materials: &[u32],
    laterals: &[f64],
    verticals: &[f64],
    lateral_cell: f64,
    z_cell: f64,
    xs: &mut [f64],
    ys: &mut [f64],
    zs: &mut [f64],
    kinds: &mut [u8],
    places: &mut [u32],
    regions: &mut [u32],
    diagnostics: &mut [u32],
    nodes: &mut usize,
    elements: &mut usize,
) -> u32
    ensures { GivenModel (mesh_model (the_regions row_kinds.now min_x.now min_y.now max_x.now max_y.now z_bottom.now z_top.now starts.now row_counts.now row_materials.now nets.now polygons.now) point_x.now point_y.now (the_overrides materials.now laterals.now verticals.now) (the_config lateral_cell z_cell) (the_counts nodes.old elements.old) (the_mesh xs.old ys.old zs.old kinds.old places.old regions.old) (length diagnostics.old)) result (the_counts nodes.old elements.old) (the_counts nodes.new elements.new) (the_mesh xs.old ys.old zs.old kinds.old places.old regions.old) (the_mesh xs.new ys.new zs.new kinds.new places.new regions.new) diagnostics.old diagnostics.new }
{
    let config = MeshConfig {
        lateral_cell,
        z_cell,
    };
    let counts = Counts {
        nodes: *nodes,
        elements: *elements,
    };
    let rows = Regions {
        kinds: row_kinds,
        min_x,
        min_y,
        max_x,
        max_y,
        z_bottom,
        z_top,
        starts,
        counts: row_counts,
        materials: row_materials,
        nets,
        polygons,
    };
    let overrides = Overrides {
        materials,
        laterals,
        verticals,
    };
    let mut lists = MeshLists {
        xs,
        ys,
        zs,
        kinds,
        places,
        regions,
    };
    let meshed = meshing::mesh_model_with_options(
        rows,
        point_x,
        point_y,
        overrides,
        config,
        counts,
        &mut lists,
        diagnostics,
    );
    give_grown(meshed, nodes, elements)
}

#[tactic(auto, using(crate::proofs::MeshCalls::given_model))]
#[unsafe(no_mangle)]
pub extern "C" fn openrdson_mesh_model(
    row_kinds: &[u8],
    min_x: &[f64],
    min_y: &[f64],
    max_x: &[f64],
    max_y: &[f64],
    z_bottom: &[f64],
    z_top: &[f64],
    starts: &[u32],
    row_counts: &[u32],
    row_materials: &[u32],
    nets: &[u32],
    polygons: &[u32],
    point_x: &[f64],
    point_y: &[f64],
    lateral_cell: f64,
    z_cell: f64,
    xs: &mut [f64],
    ys: &mut [f64],
    zs: &mut [f64],
    kinds: &mut [u8],
    places: &mut [u32],
    regions: &mut [u32],
    diagnostics: &mut [u32],
    nodes: &mut usize,
    elements: &mut usize,
) -> u32
    ensures { GivenModel (mesh_model (the_regions row_kinds.now min_x.now min_y.now max_x.now max_y.now z_bottom.now z_top.now starts.now row_counts.now row_materials.now nets.now polygons.now) point_x.now point_y.now no_overrides (the_config lateral_cell z_cell) (the_counts nodes.old elements.old) (the_mesh xs.old ys.old zs.old kinds.old places.old regions.old) (length diagnostics.old)) result (the_counts nodes.old elements.old) (the_counts nodes.new elements.new) (the_mesh xs.old ys.old zs.old kinds.old places.old regions.old) (the_mesh xs.new ys.new zs.new kinds.new places.new regions.new) diagnostics.old diagnostics.new }
{
    let config = MeshConfig {
        lateral_cell,
        z_cell,
    };
    let counts = Counts {
        nodes: *nodes,
        elements: *elements,
    };
    let rows = Regions {
        kinds: row_kinds,
        min_x,
        min_y,
        max_x,
        max_y,
        z_bottom,
        z_top,
        starts,
        counts: row_counts,
        materials: row_materials,
        nets,
        polygons,
    };
    let mut lists = MeshLists {
        xs,
        ys,
        zs,
        kinds,
        places,
        regions,
    };
    let meshed = meshing::mesh_model(
        rows,
        point_x,
        point_y,
        config,
        counts,
        &mut lists,
        diagnostics,
    );
    give_grown(meshed, nodes, elements)
}

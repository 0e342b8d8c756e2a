// The calls of meshing on a prism and on a region. The two counts are those of the mesh handed in, and after the call
// those of the mesh with the region.
// C hands each list and number over by itself, and takes each value through its own reference.
ghost use Rattle.std.specs.Prelude.{◌≡◌};
ghost use Rattle.openrdson_core.specs.Mesh.{the_counts, the_mesh};
ghost use Rattle.openrdson_core.specs.declared.solids.Solid.TheVariants.{Box, Prism};
ghost use Rattle.meshing.specs.Prisms.{mesh_prism};
ghost use Rattle.meshing.specs.Regions.{mesh_region};
ghost use Rattle.c_api.specs.Meshes.{GivenMesh, the_config};

use crate::boxes::give_grown;
use meshing::MeshConfig;
use openrdson_core::{
    Bbox, Counts, Heights, Material, MeshLists, PolygonNumber, Solid, SolidRegion,
};

#[tactic(auto, using(crate::proofs::MeshCalls::given_mesh))]
#[unsafe(no_mangle)]
pub extern "C" fn openrdson_mesh_prism(
    point_x: &[f64],
    point_y: &[f64],
    z_bottom: f64,
    z_top: f64,
    start: u32,
    count: u32,
    material: u32,
    region: u32,
    xs: &mut [f64],
    ys: &mut [f64],
    zs: &mut [f64],
    kinds: &mut [u8],
    places: &mut [u32],
    regions: &mut [u32],
    nodes: &mut usize,
    elements: &mut usize,
) -> u32
    ensures { GivenMesh (mesh_prism z_bottom z_top start count material (the_counts nodes.old elements.old) point_x.now point_y.now (the_mesh xs.old ys.old zs.old kinds.old places.old regions.old)) result region (the_counts nodes.old elements.old) (the_counts nodes.new elements.new) (the_mesh xs.old ys.old zs.old kinds.old places.old regions.old) (the_mesh xs.new ys.new zs.new kinds.new places.new regions.new) }
{
    let counts = Counts {
        nodes: *nodes,
        elements: *elements,
    };
    let heights = Heights {
        bottom: z_bottom,
        top: z_top,
    };
    let mut lists = MeshLists {
        xs,
        ys,
        zs,
        kinds,
        places,
        regions,
    };
    let material = Material(material);
    let meshed = meshing::mesh_prism(
        point_x, point_y, heights, start, count, material, region, counts, &mut lists,
    );
    give_grown(meshed, nodes, elements)
}

// `mesh_region` on a region that is a box; its net and its polygon are not looked at.
#[tactic(auto, using(crate::proofs::MeshCalls::given_mesh))]
#[unsafe(no_mangle)]
pub extern "C" fn openrdson_mesh_box_region(
    bounds: Bbox,
    z_bottom: f64,
    z_top: f64,
    material: u32,
    net: u32,
    polygon: u32,
    point_x: &[f64],
    point_y: &[f64],
    number: u32,
    lateral_cell: f64,
    z_cell: f64,
    xs: &mut [f64],
    ys: &mut [f64],
    zs: &mut [f64],
    kinds: &mut [u8],
    places: &mut [u32],
    regions: &mut [u32],
    nodes: &mut usize,
    elements: &mut usize,
) -> u32
    ensures { GivenMesh (mesh_region (Box bounds.min_x bounds.min_y bounds.max_x bounds.max_y z_bottom z_top) material (the_config lateral_cell z_cell) (the_counts nodes.old elements.old) point_x.now point_y.now (the_mesh xs.old ys.old zs.old kinds.old places.old regions.old)) result number (the_counts nodes.old elements.old) (the_counts nodes.new elements.new) (the_mesh xs.old ys.old zs.old kinds.old places.old regions.old) (the_mesh xs.new ys.new zs.new kinds.new places.new regions.new) }
{
    let region = SolidRegion {
        material_id: Material(material),
        net,
        source_polygon: PolygonNumber(polygon),
        solid: Solid::Box {
            min_x: bounds.min_x,
            min_y: bounds.min_y,
            max_x: bounds.max_x,
            max_y: bounds.max_y,
            z_bottom,
            z_top,
        },
    };
    let config = MeshConfig {
        lateral_cell,
        z_cell,
    };
    let counts = Counts {
        nodes: *nodes,
        elements: *elements,
    };
    let mut lists = MeshLists {
        xs,
        ys,
        zs,
        kinds,
        places,
        regions,
    };
    let meshed = meshing::mesh_region(region, point_x, point_y, number, config, counts, &mut lists);
    give_grown(meshed, nodes, elements)
}

// `mesh_region` on a region that is a prism; its net and its polygon are not looked at.
#[tactic(auto, using(crate::proofs::MeshCalls::given_mesh))]
#[unsafe(no_mangle)]
pub extern "C" fn openrdson_mesh_prism_region(
    z_bottom: f64,
    z_top: f64,
    start: u32,
    count: u32,
    material: u32,
    net: u32,
    polygon: u32,
    point_x: &[f64],
    point_y: &[f64],
    number: u32,
    lateral_cell: f64,
    z_cell: f64,
    xs: &mut [f64],
    ys: &mut [f64],
    zs: &mut [f64],
    kinds: &mut [u8],
    places: &mut [u32],
    regions: &mut [u32],
    nodes: &mut usize,
    elements: &mut usize,
) -> u32
    ensures { GivenMesh (mesh_region (Prism z_bottom z_top start count) material (the_config lateral_cell z_cell) (the_counts nodes.old elements.old) point_x.now point_y.now (the_mesh xs.old ys.old zs.old kinds.old places.old regions.old)) result number (the_counts nodes.old elements.old) (the_counts nodes.new elements.new) (the_mesh xs.old ys.old zs.old kinds.old places.old regions.old) (the_mesh xs.new ys.new zs.new kinds.new places.new regions.new) }
{
    let region = SolidRegion {
        material_id: Material(material),
        net,
        source_polygon: PolygonNumber(polygon),
        solid: Solid::Prism {
            z_bottom,
            z_top,
            start,
            count,
        },
    };
    let config = MeshConfig {
        lateral_cell,
        z_cell,
    };
    let counts = Counts {
        nodes: *nodes,
        elements: *elements,
    };
    let mut lists = MeshLists {
        xs,
        ys,
        zs,
        kinds,
        places,
        regions,
    };
    let meshed = meshing::mesh_region(region, point_x, point_y, number, config, counts, &mut lists);
    give_grown(meshed, nodes, elements)
}

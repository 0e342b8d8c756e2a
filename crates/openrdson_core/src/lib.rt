// Points, bounding boxes, areas, the rectangle test and solids (the original's geometry.rs), the kinds of elements and the counts of a mesh (mesh.rs), name
// blocks and the lookups in them (tech.rs, layout.rs). The numbers at the end of a function's comment are its refusals (refusals.rt), in the order in which
// they are tried.
#![tactic(auto)]

mod area;
mod blocks;
mod bounds;
mod bytes;
mod layout;
mod maps;
mod mesh;
mod points;
mod rectangle;
mod refusals;
mod ring;
mod solids;
mod tech;

pub use area::{cross_of, is_ccw, polygon_area, polygon_signed_area};
pub use blocks::rows;
pub use bounds::Bbox;
pub use bytes::is_same;
pub use layout::{LayerNames, is_marker, layer_name};
pub use maps::{LayerMap, NamePlace, Span, look_up, name_place, physical_name};
pub use mesh::{
    Counts, Element, ElementType, Mesh, MeshLists, NodeNumber, Point3, UNUSED, UnknownKind,
    counts_within, has_room, lists_parallel, node_count_of, used_places,
};
pub use points::{Point, Points, ring_check, ring_size};
pub use rectangle::is_axis_aligned_rectangle;
pub use refusals::Refusal;
pub use ring::{Ring, SoundRing, next_place};
pub use solids::{Footprint, Heights, Material, PolygonNumber, Solid, SolidRegion};
pub use tech::{
    Blocks, Figures, SoundBlocks, Stack, ViaLayers, Vias, check_blocks, find_material,
    material_number, stack_layer, via_layers,
};

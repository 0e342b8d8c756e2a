// Triangulating rings, meshing regions and models, welding a mesh, and its volume (the original's meshing/src/lib.rs). The numbers at the end of a function's
// comment are its refusals (openrdson_core's refusals.rt), in the order in which they are tried.
#![tactic(auto)]

mod boxes;
mod cells;
mod crossings;
mod ears;
mod grid;
mod levels;
mod model;
mod prism;
mod quads;
mod rectilinear;
mod region;
mod ring;
mod scanline;
mod triangulate;
mod volume;
mod weld;
mod whole;
mod writes;

pub use boxes::mesh_box;
pub use cells::{MeshConfig, axis_coordinate, cell_count};
pub use model::{Overrides, mesh_model, mesh_model_with_options};
pub use prism::mesh_prism;
pub use region::mesh_region;
pub use ring::dedup_ring;
pub use triangulate::{PolygonCounts, triangulate_polygon};
pub use volume::mesh_volume;
pub use weld::weld_nodes;

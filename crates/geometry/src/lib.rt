// Extruding polygons into boxes and prisms, stacking a layout, the region list, and its volume (the original's geometry crate). The numbers at the end of a
// function's comment are its refusals (openrdson_core's refusals.rt), in the order in which they are tried.
#![tactic(auto)]

mod extrude;
mod plans;
mod polygons;
mod ranges;
mod regions;
mod rows;
mod stack;
mod table;
mod volume;

pub use extrude::{extrude_box, extrude_polygon, extrude_ring};
pub use polygons::{Polygons, SoundPolygons};
pub use regions::{
    EvenRegions, LARGEST_MATERIAL, NO_POLYGON, Part, RegionLists, Regions, RowKind, all_equal,
};
pub use rows::Columns;
pub use stack::assemble_stack;
pub use volume::total_volume;

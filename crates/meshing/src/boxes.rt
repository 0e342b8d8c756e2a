// Meshing a box region: structured hexes.
ghost use Rattle.std.specs.Prelude.{◌≡◌, Ok};
ghost use Rattle.lists.specs.Answer.{given, map_answer};
ghost use Rattle.openrdson_core.specs.Answers.{answer};
ghost use Rattle.openrdson_core.specs.Mesh.{held, Same};
ghost use Rattle.meshing.specs.Added.{Adds};
ghost use Rattle.meshing.specs.Boxes as spec;

use crate::cells::{Axis, Cells, MeshConfig, cells_for};
use crate::grid::{write_hexes, write_nodes};
use crate::writes::fill;
use geometry::LARGEST_MATERIAL;
use openrdson_core::{
    Bbox, Counts, ElementType, Heights, Material, MeshLists, Point3, Refusal, has_room,
};

// Whether a box is meshed: 16; 15 for counts, then for its material; 1 for its bounds; then as `cells_check`.
#[tactic(auto, unfolding(crate::specs::Boxes::box_judged))]
fn box_check(
    bounds: Bbox,
    heights: Heights,
    material: Material,
    config: MeshConfig,
    counts: Counts,
    lists: &MeshLists<'_>,
) -> Result<Cells, Refusal>
    ensures { map_answer spec.box_cells (answer result) ≡ spec.judged bounds heights.bottom heights.top material.0 config counts (held lists.now) }
{
    if !lists.is_parallel() {
        return Err(Refusal::UnequalLists);
    }
    if !lists.holds(counts) {
        return Err(Refusal::OutsideList);
    }
    if material.0 > LARGEST_MATERIAL {
        return Err(Refusal::OutsideList);
    }
    if !(bounds.is_in_range() & heights.is_in_range()) {
        return Err(Refusal::NumberOutOfRange);
    }
    let size = Point3::new(
        bounds.max_x - bounds.min_x,
        bounds.max_y - bounds.min_y,
        heights.top - heights.bottom,
    );
    cells_check(size, config, counts, lists.xs.len(), lists.kinds.len())
}

// Of a box of this size: 5; 1 for cell sizes; 6; 7; then as `room_check`.
#[tactic(auto, using(crate::proofs::BoxLaws::all_few), unfolding(crate::specs::Boxes::cells_judged))]
fn cells_check(
    size: Point3,
    config: MeshConfig,
    counts: Counts,
    nodes: usize,
    kinds: usize,
) -> Result<Cells, Refusal>
    ensures { map_answer spec.box_cells (answer result) ≡ spec.cells_judged size.x size.y size.z config counts nodes kinds }
{
    if !((size.x > 0.0) & (size.y > 0.0) & (size.z > 0.0)) {
        return Err(Refusal::DegenerateBox);
    }
    let across = config.lateral_cell;
    let up = config.z_cell;
    if !(binary64::coordinate_in_range(across) & binary64::coordinate_in_range(up)) {
        return Err(Refusal::NumberOutOfRange);
    }
    if !((across > 0.0) & (up > 0.0)) {
        return Err(Refusal::CellSizeNotPositive);
    }
    let nx = cells_for(size.x, across);
    let ny = cells_for(size.y, across);
    let nz = cells_for(size.z, up);
    if !((nx <= 4096) & (ny <= 4096) & (nz <= 4096)) {
        return Err(Refusal::TooManyCells);
    }
    room_check(Cells { nx, ny, nz }, counts, nodes, kinds)
}

// Of a box with so many cells: 12 for its nodes, then for its elements.
#[tactic(auto, unfolding(crate::specs::Boxes::room_judged))]
fn room_check(cells: Cells, counts: Counts, nodes: usize, kinds: usize) -> Result<Cells, Refusal>
    ensures { map_answer spec.box_cells (answer result) ≡ spec.room_judged (spec.box_cells cells) counts nodes kinds }
{
    if !has_room(cells.nodes(), counts.nodes, nodes) {
        return Err(Refusal::OutputTooShort);
    }
    if !has_room(cells.elements(), counts.elements, kinds) {
        return Err(Refusal::OutputTooShort);
    }
    Ok(cells)
}

// Writes a box that has been judged, and gives the new counts.
fn write_box(
    bounds: Bbox,
    heights: Heights,
    region: u32,
    counts: Counts,
    cells: Cells,
    lists: &mut MeshLists<'_>,
) -> Counts
    requires { spec.Fits counts (held lists.old) (spec.box_cells cells) }
    ensures mesh { Adds (given (spec.box_of_cells counts.nodes bounds heights.bottom heights.top (spec.box_cells cells))) counts region (held lists.old) (held lists.new) (Ok result) }
    ensures same { Same lists.old lists.new }
{
    let x = Axis::new(bounds.min_x, bounds.max_x, cells.nx);
    let y = Axis::new(bounds.min_y, bounds.max_y, cells.ny);
    let z = Axis::new(heights.bottom, heights.top, cells.nz);
    let elements = cells.elements();
    write_nodes(lists, counts.nodes, x, y, z);
    let hex = u8::from(ElementType::Hex);
    fill(lists.kinds, counts.elements, elements, hex);
    write_hexes(lists.places, 8 * counts.elements, counts.nodes, cells);
    fill(lists.regions, counts.elements, elements, region);
    Counts {
        nodes: counts.nodes + cells.nodes(),
        elements: counts.elements + elements,
    }
}

// Meshes a box region: its hexes are appended after the nodes and elements counted, with the region's number; 16, 15, 1, 5, 1, 6, 7, 12.
pub fn mesh_box(
    bounds: Bbox,
    heights: Heights,
    material: Material,
    region: u32,
    config: MeshConfig,
    counts: Counts,
    lists: &mut MeshLists<'_>,
) -> Result<Counts, Refusal>
    ensures mesh { Adds (spec.mesh_box bounds heights.bottom heights.top material.0 config counts (held lists.old)) counts region (held lists.old) (held lists.new) result }
    ensures same { Same lists.old lists.new }
{
    let cells = box_check(bounds, heights, material, config, counts, lists)?;
    Ok(write_box(bounds, heights, region, counts, cells, lists))
}

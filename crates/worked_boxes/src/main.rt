// Cells, coordinates, the default cell sizes, and the box 0..2 by 0..1 by 0..1 in cells of 1.
#![tactic(auto, unfolding(worked_meshed::proofs::OnRegions::on_boxes))]

use check::expect;
use meshing::{MeshConfig, axis_coordinate, cell_count, mesh_box};
use openrdson_core::{Bbox, Material, Refusal};
use worked::heights_of;
use worked_meshed::{EMPTY, UNIT_CELLS, counts_of, nines};

fn cells() {
    expect(cell_count(2.0, 1.0) == Ok(2));
    expect(cell_count(0.5, 1.0) == Ok(1));
    expect(cell_count(4097.0, 1.0) == Err(Refusal::TooManyCells));
    expect(cell_count(0.0, 0.0) == Err(Refusal::DegenerateBox));
    expect(axis_coordinate(0.0, 2.0, 1.0, 1) == Ok(1.0));
    expect(axis_coordinate(0.0, 2.0, 1.0, 3) == Err(Refusal::OutsideList));
}

fn hexes() {
    let bounds = Bbox {
        min_x: 0.0,
        min_y: 0.0,
        max_x: 2.0,
        max_y: 1.0,
    };
    let mut lists = nines!(12, 2, 16);
    let meshed = mesh_box(
        bounds,
        heights_of(0.0, 1.0),
        Material(1),
        7,
        UNIT_CELLS,
        EMPTY,
        &mut lists,
    );
    expect(meshed == Ok(counts_of(12, 2)));
    expect((lists.xs[1] == 1.0) & (lists.xs[2] == 2.0) & (lists.xs[3] == 0.0));
    expect((lists.places[2] == 4) & (lists.places[3] == 3) & (lists.places[8] == 1));
    expect((lists.kinds[1] == 1) & (lists.regions[1] == 7));
}

// The default is 1e-6 across and 0.1e-6 in height.
fn default_sizes() {
    let config = MeshConfig::default();
    expect(config.lateral_cell == 1e-6);
    expect(config.z_cell == 0.1e-6);
}

fn main() {
    cells();
    default_sizes();
    hexes();
}

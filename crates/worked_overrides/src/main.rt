// Models with overrides: cell sizes by material. Each function is a call on a
// shape and what it gives. They do not share a function with the shape as its parameter: that is proved only if the lists are lent one by one, and is longer.
#![tactic(auto, unfolding(worked_meshed::proofs::OnModels::on_models))]

use check::expect;
use geometry::{NO_POLYGON, Regions};
use meshing::{MeshConfig, Overrides, mesh_model_with_options};
use openrdson_core::Refusal;
use worked_meshed::{EMPTY, counts_of, nines};

// The default, cells of 4: each box below is one such cell.
const CELLS: MeshConfig = MeshConfig {
    lateral_cell: 4.0,
    z_cell: 4.0,
};

// Two overrides name the material of a box: the later one, of cells of 1, wins. The third names another material, and its sizes are not looked at.
fn overrides() {
    let row = Regions {
        kinds: &[0],
        min_x: &[0.0],
        min_y: &[0.0],
        max_x: &[2.0],
        max_y: &[1.0],
        z_bottom: &[0.0],
        z_top: &[1.0],
        starts: &[0],
        counts: &[0],
        materials: &[3],
        nets: &[0],
        polygons: &[NO_POLYGON],
    };
    let sizes = Overrides {
        materials: &[3, 3, 5],
        laterals: &[2.0, 1.0, 0.0],
        verticals: &[2.0, 1.0, -1.0],
    };
    let mut lists = nines!(12, 2, 16);
    let mut diagnostics = [9; 1];
    let later = mesh_model_with_options(
        row,
        &[],
        &[],
        sizes,
        CELLS,
        EMPTY,
        &mut lists,
        &mut diagnostics,
    );
    expect(later == Ok(counts_of(12, 2)));
    expect(diagnostics[0] == 0);
    expect(lists.xs[1] == 1.0);
}

// An override for the material 0, which is none: the job is refused.
fn unnamed_override() {
    let row = Regions {
        kinds: &[0],
        min_x: &[0.0],
        min_y: &[0.0],
        max_x: &[1.0],
        max_y: &[1.0],
        z_bottom: &[0.0],
        z_top: &[1.0],
        starts: &[0],
        counts: &[0],
        materials: &[1],
        nets: &[0],
        polygons: &[NO_POLYGON],
    };
    let sizes = Overrides {
        materials: &[0],
        laterals: &[1.0],
        verticals: &[1.0],
    };
    let mut lists = nines!(8, 1, 8);
    let mut diagnostics = [9; 1];
    let unnamed = mesh_model_with_options(
        row,
        &[],
        &[],
        sizes,
        CELLS,
        EMPTY,
        &mut lists,
        &mut diagnostics,
    );
    expect(unnamed == Err(Refusal::OutsideList));
    expect(diagnostics[0] == 9);
}

fn main() {
    overrides();
    unnamed_override();
}

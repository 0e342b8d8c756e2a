// Models: refused regions amid others, and a job with too few diagnostics. Each function is a call on a
// shape and what it gives. They do not share a function with the shape as its parameter: that is proved only if the lists are lent one by one, and is longer.
#![tactic(auto, unfolding(worked_meshed::proofs::OnModels::on_models))]

use check::expect;
use geometry::{NO_POLYGON, Regions};
use meshing::mesh_model;
use openrdson_core::Refusal;
use worked_meshed::{EMPTY, UNIT_CELLS, counts_of, nines};

// A box; a row of no known kind, refused with 15; a box of two cells, for which there is no room, refused with 12; a box, whose hex carries region 3.
fn refused_amid() {
    let rows = Regions {
        kinds: &[0, 7, 0, 0],
        min_x: &[0.0, 0.0, 0.0, 2.0],
        min_y: &[0.0; 4],
        max_x: &[1.0, 1.0, 2.0, 3.0],
        max_y: &[1.0; 4],
        z_bottom: &[0.0; 4],
        z_top: &[1.0; 4],
        starts: &[0; 4],
        counts: &[0; 4],
        materials: &[1; 4],
        nets: &[0; 4],
        polygons: &[NO_POLYGON; 4],
    };
    let mut lists = nines!(16, 2, 16);
    let mut diagnostics = [9; 5];
    let amid = mesh_model(
        rows,
        &[],
        &[],
        UNIT_CELLS,
        EMPTY,
        &mut lists,
        &mut diagnostics,
    );
    expect(amid == Ok(counts_of(16, 2)));
    expect((diagnostics[0] == 0) & (diagnostics[1] == 15));
    expect((diagnostics[2] == 12) & (diagnostics[3] == 0));
    expect(diagnostics[4] == 9);
    expect((lists.regions[0] == 0) & (lists.regions[1] == 3));
    expect((lists.places[2] == 3) & (lists.places[8] == 8) & (lists.places[10] == 11));
}

// Two regions and one diagnostic: the job is refused, and nothing is written.
fn short_diagnostics() {
    let rows = Regions {
        kinds: &[0; 2],
        min_x: &[0.0; 2],
        min_y: &[0.0; 2],
        max_x: &[1.0; 2],
        max_y: &[1.0; 2],
        z_bottom: &[0.0; 2],
        z_top: &[1.0; 2],
        starts: &[0; 2],
        counts: &[0; 2],
        materials: &[1; 2],
        nets: &[0; 2],
        polygons: &[NO_POLYGON; 2],
    };
    let mut lists = nines!(16, 2, 16);
    let mut diagnostics = [9; 1];
    let short = mesh_model(
        rows,
        &[],
        &[],
        UNIT_CELLS,
        EMPTY,
        &mut lists,
        &mut diagnostics,
    );
    expect(short == Err(Refusal::OutputTooShort));
    expect((lists.xs[0] == 9.0) & (diagnostics[0] == 9));
}

fn main() {
    refused_amid();
    short_diagnostics();
}

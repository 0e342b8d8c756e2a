// Welding and volumes: nodes that are joined, halves, a tet, a prism, and meshes that are refused. Each function is a call on a
// shape and what it gives. They do not share a function with the shape as its parameter: that is proved only if the lists are lent one by one, and is longer.
#![tactic(auto, unfolding(worked_meshed::proofs::OnWhole::on_volumes, worked_meshed::proofs::OnWhole::on_welds))]

use check::expect;
use meshing::{mesh_volume, weld_nodes};
use openrdson_core::{Mesh, Refusal, UNUSED};
use worked_meshed::{counts_of, nines};

// With a tolerance of 1, -0.4 and 0.4 become one node, the first, and 0.6 stays. The tet's node places are renumbered, those that it does not use stay, and
// entries past the mesh are kept.
fn joined() {
    let mut out = nines!(3, 1, 8);
    let mesh = Mesh {
        xs: &[-0.4, 0.4, 0.6],
        ys: &[0.0; 3],
        zs: &[0.0; 3],
        kinds: &[0],
        places: &[0, 1, 2, 1, UNUSED, UNUSED, UNUSED, UNUSED],
        regions: &[7],
    };
    let welded = weld_nodes(mesh, 1.0, &mut out);
    expect(welded == Ok(counts_of(2, 1)));
    expect((out.xs[0] == -0.4) & (out.xs[1] == 0.6) & (out.xs[2] == 9.0));
    expect((out.places[1] == 0) & (out.places[2] == 1) & (out.places[3] == 0));
    expect(out.places[4] == UNUSED);
    expect((out.kinds[0] == 0) & (out.regions[0] == 7));
}

// Halves go away from zero: 0.5 and 1.5 stay two nodes, and so do 1.5 and 2.5.
fn halves() {
    let mut out = nines!(3, 0, 0);
    let mesh = Mesh {
        xs: &[0.5, 1.5, 2.5],
        ys: &[0.0; 3],
        zs: &[0.0; 3],
        kinds: &[],
        places: &[],
        regions: &[],
    };
    let welded = weld_nodes(mesh, 1.0, &mut out);
    expect(welded == Ok(counts_of(3, 0)));
}

// Two nodes of two keys have no room in lists of one: nothing is written.
fn no_room() {
    let mut out = nines!(1, 0, 0);
    let mesh = Mesh {
        xs: &[0.0, 4.0],
        ys: &[0.0; 2],
        zs: &[0.0; 2],
        kinds: &[],
        places: &[],
        regions: &[],
    };
    let welded = weld_nodes(mesh, 1.0, &mut out);
    expect(welded == Err(Refusal::OutputTooShort));
    expect(out.xs[0] == 9.0);
}

// A tet's volume is that of its bounding box, 1 by 2 by 3.
fn tet() {
    let tet = Mesh {
        xs: &[0.0, 1.0, 0.0, 0.0],
        ys: &[0.0, 0.0, 2.0, 0.0],
        zs: &[0.0, 0.0, 0.0, 3.0],
        kinds: &[0],
        places: &[0, 1, 2, 3, UNUSED, UNUSED, UNUSED, UNUSED],
        regions: &[0],
    };
    expect(mesh_volume(tet) == Ok(6.0));
}

// A prism on a triangle of 3 by 4, 2 high.
fn prism() {
    let prism = Mesh {
        xs: &[0.0, 3.0, 0.0, 0.0, 3.0, 0.0],
        ys: &[0.0, 0.0, 4.0, 0.0, 0.0, 4.0],
        zs: &[0.0, 0.0, 0.0, 2.0, 2.0, 2.0],
        kinds: &[2],
        places: &[0, 1, 2, 3, 4, 5, UNUSED, UNUSED],
        regions: &[0],
    };
    expect(mesh_volume(prism) == Ok(12.0));
}

// The first element names a node that is not there, and the second is of no kind: 15 comes before 13.
fn damaged() {
    let outside = Mesh {
        xs: &[0.0],
        ys: &[0.0],
        zs: &[0.0],
        kinds: &[0, 0],
        places: &[
            0, 0, 0, 1, UNUSED, UNUSED, UNUSED, UNUSED, 0, 0, 0, 0, UNUSED, UNUSED, UNUSED, UNUSED,
        ],
        regions: &[0, 0],
    };
    let unknown = Mesh {
        kinds: &[0, 4],
        ..outside
    };
    expect(mesh_volume(unknown) == Err(Refusal::OutsideList));
    expect(mesh_volume(outside) == Err(Refusal::NodeOutsideMesh));
}

fn main() {
    joined();
    halves();
    no_room();
    tet();
    prism();
    damaged();
}

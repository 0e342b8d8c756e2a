// Prisms: an L, two edges that cross at one place, plates about 1e-30 in area, and regions. Each function is a call on a
// shape and what it gives. They do not share a function with the shape as its parameter: that is proved only if the lists are lent one by one, and is longer.
#![tactic(auto, unfolding(worked_meshed::proofs::OnPrisms::on_regions))]

use check::expect;
use meshing::{mesh_prism, mesh_region};
use openrdson_core::{Heights, Material, PolygonNumber, Refusal, Solid, SolidRegion};
use worked_meshed::{EMPTY, UNIT_CELLS, counts_of, nines};

// From 0 to 1.
const HEIGHTS: Heights = Heights {
    bottom: 0.0,
    top: 1.0,
};

// A box of 1 by 1 by 1.
const CUBE: SolidRegion = SolidRegion {
    material_id: Material(1),
    net: 0,
    source_polygon: PolygonNumber(0),
    solid: Solid::Box {
        min_x: 0.0,
        min_y: 0.0,
        max_x: 1.0,
        max_y: 1.0,
        z_bottom: 0.0,
        z_top: 1.0,
    },
};

// The L (0,0), (2,0), (2,1), (1,1), (1,2), (0,2): two quads, each with nodes of its own.
fn l_shape() {
    let xs = [0.0, 2.0, 2.0, 1.0, 1.0, 0.0];
    let ys = [0.0, 0.0, 1.0, 1.0, 2.0, 2.0];
    let mut lists = nines!(16, 4, 32);
    let quads = mesh_prism(&xs, &ys, HEIGHTS, 0, 6, Material(1), 7, EMPTY, &mut lists);
    expect(quads == Ok(counts_of(16, 4)));
    expect((lists.places[3] == 4) & (lists.places[6] == 4294967295) & (lists.places[16] == 8));
    expect((lists.xs[1] == 2.0) & (lists.xs[9] == 1.0));
    expect((lists.kinds[3] == 2) & (lists.regions[3] == 7));
}

// Edges 1 and 4 cross the band's middle at one place: edge 1 comes first.
fn tie() {
    let xs = [0.0, 2.0, 4.0, 5.0, 4.0, 2.0];
    let ys = [0.0, 0.0, 2.0, 0.0, 0.0, 2.0];
    let mut lists = nines!(16, 4, 32);
    let crossed = mesh_prism(&xs, &ys, HEIGHTS, 0, 6, Material(1), 7, EMPTY, &mut lists);
    expect(crossed == Ok(counts_of(16, 4)));
    expect((lists.xs[1] == 2.0) & (lists.xs[2] == 4.0));
}

// A plate of 2^-51 by 2^-49 is below 1e-30 in area: it has no quad, and nothing is written.
fn flat_plate() {
    let xs = [0.0, 4.440892098500626e-16, 4.440892098500626e-16, 0.0];
    let ys = [0.0, 0.0, 1.7763568394002505e-15, 1.7763568394002505e-15];
    let mut lists = nines!(8, 2, 16);
    let flat = mesh_prism(&xs, &ys, HEIGHTS, 0, 4, Material(1), 7, EMPTY, &mut lists);
    expect(flat == Err(Refusal::NoTrapezoid));
    expect(lists.xs[0] == 9.0);
}

// A plate of 2^-50 by 2^-49 is above it, and has one.
fn thin_plate() {
    let xs = [0.0, 8.881784197001252e-16, 8.881784197001252e-16, 0.0];
    let ys = [0.0, 0.0, 1.7763568394002505e-15, 1.7763568394002505e-15];
    let mut lists = nines!(8, 2, 16);
    let thin = mesh_prism(&xs, &ys, HEIGHTS, 0, 4, Material(1), 7, EMPTY, &mut lists);
    expect(thin == Ok(counts_of(8, 2)));
}

// A region that is a prism, clipped: bottom nodes 0 to 3, top nodes 4 to 7.
fn clipped() {
    let xs = [0.0, 4.0, 1.0, 0.0];
    let ys = [0.0, 0.0, 1.0, 4.0];
    let prism = SolidRegion {
        material_id: Material(1),
        net: 0,
        source_polygon: PolygonNumber(0),
        solid: Solid::Prism {
            z_bottom: 0.0,
            z_top: 1.0,
            start: 0,
            count: 4,
        },
    };
    let mut lists = nines!(8, 2, 16);
    let prisms = mesh_region(prism, &xs, &ys, 5, UNIT_CELLS, EMPTY, &mut lists);
    expect(prisms == Ok(counts_of(8, 2)));
    expect((lists.places[3] == 4) & (lists.places[13] == 7));
    expect(lists.zs[4] == 1.0);
    expect(lists.regions[1] == 5);
}

// A region that is a box: one hex. No point of the lists is looked at.
fn box_region() {
    let xs = [0.0, 4.0];
    let ys = [0.0, 1.0];
    let mut lists = nines!(8, 1, 8);
    let hex = mesh_region(CUBE, &xs, &ys, 5, UNIT_CELLS, EMPTY, &mut lists);
    expect(hex == Ok(counts_of(8, 1)));
}

// The same box, beside point lists of unequal length.
fn unequal_points() {
    let xs = [0.0, 4.0, 1.0];
    let ys = [0.0, 0.0, 1.0, 4.0];
    let mut lists = nines!(8, 1, 8);
    let unequal = mesh_region(CUBE, &xs, &ys, 5, UNIT_CELLS, EMPTY, &mut lists);
    expect(unequal == Err(Refusal::UnequalLists));
}

fn main() {
    l_shape();
    tie();
    flat_plate();
    thin_plate();
    clipped();
    box_region();
    unequal_points();
}

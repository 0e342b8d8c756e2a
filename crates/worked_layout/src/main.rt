// Stacking: a square on a named layer, and one on a layer without a name.
#![tactic(auto, unfolding(crate::proofs::OnLayouts::on_layouts))]

use check::expect;
use geometry::{Polygons, RegionLists, assemble_stack};
use openrdson_core::Blocks;
use worked::{map_of, stack_of};

// The same square on layers 7 and 8.
const SQUARES: Polygons<'static> = Polygons {
    layers: &[7, 8],
    nets: &[5, 6],
    starts: &[0, 0],
    counts: &[4, 4],
    xs: &[0.0, 1.0, 1.0, 0.0],
    ys: &[0.0, 0.0, 1.0, 1.0],
};

// Layer 7 is M, which the conducting map takes to A, a conductor of height 1 and thickness 1.
fn squares() {
    let mut names = [0; 36];
    names[0] = 1;
    names[2] = 7;
    names[4] = 77;
    let mut conductors = stack_of!(b'A', 3, 240, 63);
    conductors[49] = 240;
    conductors[50] = 63;
    let blocks = Blocks {
        names: &names,
        conducting: &map_of!(b'M', b'A', 0),
        via: &[0, 0],
        conductors: &conductors,
        diffusions: &[0, 0],
        vias: &[0, 0],
    };
    let mut regions = RegionLists {
        kinds: &mut [9],
        min_x: &mut [9.0],
        min_y: &mut [9.0],
        max_x: &mut [9.0],
        max_y: &mut [9.0],
        z_bottom: &mut [9.0],
        z_top: &mut [9.0],
        starts: &mut [9],
        counts: &mut [9],
        materials: &mut [9],
        nets: &mut [9],
        polygons: &mut [9],
    };
    let mut outcomes = [9, 9];
    let stacked = assemble_stack(blocks, SQUARES, &mut regions, &mut outcomes);
    expect(stacked == Ok(1));
    expect(outcomes[0] == 0);
    expect(outcomes[1] == 2);
    expect((regions.materials[0] == 1) & (regions.nets[0] == 5));
    expect((regions.z_bottom[0] == 1.0) & (regions.z_top[0] == 2.0));
}

fn main() {
    squares();
}

// Extruding and the total volume: the bow-tie, a triangle, a box of explicit bounds, and the total of a box and a prism.
#![tactic(auto, unfolding(crate::proofs::OnSolids::on_solids))]

mod regions;
mod rows;

use check::expect;
use geometry::{extrude_box, extrude_polygon};
use openrdson_core::{Bbox, Material, Refusal, Solid};
use regions::region_of;
use rows::total_of_two;
use worked::heights_of;

fn bow_tie() {
    let xs = [0.0, 1.0, 1.0, 0.0];
    let ys = [0.0, 1.0, 0.0, 1.0];
    let heights = heights_of(0.0, 3.0);
    let solid = Solid::Box {
        min_x: 0.0,
        min_y: 0.0,
        max_x: 1.0,
        max_y: 1.0,
        z_bottom: 0.0,
        z_top: 3.0,
    };
    let expected = region_of(768, solid);
    let built = extrude_polygon(&xs, &ys, heights, Material(768), 5);
    expect(built == Ok(expected));
    let past = extrude_polygon(&xs, &ys, heights, Material(769), 5);
    expect(past == Err(Refusal::OutsideList));
}

fn triangle() {
    let xs = [0.0, 1.0, 0.0];
    let ys = [0.0, 0.0, 1.0];
    let solid = Solid::Prism {
        z_bottom: 2.0,
        z_top: 0.0,
        start: 0,
        count: 3,
    };
    let expected = region_of(0, solid);
    let built = extrude_polygon(&xs, &ys, heights_of(2.0, 0.0), Material(0), 5);
    expect(built == Ok(expected));
    let no_top = extrude_polygon(&xs, &ys, heights_of(2.0, 0.0 / 0.0), Material(769), 5);
    expect(no_top == Err(Refusal::NumberOutOfRange));
}

fn boxes() {
    let sides = Bbox {
        min_x: 1.0,
        min_y: 0.0,
        max_x: 2.0,
        max_y: 3.0,
    };
    let solid = Solid::Box {
        min_x: 1.0,
        min_y: 0.0,
        max_x: 2.0,
        max_y: 3.0,
        z_bottom: 1.0,
        z_top: 0.0,
    };
    let expected = region_of(768, solid);
    let built = extrude_box(sides, heights_of(1.0, 0.0), Material(768), 5);
    expect(built == Ok(expected));
    let past = extrude_box(sides, heights_of(1.0, 0.0), Material(769), 5);
    expect(past == Err(Refusal::OutsideList));
    let endless = extrude_box(sides, heights_of(1.0 / 0.0, 0.0), Material(769), 5);
    expect(endless == Err(Refusal::NumberOutOfRange));
}

fn totals() {
    let xs = [7.0, 0.0, 1.0, 0.0];
    let ys = [7.0, 0.0, 0.0, 1.0];
    let kinds = [0, 1];
    let no_kind = [0, 2];
    let materials = [1, 768];
    let sum = total_of_two(&kinds, &materials, 3.0, &xs, &ys);
    expect(sum == Ok(7.0));
    let outside = total_of_two(&no_kind, &materials, 3.0, &xs, &ys);
    expect(outside == Err(Refusal::OutsideList));
    let no_height = total_of_two(&no_kind, &materials, 0.0 / 0.0, &xs, &ys);
    expect(no_height == Err(Refusal::NumberOutOfRange));
}

fn main() {
    bow_tie();
    triangle();
    boxes();
    totals();
}

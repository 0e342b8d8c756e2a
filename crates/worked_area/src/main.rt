// Areas: the triangle (0,0), (0,1), (1,0), both ways round, and the refusals 16, 2 and 1.
#![tactic(auto, unfolding(worked::proofs::OnShapes::on_shapes))]

use check::expect;
use openrdson_core::{Refusal, is_ccw, polygon_area, polygon_signed_area, ring_size};

fn areas() {
    let xs = [0.0, 0.0, 1.0];
    let ys = [0.0, 1.0, 0.0];
    expect(polygon_signed_area(&xs, &ys) == Ok(-0.5));
    expect(polygon_area(&xs, &ys) == Ok(0.5));
    expect(is_ccw(&xs, &ys) == Ok(false));
    expect(polygon_signed_area(&ys, &xs) == Ok(0.5));
    expect(is_ccw(&ys, &xs) == Ok(true));
    let two = [3.0, 4.0];
    expect(polygon_signed_area(&two, &two) == Ok(0.0));
}

fn refusals() {
    let xs = [0.0, 0.0, 1.0];
    let nan = 0.0 / 0.0;
    let wild = [nan, nan];
    expect(polygon_signed_area(&xs, &wild) == Err(Refusal::UnequalLists));
    expect(polygon_area(&wild, &xs) == Err(Refusal::UnequalLists));
    expect(polygon_signed_area(&wild, &wild) == Err(Refusal::NumberOutOfRange));
    expect(is_ccw(&wild, &wild) == Err(Refusal::NumberOutOfRange));
    let past = [0.0, 0.0, 1048577.0];
    expect(polygon_area(&xs, &past) == Err(Refusal::NumberOutOfRange));
    let most = [0.0, 0.0, 1048576.0];
    expect(polygon_area(&xs, &most) == Ok(0.0));
    let long = [nan; 513];
    expect(polygon_signed_area(&long, &long) == Err(Refusal::ListTooLong));
    expect(ring_size(513, 513) == Err(Refusal::ListTooLong));
    expect(ring_size(513, 512) == Err(Refusal::UnequalLists));
}

fn main() {
    areas();
    refusals();
}

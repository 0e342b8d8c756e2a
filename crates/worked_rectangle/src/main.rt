// The rectangle test: a box is a ring on the four corners of its bounds, in any order. Then rings and points, of unequal lengths or out of range, and heights.
#![tactic(auto, unfolding(worked::proofs::OnShapes::on_shapes, openrdson_core::specs::Points::points_part))]

use check::expect;
use openrdson_core::{Heights, Point, Points, Refusal, Ring, is_axis_aligned_rectangle};

fn rectangles() {
    let bow_tie_xs = [0.0, 1.0, 1.0, 0.0];
    let bow_tie_ys = [0.0, 1.0, 0.0, 1.0];
    expect(is_axis_aligned_rectangle(&bow_tie_xs, &bow_tie_ys) == Ok(true));
    let triangle_xs = [0.0, 1.0, 0.0];
    let triangle_ys = [0.0, 0.0, 1.0];
    expect(is_axis_aligned_rectangle(&triangle_xs, &triangle_ys) == Ok(false));
    let l_xs = [0.0, 2.0, 2.0, 1.0, 1.0, 0.0];
    let l_ys = [0.0, 0.0, 1.0, 1.0, 2.0, 2.0];
    expect(is_axis_aligned_rectangle(&l_xs, &l_ys) == Ok(false));
    let line = [0.0, 1.0, 2.0];
    let level = [0.0, 0.0, 0.0];
    expect(is_axis_aligned_rectangle(&line, &level) == Ok(false));
    let nan = 0.0 / 0.0;
    let wild = [0.0, 1.0, nan];
    expect(is_axis_aligned_rectangle(&l_xs, &wild) == Err(Refusal::UnequalLists));
    expect(is_axis_aligned_rectangle(&line, &wild) == Err(Refusal::NumberOutOfRange));
}

// Rings and points of unequal lengths, out of range and sound; parts of points; heights at the limit and past it.
fn rings() {
    let xs = [0.0, 1.0, 1048577.0];
    let ys = [0.0, 0.0, 2.0];
    let short = [0.0, 0.0];
    expect(Ring::new(&xs, &short).is_err());
    expect(Ring::checked(&xs, &ys).is_err());
    expect(Ring::checked(&ys, &ys).is_ok());
    expect(Points::new(&xs, &short).is_err());
    if let Ok(ring) = Ring::new(&xs, &ys) {
        expect(ring.point(1) == Point { x: 1.0, y: 0.0 });
        expect(!ring.is_in_range());
        expect(!ring.is_within(1048576.0));
        expect(ring.is_within(2000000.0));
    }
    if let Ok(points) = Points::new(&xs, &ys) {
        expect(points.part(1, 2).is_some());
        expect(points.part(2, 2).is_none());
    }
    let heights = Heights {
        bottom: 0.0,
        top: 1048577.0,
    };
    expect(!heights.is_in_range());
    let low = Heights {
        bottom: -1048576.0,
        top: 1048576.0,
    };
    expect(low.is_in_range());
}

fn main() {
    rectangles();
    rings();
}

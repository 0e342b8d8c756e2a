// Cleaning and triangulating: a square, a triangle that turns clockwise, four points on a line, and a ring with close points.
#![tactic(auto, unfolding(crate::proofs::OnRings::on_rings))]

mod cut;

ghost use Rattle.std.specs.Prelude.{◌≡◌};

use check::expect;
use cut::Cut;
use meshing::{PolygonCounts, dedup_ring};
use openrdson_core::Refusal;

// The counts of so many vertices and triangles.
fn counts_of(vertices: usize, triangles: usize) -> PolygonCounts
    ensures vertices { result.vertices ≡ vertices }
    ensures triangles { result.triangles ≡ triangles }
{
    PolygonCounts {
        vertices,
        triangles,
    }
}

fn square() {
    let xs = [0.0, 2.0, 2.0, 0.0];
    let ys = [0.0, 0.0, 2.0, 2.0];
    let cut = Cut::<4, 7>::of_ring(&xs, &ys);
    let corners = cut.corners;
    expect(cut.answer == Ok(counts_of(4, 2)));
    expect((corners[0] == 3) & (corners[1] == 0) & (corners[2] == 1));
    expect((corners[3] == 1) & (corners[4] == 2) & (corners[5] == 3));
    expect(corners[6] == 9);
}

fn turned() {
    let xs = [0.0, 0.0, 1.0];
    let ys = [0.0, 1.0, 0.0];
    let cut = Cut::<3, 3>::of_ring(&xs, &ys);
    let corners = cut.corners;
    expect(cut.answer == Ok(counts_of(3, 1)));
    expect((corners[0] == 2) & (corners[1] == 1) & (corners[2] == 0));
}

fn on_a_line() {
    let xs = [0.0, 1.0, 2.0, 3.0];
    let ys = [0.0, 1.0, 2.0, 3.0];
    let cut = Cut::<4, 6>::of_ring(&xs, &ys);
    expect(cut.answer == Err(Refusal::ClippingStalled));
    expect(cut.xs[0] == 9.0);
}

fn close_points() {
    let xs = [0.0, 2.0, 1.0, -1.5e-16, 1.5e-16];
    let ys = [0.0, 1.0, 2.0, 0.0, 0.0];
    let mut ring_x = [9.0; 5];
    let mut ring_y = [9.0; 5];
    let cleaned = dedup_ring(&xs, &ys, &mut ring_x, &mut ring_y);
    expect(cleaned == Ok(4));
    expect(ring_x[3] < 0.0);
    expect(ring_x[4] == 9.0);
}

fn main() {
    square();
    turned();
    on_a_line();
    close_points();
}

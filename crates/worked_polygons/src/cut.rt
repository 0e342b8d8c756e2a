// A ring triangulated into lists of its own, and what the call answered.
ghost use Rattle.std.specs.Prelude.{length, replicate};
ghost use Rattle.worked_polygons.specs.Nines.{nine64};
ghost use Rattle.meshing.specs.Triangulate as triangulate;

use meshing::{PolygonCounts, triangulate_polygon};
use openrdson_core::Refusal;

// The lists of N points and of C corners after the call, and its answer.
#[derive(Drop)]
pub struct Cut<const N: usize, const C: usize> {
    pub xs: [f64; N],
    pub ys: [f64; N],
    pub corners: [u32; C],
    pub answer: Result<PolygonCounts, Refusal>,
}

impl<const N: usize, const C: usize> Cut<N, C> {
    // Triangulates the ring through these points; every entry is 9 before the call.
    pub fn of_ring(xs: &[f64], ys: &[f64]) -> Self
        ensures { triangulate.Leaves (triangulate.triangulate_polygon xs.now ys.now N N C) xs.now ys.now (replicate N nine64) (replicate N nine64) (replicate C 9) result.answer result.xs result.ys result.corners }
    {
        let mut ring_x = [9.0; N];
        let mut ring_y = [9.0; N];
        let mut corners = [9; C];
        let answer = triangulate_polygon(xs, ys, &mut ring_x, &mut ring_y, &mut corners);
        Self {
            xs: ring_x,
            ys: ring_y,
            corners,
            answer,
        }
    }
}

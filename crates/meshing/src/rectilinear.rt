// Whether a ring is rectilinear.
ghost use Rattle.std.specs.Prelude.{◌≡◌};
ghost use Rattle.meshing.specs.Rectilinear as spec;

use openrdson_core::{Point, Ring, next_place};

// Whether each edge of a ring keeps x or y, within 1e-9 times the larger of 1.0 and the largest coordinate size.
pub fn ring_is_rectilinear(ring: Ring<'_>) -> bool
    ensures { result ≡ spec.is_rectilinear ring.entry.xs.now ring.entry.ys.now }
{
    let n = ring.xs.len();
    if n < 3 {
        return false;
    }
    let eps = 1e-9 * binary64::larger(largest_size(ring), 1.0);
    (0..n).all(|i| !is_slanted(eps, ring.point(i), ring.point(next_place(n, i))))
}

// The largest coordinate size of a ring.
fn largest_size(ring: Ring<'_>) -> f64
    ensures { result ≡ spec.largest_size ring.entry.xs.now ring.entry.ys.now }
{
    let mut size = 0.0;
    for i in 0..ring.xs.len() {
        size = binary64::larger(
            binary64::larger(size, binary64::abs(ring.xs[i])),
            binary64::abs(ring.ys[i]),
        );
    }
    size
}

// Whether the edge from a to b differs by more than eps in x and in y.
fn is_slanted(eps: f64, a: Point, b: Point) -> bool
    ensures { result ≡ spec.is_slanted eps a b }
{
    (binary64::abs(a.x - b.x) > eps) & (binary64::abs(a.y - b.y) > eps)
}

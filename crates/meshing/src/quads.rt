// Quads: in a band, between two neighbouring crossings of its middle.
ghost use Rattle.std.specs.Prelude.{ℕ, ◌≡◌, [], ◌∷◌, ◌+◌, ◌≤◌, ◌<◌, length, get_or};
ghost use Rattle.lists.specs.Lists.{put, joined};
ghost use Rattle.meshing.specs.Scanline.{quad_xs, quad_ys, Tallied};
ghost use Rattle.meshing.specs.Quads as spec;

use crate::crossings::edge_at;
use crate::levels::Band;
use crate::writes::write_eight;
use openrdson_core::Ring;

// A quad: the x of its corners a, b, c, d, counter-clockwise, the height of a and b, and that of c and d.
#[derive(Clone, Copy)]
pub struct Quad {
    pub ax: f64,
    pub bx: f64,
    pub cx: f64,
    pub dx: f64,
    pub low: f64,
    pub high: f64,
}

// How many quads there are, and whether all their corners are in range. Not an option of a number: that there is no quad (11) comes before a quad out of
// range (1), and the loop over the quads ends early for neither.
#[derive(Clone, Copy)]
pub struct Tally {
    pub quads: usize,
    pub inside: bool,
}

// Edges of a ring, by their numbers.
#[derive(Clone, Copy)]
pub struct Edges<'a> {
    pub ring: Ring<'a>,
    pub numbers: &'a [usize],
    ghost below: { (i : ℕ) → i < length numbers.now → get_or numbers.now i 0 < length ring.xs.now },
}

// The quad between the edges l and r in a band.
#[tactic(auto, unfolding(crate::specs::Quads::quad_of))]
fn quad_of(ring: Ring<'_>, band: Band, l: usize, r: usize) -> Quad
    requires { (l < length ring.xs.now) × (r < length ring.xs.now) }
    ensures { result ≡ spec.quad_of ring.entry.xs.now ring.entry.ys.now band l r }
{
    Quad {
        ax: edge_at(ring, band.low, l),
        bx: edge_at(ring, band.low, r),
        cx: edge_at(ring, band.high, r),
        dx: edge_at(ring, band.high, l),
        low: band.low,
        high: band.high,
    }
}

// The computed area: half the sum of the cross products of the triangles a b c and a c d.
#[tactic(auto, unfolding(crate::specs::Quads::quad_area))]
fn quad_area(q: Quad) -> f64
    ensures { result ≡ spec.quad_area q }
{
    0.5 * ((q.bx - q.ax) * (q.high - q.low) - (q.low - q.low) * (q.cx - q.ax)
        + (q.cx - q.ax) * (q.high - q.low)
        - (q.high - q.low) * (q.dx - q.ax))
}

// Whether the computed area is below 1e-30 in size.
#[tactic(auto, unfolding(crate::specs::Quads::is_flat))]
fn is_flat(q: Quad) -> bool
    ensures { result ≡ spec.is_flat q }
{
    binary64::abs(quad_area(q)) < 1e-30
}

// Whether the x of its corners are in range; its heights are vertices'.
#[tactic(auto, unfolding(crate::specs::Quads::quad_in))]
fn is_in_range(q: Quad) -> bool
    ensures { result ≡ spec.quad_in q }
{
    binary64::coordinate_in_range(q.ax)
        & binary64::coordinate_in_range(q.bx)
        & binary64::coordinate_in_range(q.cx)
        & binary64::coordinate_in_range(q.dx)
}

// The tally with one more quad.
fn tally_quad(t: Tally, q: Quad) -> Tally
    requires { t.quads < 1048576 }
    ensures { Tallied t (q ∷ []) result }
{
    Tally {
        quads: t.quads + 1,
        inside: t.inside & is_in_range(q),
    }
}

// The tally with the quads between consecutive pairs of edges in a band.
pub fn tally_quads(edges: Edges<'_>, band: Band, t: Tally) -> Tally
    requires { t.quads + length edges.numbers.now ≤ 1048576 }
    ensures { Tallied t (spec.quads_between edges.entry.ring.xs.now edges.entry.ring.ys.now band edges.entry.numbers.now) result × (result.quads ≤ t.quads + length edges.entry.numbers.now) }
{
    let (pairs, _) = edges.numbers.as_chunks::<2>();
    let mut sum = t;
    for &[left, right] in pairs {
        let q = quad_of(edges.ring, band, left, right);
        if !is_flat(q) {
            sum = tally_quad(sum, q);
        }
    }
    sum
}

// Writes the nodes' x and y of the quads between consecutive pairs of edges, from place p on, and says where to go on: bands follow one another in the lists.
// For callers that have found room for them. It is asked that nx and ny are equally long: they are written, and a struct of `&mut` lists that keeps the fact
// cannot be lent on. The loop is that of `tally_quads`: one that takes a closure is no shorter, and needs a law of its turns.
pub fn write_quads(edges: Edges<'_>, band: Band, nx: &mut [f64], ny: &mut [f64], p: usize) -> usize
    requires { (p + length (joined quad_xs (spec.quads_between edges.ring.xs.now edges.ring.ys.now band edges.numbers.now)) ≤ length nx.old) × (length ny.old ≡ length nx.old) }
    ensures { (nx.new ≡ put nx.old p (joined quad_xs (spec.quads_between edges.entry.ring.xs.now edges.entry.ring.ys.now band edges.entry.numbers.now)))
        × (ny.new ≡ put ny.old p (joined quad_ys (spec.quads_between edges.entry.ring.xs.now edges.entry.ring.ys.now band edges.entry.numbers.now)))
        × (result ≡ p + length (joined quad_xs (spec.quads_between edges.entry.ring.xs.now edges.entry.ring.ys.now band edges.entry.numbers.now))) }
{
    let (pairs, _) = edges.numbers.as_chunks::<2>();
    let mut at = p;
    for &[left, right] in pairs {
        let q = quad_of(edges.ring, band, left, right);
        if !is_flat(q) {
            write_eight(nx, at, [q.ax, q.bx, q.cx, q.dx, q.ax, q.bx, q.cx, q.dx]);
            write_eight(
                ny,
                at,
                [q.low, q.low, q.high, q.high, q.low, q.low, q.high, q.high],
            );
            at += 8;
        }
    }
    at
}

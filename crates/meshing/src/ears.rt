// Ear clipping: the tests of the ear rule, the search for the first ear, and the cutting. A walk is a list of vertex numbers, since these are the answer.
ghost use Rattle.std.specs.Prelude.{ℕ, ◌+◌, ◌-◌, ◌*◌, ◌≤◌, ◌<◌, ◌≡◌, [], ◌∷◌, length, get_or, take, drop};
ghost use Rattle.std.specs.Float.Ieee.{lt};
ghost use Rattle.lists.specs.Answer.{map_answer};
ghost use Rattle.lists.specs.Lists.{Below, put};
ghost use Rattle.binary64.specs.Constants.{zero64};
ghost use Rattle.openrdson_core.specs.Answers.{answer};
ghost use Rattle.meshing.specs.Triangles.{corners};
ghost use Rattle.meshing.specs.Clipping.{triangle_at, without, clip};
ghost use Rattle.meshing.specs.Ears as spec;

use crate::ring::prev_place;
use openrdson_core::{Point, Refusal, Ring, next_place};

// What remains of a walk round a ring: the numbers of its vertices.
#[derive(Clone, Copy)]
struct Walk<'a> {
    ring: Ring<'a>,
    vertices: &'a [usize],
    ghost below: { (i : ℕ) → i < length vertices.now → get_or vertices.now i 0 < length ring.xs.now },
}

// On which side of the line from a to b the point p lies.
fn side(p: Point, a: Point, b: Point) -> f64
    ensures { result ≡ spec.side p a b }
{
    (p.x - b.x) * (a.y - b.y) - (a.x - b.x) * (p.y - b.y)
}

// Whether p lies inside or on the triangle a b c. Most points lie beyond c a and before a b, so two sides often tell.
#[tactic(auto, using(crate::proofs::EarLaws::beyond, crate::proofs::EarLaws::by_sides))]
fn point_in_triangle(p: Point, a: Point, b: Point, c: Point) -> bool
    ensures { result ≡ spec.in_triangle p a b c }
{
    let f = side(p, c, a);
    let d = side(p, a, b);
    if ((f < 0.0) & (d > 0.0)) | ((f > 0.0) & (d < 0.0)) {
        return false;
    }
    let e = side(p, b, c);
    let has_neg = (d < 0.0) | (e < 0.0) | (f < 0.0);
    let has_pos = (d > 0.0) | (e > 0.0) | (f > 0.0);
    !(has_neg & has_pos)
}

// Whether the corner a b c turns left.
fn turns_left(a: Point, b: Point, c: Point) -> bool
    ensures { result ≡ lt zero64 (spec.turn a b c) }
{
    (b.x - a.x) * (c.y - a.y) - (b.y - a.y) * (c.x - a.x) > 0.0
}

// Whether vertex j is none of a, b and c, and lies inside or on their triangle.
#[tactic(auto, unfolding(crate::specs::Ears::blocks))]
fn is_blocking(ring: Ring<'_>, a: usize, b: usize, c: usize, j: usize) -> bool
    requires { (a < length ring.xs.now) × (b < length ring.xs.now) × (c < length ring.xs.now) × (j < length ring.xs.now) }
    ensures { result ≡ spec.blocks ring.entry.xs.now ring.entry.ys.now a b c j }
{
    if !point_in_triangle(ring.point(j), ring.point(a), ring.point(b), ring.point(c)) {
        return false;
    }
    !((j == a) | (j == b) | (j == c))
}

// Whether no vertex of the walk blocks the triangle a b c. The scan ends at the first that does.
fn is_clear(walk: Walk<'_>, a: usize, b: usize, c: usize) -> bool
    requires a { a < length walk.ring.xs.now }
    requires b { b < length walk.ring.xs.now }
    requires c { c < length walk.ring.xs.now }
    ensures { result ≡ spec.is_clear walk.entry.ring.xs.now walk.entry.ring.ys.now walk.entry.vertices.now a b c }
{
    walk.vertices
        .iter()
        .all(|j| !is_blocking(walk.ring, a, b, c, *j))
}

// Whether the vertex at place i of a walk is an ear: its corner turns left, and no other vertex blocks it.
#[tactic(auto, using(lists::proofs::Places::below_at), unfolding(crate::specs::Ears::is_ear_of))]
fn is_ear(walk: Walk<'_>, i: usize) -> bool
    requires { i < length walk.vertices.now }
    ensures { result ≡ spec.is_ear walk.entry.ring.xs.now walk.entry.ring.ys.now walk.entry.vertices.now i }
{
    let m = walk.vertices.len();
    let a = walk.vertices[prev_place(m, i)];
    let b = walk.vertices[i];
    let c = walk.vertices[next_place(m, i)];
    let ring = walk.ring;
    turns_left(ring.point(a), ring.point(b), ring.point(c)) && is_clear(walk, a, b, c)
}

// The place of the first ear from the walk's start on.
fn first_ear(walk: Walk<'_>) -> Option<usize>
    ensures { result ≡ spec.first_ear walk.entry.ring.xs.now walk.entry.ring.ys.now walk.entry.vertices.now }
{
    (0..walk.vertices.len()).find(|i| is_ear(walk, *i))
}

// Takes place i out of a walk: those before it move one up, and the walk begins one later. The search has read those too: this takes no longer.
#[tactic(auto, using(crate::proofs::ClipLaws::moved_up))]
fn remove_at(walk: &mut [usize], i: usize)
    requires { i < length walk.old }
    ensures { drop 1 walk.new ≡ without walk.old i }
{
    walk.copy_within(..i, 1);
}

// Writes a triangle's corners from place t on.
#[tactic(auto, using(lists::proofs::Fills::put_three))]
fn put_triangle(out: &mut [u32], t: usize, a: usize, b: usize, c: usize)
    requires { (t + 3 ≤ length out.old) × (a < 512) × (b < 512) × (c < 512) }
    ensures { out.new ≡ put out.old t (a ∷ b ∷ c ∷ []) }
{
    out[t] = a as u32;
    out[t + 1] = b as u32;
    out[t + 2] = c as u32;
}

// Cuts ears off a walk until three vertices remain, and writes the corners of all triangles; 4 where there is no ear. The walk is overwritten.
// For callers whose walk is of a ring's vertices and has three or more, and who have room for the corners: a type for the room would hold its length alone.
pub fn clip_walk(ring: Ring<'_>, walk: &mut [usize], out: &mut [u32]) -> Result<(), Refusal>
    requires { (3 ≤ length walk.old) × Below (length ring.xs.now) walk.old × ((length walk.old - 2) * 3 ≤ length out.old) }
    ensures { map_answer (λ _. take ((length walk.old - 2) * 3) out.new) (answer result) ≡ map_answer corners (clip (spec.is_ear ring.entry.xs.now ring.entry.ys.now) walk.old) }
{
    let last = walk.len() - 3;
    for at in 0..last {
        let vertices = &walk[at..];
        let i = first_ear(Walk { ring, vertices }).ok_or(Refusal::ClippingStalled)?;
        cut_ear(&mut walk[at..], i, out, at * 3);
    }
    put_triangle(out, last * 3, walk[last], walk[last + 1], walk[last + 2]);
    Ok(())
}

// Writes the triangle of the ear at place i from place t on, and takes it out of the walk.
#[tactic(auto, using(lists::proofs::Places::below_at, crate::proofs::ClipLaws::cut_written))]
fn cut_ear(walk: &mut [usize], i: usize, out: &mut [u32], t: usize)
    requires { (i < length walk.old) × Below 512 walk.old × (t + 3 ≤ length out.old) }
    ensures { (drop 1 walk.new ≡ without walk.old i) × (out.new ≡ put out.old t (corners (triangle_at walk.old i ∷ []))) }
{
    let m = walk.len();
    let a = walk[prev_place(m, i)];
    let c = walk[next_place(m, i)];
    put_triangle(out, t, a, walk[i], c);
    remove_at(walk, i);
}

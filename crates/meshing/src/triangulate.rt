// Triangulating a ring: cleaned, walked round counter-clockwise, and clipped.
ghost use Rattle.std.specs.Prelude.{◌-◌, ◌*◌, ◌≤◌, ◌≡◌, length};
ghost use Rattle.lists.specs.Answer.{map_answer};
ghost use Rattle.lists.specs.Lists.{elems};
ghost use Rattle.meshing.specs.Triangles.{walk as walk_of, corners as corners_of, triples};
ghost use Rattle.meshing.specs.Ring.{kept};
ghost use Rattle.meshing.specs.Clipping.{clip};
ghost use Rattle.meshing.specs.Ears.{is_ear, triangles_of};
ghost use Rattle.openrdson_core.specs.Answers.{answer};
ghost use Rattle.meshing.specs.Triangulate as spec;

use crate::ears::clip_walk;
use crate::ring::clean_into;
use crate::writes::copy;
use openrdson_core::{Refusal, Ring, SoundRing, polygon_signed_area};

// How many vertices a cleaned ring has, and how many triangles it is cut into.
#[derive(Clone, Copy, Debug, PartialEq, Eq)]
pub struct PolygonCounts {
    pub vertices: usize,
    pub triangles: usize,
}

// The corners of triangles, three after three.
#[derive(Clone, Copy)]
pub struct Corners<'a> {
    pub places: &'a [u32],
    ghost whole: { corners_of (triples places.now) ≡ places.now },
}

// Fills a list with the walk round as many vertices: 0 to n - 1, reversed unless forward. `forward` is the definition's own argument: two functions would be
// no plainer.
#[tactic(auto, using(lists::proofs::Fills::no_elems, lists::proofs::Fills::one_elem, lists::proofs::Fills::all_elems))]
fn fill_walk(walk: &mut [usize], forward: bool)
    ensures { walk.new ≡ walk_of forward (length walk.old) }
{
    for i in 0..walk.len() {
        walk[i] = i;
    }
    if !forward {
        walk.reverse();
    }
}

// Writes a cleaned ring and the corners of its triangles, where there is room; 12. It is asked that out_x and out_y are equally long, here and below: they
// are written, and a struct of `&mut` lists that keeps the fact cannot be lent on.
fn write_cutting(
    ring: Ring<'_>,
    corners: Corners<'_>,
    out_x: &mut [f64],
    out_y: &mut [f64],
    out_corners: &mut [u32],
) -> Result<PolygonCounts, Refusal>
    requires { length out_x.old ≡ length out_y.old }
    ensures { spec.Leaves (spec.fitted (length out_x.old) (length out_corners.old) (elems (length ring.entry.xs.now) (λ i. i)) (triples corners.entry.places.now)) ring.entry.xs.now ring.entry.ys.now out_x.old out_y.old out_corners.old result out_x.new out_y.new out_corners.new }
{
    if ring.xs.len() > out_x.len() {
        return Err(Refusal::OutputTooShort);
    }
    if corners.places.len() > out_corners.len() {
        return Err(Refusal::OutputTooShort);
    }
    copy(ring.xs, out_x, 0);
    copy(ring.ys, out_y, 0);
    copy(corners.places, out_corners, 0);
    Ok(PolygonCounts {
        vertices: ring.xs.len(),
        triangles: corners.places.len() / 3,
    })
}

// Clips a ring of three points or more and N or fewer, walked round forward or reversed; 4. The corners stand at the start of `room`.
// The walk is in N places, since there is no heap.
fn clip_around<'a, const N: usize>(
    ring: Ring<'_>,
    forward: bool,
    room: &'a mut [u32],
) -> Result<Corners<'a>, Refusal>
    requires { (3 ≤ length ring.xs.now) × (length ring.xs.now ≤ N) × (N ≤ 512) × ((length ring.xs.now - 2) * 3 ≤ length room.old) }
    ensures { map_answer (λ c. triples c.places.now) (answer result) ≡ clip (is_ear ring.entry.xs.now ring.entry.ys.now) (walk_of forward (length ring.entry.xs.now)) }
{
    let n = ring.xs.len();
    let mut vertices = [0usize; N];
    let walk = &mut vertices[..n];
    fill_walk(walk, forward);
    clip_walk(ring, walk, room)?;
    let places = &room[..(n - 2) * 3];
    Ok(Corners { places })
}

// Clips a ring of three points or more, walked round in the direction of its area; 4. The area of a sound ring is not refused. The walk has room for a small
// ring or for a large one: a size chooses a const parameter, as in `mesh_scanline`.
#[tactic(auto, using(crate::proofs::TriangulateLaws::sound_fault))]
pub fn clip_ring<'a>(sound: SoundRing<'_>, room: &'a mut [u32]) -> Result<Corners<'a>, Refusal>
    requires { (3 ≤ length sound.ring.xs.now) × ((length sound.ring.xs.now - 2) * 3 ≤ length room.old) }
    ensures { map_answer (λ c. triples c.places.now) (answer result) ≡ triangles_of sound.entry.ring.xs.now sound.entry.ring.ys.now }
{
    let ring = sound.ring;
    let area = polygon_signed_area(ring.xs, ring.ys)?;
    let forward = !(area < 0.0);
    if ring.xs.len() <= 32 {
        return clip_around::<32>(ring, forward, room);
    }
    clip_around::<512>(ring, forward, room)
}

// Triangulates a sound ring into lists of points that are equally long; 3, 4, 12.
#[tactic(auto, using(crate::proofs::TriangulateLaws::kept_sound))]
fn triangulate_sound(
    sound: SoundRing<'_>,
    out_x: &mut [f64],
    out_y: &mut [f64],
    out_corners: &mut [u32],
) -> Result<PolygonCounts, Refusal>
    requires { length out_x.old ≡ length out_y.old }
    ensures { spec.Leaves (spec.cutting sound.entry.ring.xs.now sound.entry.ring.ys.now (length out_x.old) (length out_corners.old) (kept sound.entry.ring.xs.now sound.entry.ring.ys.now)) sound.entry.ring.xs.now sound.entry.ring.ys.now out_x.old out_y.old out_corners.old result out_x.new out_y.new out_corners.new }
{
    let mut ring_x = [0.0; 512];
    let mut ring_y = [0.0; 512];
    let ring = clean_into(sound.ring, &mut ring_x, &mut ring_y);
    if ring.xs.len() < 3 {
        return Err(Refusal::TooFewVertices);
    }
    let mut room = [0u32; 1530];
    let corners = clip_ring(SoundRing { ring }, &mut room)?;
    write_cutting(ring, corners, out_x, out_y, out_corners)
}

// Triangulates a ring: writes it cleaned, and the corners of its triangles, three after three, in cutting order; 16, 2, 1, 3, 4, 12. The call takes a ring's
// two lists by themselves, as they are lent.
pub fn triangulate_polygon(
    xs: &[f64],
    ys: &[f64],
    out_x: &mut [f64],
    out_y: &mut [f64],
    out_corners: &mut [u32],
) -> Result<PolygonCounts, Refusal>
    ensures leaves { spec.Leaves (spec.triangulate_polygon xs.now ys.now (length out_x.old) (length out_y.old) (length out_corners.old)) xs.now ys.now out_x.old out_y.old out_corners.old result out_x.new out_y.new out_corners.new }
    ensures triangulation { spec.TriangulationLeft result out_x.new out_y.new out_corners.new }
{
    if out_x.len() != out_y.len() {
        return Err(Refusal::UnequalLists);
    }
    let ring = Ring::checked(xs, ys)?;
    triangulate_sound(ring, out_x, out_y, out_corners)
}

// Meshing a prism region: clipped into triangular prisms, or by the scanline. Each function asks for `Grows` of the counts and the lists: a struct of both that
// keeps the fact cannot be lent on.
ghost use Rattle.std.specs.Prelude.{◌≡◌, false, ◌+◌, ◌-◌, ◌*◌, ◌≤◌, length, IfOk};
ghost use Rattle.lists.specs.Answer.{given, map_answer};
ghost use Rattle.lists.specs.Lists.{put, joined, Below, part};
ghost use Rattle.openrdson_core.specs.Mesh.{held, Same};
ghost use Rattle.openrdson_core.specs.Answers.{answer};
ghost use Rattle.meshing.specs.Added.{Adds, Grows, Appends};
ghost use Rattle.meshing.specs.Triangles.{triples};
ghost use Rattle.meshing.specs.Rectilinear.{is_rectilinear};
ghost use Rattle.meshing.specs.Prisms as spec;

use crate::rectilinear::ring_is_rectilinear;
use crate::ring::{clean_into, is_clean};
use crate::scanline::{Extrusion, mesh_scanline};
use crate::triangulate::{Corners, clip_ring};
use crate::writes::{copy, fill, write_eight};
use geometry::{LARGEST_MATERIAL, Part};
use openrdson_core::{
    Counts, ElementType, Heights, Material, MeshLists, Points, Refusal, Ring, SoundRing, UNUSED,
    has_room,
};

// Writes the node places of the prisms on triangles, from place `at` on, where the n bottom nodes start at `base`. It is asked that the corners are below n,
// here and in `mesh_tris`: `Corners` does not hold n, and a type that keeps the fact would be made in one place.
fn write_prisms(places: &mut [u32], at: usize, base: usize, n: usize, corners: Corners<'_>)
    requires { Below n corners.places.now × (base + (n + n) ≤ 1048576) × (at + 8 * length (triples corners.places.now) ≤ length places.old) }
    ensures { places.new ≡ put places.old at (joined (spec.prism_places base n) (triples corners.entry.places.now)) }
{
    let bottom = base as u32;
    let top = (base + n) as u32;
    let (triangles, _) = corners.places.as_chunks::<3>();
    for (i, &[a, b, c]) in triangles.iter().enumerate() {
        write_eight(
            places,
            at + i * 8,
            [
                bottom + a,
                bottom + b,
                bottom + c,
                top + a,
                top + b,
                top + c,
                UNUSED,
                UNUSED,
            ],
        );
    }
}

// Meshes a ring by its triangles, where there is room: bottom nodes 0 to n - 1, top nodes n to 2n - 1; 12.
#[tactic(auto, using(crate::proofs::PrismLaws::tris_no_nodes, crate::proofs::PrismLaws::tris_no_elements, crate::proofs::Rooms::room_in, crate::proofs::PrismLaws::triples_many, crate::proofs::BoxWrites::refused_adds))]
fn mesh_tris(
    extrusion: Extrusion<'_>,
    corners: Corners<'_>,
    region: u32,
    counts: Counts,
    lists: &mut MeshLists<'_>,
) -> Result<Counts, Refusal>
    requires ring { Below (length extrusion.ring.ring.xs.now) corners.places.now × (length corners.places.now ≤ 1530) }
    requires grows { Grows counts (held lists.old) }
    ensures mesh { Appends (given (spec.cut_part counts.nodes extrusion.entry (triples corners.entry.places.now))) counts region (held lists.old) (held lists.new) result }
    ensures same { Same lists.old lists.new }
{
    let ring = extrusion.ring.ring;
    let n = ring.xs.len();
    let triangles = corners.places.len() / 3;
    if !has_room(n + n, counts.nodes, lists.xs.len()) {
        return Err(Refusal::OutputTooShort);
    }
    if !has_room(triangles, counts.elements, lists.kinds.len()) {
        return Err(Refusal::OutputTooShort);
    }
    let bottom = counts.nodes;
    let top = counts.nodes + n;
    copy(ring.xs, lists.xs, bottom);
    copy(ring.xs, lists.xs, top);
    copy(ring.ys, lists.ys, bottom);
    copy(ring.ys, lists.ys, top);
    fill(lists.zs, bottom, n, extrusion.heights.bottom);
    fill(lists.zs, top, n, extrusion.heights.top);
    let prism = u8::from(ElementType::Prism);
    fill(lists.kinds, counts.elements, triangles, prism);
    write_prisms(lists.places, 8 * counts.elements, bottom, n, corners);
    fill(lists.regions, counts.elements, triangles, region);
    Ok(Counts {
        nodes: top + n,
        elements: counts.elements + triangles,
    })
}

// Meshes a ring that is not rectilinear, cleaned once, by the triangles of the ring cleaned again; or by the scanline where clipping refuses.
// The triangles have N corners or fewer.
fn mesh_cut<const N: usize>(
    extrusion: Extrusion<'_>,
    again: SoundRing<'_>,
    region: u32,
    counts: Counts,
    lists: &mut MeshLists<'_>,
) -> Result<Counts, Refusal>
    requires ring { (is_rectilinear extrusion.ring.ring.xs.now extrusion.ring.ring.ys.now ≡ false) × spec.Cleans extrusion.ring again }
    requires room { (3 ≤ length again.ring.xs.now) × ((length again.ring.xs.now - 2) * 3 ≤ N) × (N ≤ 1530) }
    requires grows { Grows counts (held lists.old) }
    ensures mesh { Appends (spec.meshed counts.nodes extrusion.entry) counts region (held lists.old) (held lists.new) result }
    ensures same { Same lists.old lists.new }
{
    let mut room = [0u32; N];
    match clip_ring(again, &mut room) {
        Err(_) => mesh_scanline(extrusion, region, counts, lists),
        Ok(corners) => {
            let cut = Extrusion {
                ring: again,
                ..extrusion
            };
            mesh_tris(cut, corners, region, counts, lists)
        }
    }
}

// The same, with room to work in for a small ring or for a large one: a size chooses a const parameter, as in `mesh_scanline`.
fn mesh_again(
    extrusion: Extrusion<'_>,
    again: SoundRing<'_>,
    region: u32,
    counts: Counts,
    lists: &mut MeshLists<'_>,
) -> Result<Counts, Refusal>
    requires ring { (is_rectilinear extrusion.ring.ring.xs.now extrusion.ring.ring.ys.now ≡ false) × spec.Cleans extrusion.ring again }
    requires grows { Grows counts (held lists.old) }
    ensures mesh { Appends (spec.meshed counts.nodes extrusion.entry) counts region (held lists.old) (held lists.new) result }
    ensures same { Same lists.old lists.new }
{
    let n = again.ring.xs.len();
    if n < 3 {
        return mesh_scanline(extrusion, region, counts, lists);
    }
    if n <= 32 {
        return mesh_cut::<90>(extrusion, again, region, counts, lists);
    }
    mesh_cut::<1530>(extrusion, again, region, counts, lists)
}

// A sound ring, cleaned into the start of two lists.
#[tactic(auto, using(crate::proofs::TriangulateLaws::kept_sound))]
fn clean_sound<'a>(
    sound: SoundRing<'_>,
    xs: &'a mut [f64; 512],
    ys: &'a mut [f64; 512],
) -> SoundRing<'a>
    ensures { spec.Cleans sound.entry result }
{
    let ring = clean_into(sound.ring, xs, ys);
    SoundRing { ring }
}

// Meshes a ring, cleaned once: by the scanline if it is rectilinear, else it is cleaned again. A ring that is clean is not copied. Whether it is rectilinear
// is asked once, here alone: a type for a ring that is not would be made in no other place.
#[tactic(auto, using(crate::proofs::PrismLaws::ring_scanned, crate::proofs::PrismLaws::part_adds))]
fn mesh_ring(
    extrusion: Extrusion<'_>,
    region: u32,
    counts: Counts,
    lists: &mut MeshLists<'_>,
) -> Result<Counts, Refusal>
    requires { Grows counts (held lists.old) }
    ensures mesh { Appends (spec.meshed counts.nodes extrusion.entry) counts region (held lists.old) (held lists.new) result }
    ensures same { Same lists.old lists.new }
{
    let ring = extrusion.ring;
    if ring_is_rectilinear(ring.ring) {
        return mesh_scanline(extrusion, region, counts, lists);
    }
    if is_clean(ring.ring) {
        return mesh_again(extrusion, ring, region, counts, lists);
    }
    let mut xs = [0.0; 512];
    let mut ys = [0.0; 512];
    let again = clean_sound(ring, &mut xs, &mut ys);
    mesh_again(extrusion, again, region, counts, lists)
}

// Cleans a ring, and meshes it. A ring that is clean is not copied, and no room is made for it. `mesh_ring` has the same form with another step: one function
// for both would take the step as a closure that holds `lists`, and the check does not know what that leaves in them. The step is called in two places: one
// call past the test would need a variable that is borrowed on one path and has no value on the other, which the check does not cover.
#[tactic(auto, using(crate::proofs::PrismLaws::clean_self, crate::proofs::PrismLaws::prism_ring, crate::proofs::PrismLaws::part_adds))]
fn mesh_part(
    extrusion: Extrusion<'_>,
    region: u32,
    counts: Counts,
    lists: &mut MeshLists<'_>,
) -> Result<Counts, Refusal>
    requires { Grows counts (held lists.old) }
    ensures mesh { Appends (spec.cleaned counts.nodes extrusion.entry) counts region (held lists.old) (held lists.new) result }
    ensures same { Same lists.old lists.new }
{
    let ring = extrusion.ring;
    if is_clean(ring.ring) {
        return mesh_ring(extrusion, region, counts, lists);
    }
    let mut xs = [0.0; 512];
    let mut ys = [0.0; 512];
    let once = clean_sound(ring, &mut xs, &mut ys);
    let extrusion = Extrusion {
        ring: once,
        ..extrusion
    };
    mesh_ring(extrusion, region, counts, lists)
}

// A part of point lists as a ring from one height to another: 15, 2, 1, 8.
#[tactic(auto, unfolding(crate::specs::Prisms::part_fault, openrdson_core::specs::Points::points_part))]
fn extrusion_of<'a>(
    points: Points<'a>,
    heights: Heights,
    footprint: Part,
) -> Result<Extrusion<'a>, Refusal>
    ensures fault { map_answer (λ _. tt {0}) (answer result) ≡ spec.part_fault points.entry.xs.now points.entry.ys.now heights.bottom heights.top footprint.start footprint.count }
    ensures is { IfOk result (λ e. (e.ring.ring.xs.now ≡ part footprint.start footprint.count points.entry.xs.now) × (e.ring.ring.ys.now ≡ part footprint.start footprint.count points.entry.ys.now) × (e.heights ≡ heights)) }
{
    let Part { start, count } = footprint;
    let part = points.part(start, count).ok_or(Refusal::OutsideList)?;
    if points.xs.len() > 2097152 {
        return Err(Refusal::ListTooLong);
    }
    let ring = Ring::checked(part.xs, part.ys)?;
    if !heights.is_in_range() {
        return Err(Refusal::NumberOutOfRange);
    }
    if !(heights.top > heights.bottom) {
        return Err(Refusal::DegeneratePrism);
    }
    Ok(Extrusion { ring, heights })
}

// Meshes a prism region, whose footprint is a part of the point lists; its elements are appended after the nodes and elements counted, with the
// region's number; 16, 15, 2, 1, 8, then the scanline's 3, 9, 10, 1, 11, 1, then 12. The call takes the two lists of points by themselves, as they are lent.
#[tactic(auto, using(crate::proofs::BoxWrites::refused_adds, crate::proofs::BoxWrites::same_adds, crate::proofs::PrismLaws::prism_lists, crate::proofs::PrismLaws::prism_points, crate::proofs::PrismLaws::prism_counts, crate::proofs::PrismLaws::prism_material, crate::proofs::PrismLaws::prism_part_out, crate::proofs::PrismLaws::prism_next))]
pub fn mesh_prism(
    xs: &[f64],
    ys: &[f64],
    heights: Heights,
    start: u32,
    count: u32,
    material: Material,
    region: u32,
    counts: Counts,
    lists: &mut MeshLists<'_>,
) -> Result<Counts, Refusal>
    ensures mesh { Adds (spec.mesh_prism heights.bottom heights.top start count material.0 counts xs.now ys.now (held lists.old)) counts region (held lists.old) (held lists.new) result }
    ensures same { Same lists.old lists.new }
{
    if !lists.is_parallel() {
        return Err(Refusal::UnequalLists);
    }
    let points = Points::new(xs, ys)?;
    if !lists.holds(counts) {
        return Err(Refusal::OutsideList);
    }
    if material.0 > LARGEST_MATERIAL {
        return Err(Refusal::OutsideList);
    }
    let extrusion = extrusion_of(points, heights, Part { start, count })?;
    mesh_part(extrusion, region, counts, lists)
}

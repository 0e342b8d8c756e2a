// The scanline decomposition of a ring into quads, each two prisms. One pass decides, a second one writes. The functions take the region, the counts and the
// lists one by one, and ask for `Grows`: a struct of counts and `&mut` lists that keeps it cannot be lent on.
ghost use Rattle.std.specs.Prelude.{◌≡◌, true, ◌+◌, ◌*◌, ◌≤◌, length, take};
ghost use Rattle.lists.specs.Answer.{given, map_answer};
ghost use Rattle.lists.specs.Lists.{put, runs, joined};
ghost use Rattle.openrdson_core.specs.Answers.{answer};
ghost use Rattle.openrdson_core.specs.Mesh.{held, Same};
ghost use Rattle.meshing.specs.Added.{Grows, Appends};
ghost use Rattle.meshing.specs.Levels.{levels as levels_of, bands_of, middle as middle_of};
ghost use Rattle.meshing.specs.Quads.{quads_of};
ghost use Rattle.meshing.specs.Scanline as spec;

use crate::crossings::cross;
use crate::levels::{Band, level_list};
use crate::quads::{Edges, Tally, tally_quads, write_quads};
use crate::writes::{fill, write_eight};
use openrdson_core::{
    Counts, ElementType, Heights, MeshLists, Refusal, SoundRing, UNUSED, has_room,
};

// A ring from one height to another.
#[derive(Clone, Copy)]
pub struct Extrusion<'a> {
    pub ring: SoundRing<'a>,
    pub heights: Heights,
}

// A ring with the levels of its points: its bands lie between one level and the next.
#[derive(Clone, Copy)]
struct Bands<'a> {
    ring: SoundRing<'a>,
    levels: &'a [f64],
    ghost are: { levels.now ≡ levels_of ring.ring.ys.now },
    ghost few: { length levels.now ≤ 512 },
}

// The middle between two levels.
fn middle(band: Band) -> f64
    ensures { result ≡ middle_of band }
{
    0.5 * (band.low + band.high)
}

// Tallies the quads of the bands; none if an edge crosses a band's middle out of range. `edges` and `at` are room to work in.
// `write_bands` has the same loop: one that takes as a closure what is done with a band would also have to carry, from band to band, what that asks: how
// many quads there are so far, and room for them.
fn tally_bands(bands: Bands<'_>, edges: &mut [usize], at: &mut [f64]) -> Option<Tally>
    requires { spec.Worked bands.ring.ring.ys.now (length edges.old) (length at.old) }
    ensures { spec.BandsAs bands.entry.ring.ring.xs.now bands.entry.ring.ring.ys.now (bands_of bands.entry.levels.now) result }
{
    let ring = bands.ring.ring;
    let levels = bands.levels;
    let mut t = Tally {
        quads: 0,
        inside: true,
    };
    let mut below = binary64::minus_infinity();
    let mut count = 0;
    for k in 1..levels.len() {
        let band = Band {
            low: levels[k - 1],
            high: levels[k],
        };
        let y = middle(band);
        count = cross(ring, below, y, edges, at, count)?;
        let numbers = &edges[..count];
        t = tally_quads(Edges { ring, numbers }, band, t);
        below = y;
    }
    Some(t)
}

// What the scanline answers: 3, 9, 1 for a crossing, 11, 1 for a node. The crossings of a height are never odd in number, so 10 does not arise.
#[tactic(auto, using(crate::proofs::ScanlineLaws::few_out, crate::proofs::ScanlineLaws::level_out, crate::proofs::ScanlineLaws::crossing_out, crate::proofs::ScanlineLaws::none_out, crate::proofs::ScanlineLaws::node_out, crate::proofs::ScanlineLaws::scan_done))]
fn scan_ring(bands: Bands<'_>, edges: &mut [usize], at: &mut [f64]) -> Result<usize, Refusal>
    requires { spec.Worked bands.ring.ring.ys.now (length edges.old) (length at.old) }
    ensures { answer result ≡ map_answer length (spec.scanline_of bands.entry.ring.ring.xs.now bands.entry.ring.ring.ys.now) }
{
    if bands.ring.ring.xs.len() < 3 {
        return Err(Refusal::TooFewVertices);
    }
    if bands.levels.len() < 2 {
        return Err(Refusal::DegenerateYExtent);
    }
    let t = tally_bands(bands, edges, at).ok_or(Refusal::NumberOutOfRange)?;
    if t.quads == 0 {
        return Err(Refusal::NoTrapezoid);
    }
    if !t.inside {
        return Err(Refusal::NumberOutOfRange);
    }
    Ok(t.quads)
}

// Writes the nodes' x and y of the quads of the bands, from place p on. For callers that have found the crossings in range, and room. It is asked that nx and
// ny are equally long, as in `write_quads`: they are written, and a struct of `&mut` lists that keeps the fact cannot be lent on.
fn write_bands(
    bands: Bands<'_>,
    edges: &mut [usize],
    at: &mut [f64],
    nx: &mut [f64],
    ny: &mut [f64],
    p: usize,
)
    requires worked { spec.Worked bands.ring.ring.ys.now (length edges.old) (length at.old) }
    requires fine { spec.bands_in bands.ring.ring.xs.now bands.ring.ring.ys.now (bands_of bands.levels.now) ≡ true }
    requires room { (p + length (joined spec.quad_xs (quads_of bands.ring.ring.xs.now bands.ring.ring.ys.now)) ≤ length nx.old) × (length ny.old ≡ length nx.old) }
    ensures { (nx.new ≡ put nx.old p (joined spec.quad_xs (quads_of bands.entry.ring.ring.xs.now bands.entry.ring.ring.ys.now)))
        × (ny.new ≡ put ny.old p (joined spec.quad_ys (quads_of bands.entry.ring.ring.xs.now bands.entry.ring.ring.ys.now))) }
{
    let ring = bands.ring.ring;
    let levels = bands.levels;
    let mut below = binary64::minus_infinity();
    let mut count = 0;
    let mut place = p;
    for k in 1..levels.len() {
        let band = Band {
            low: levels[k - 1],
            high: levels[k],
        };
        let y = middle(band);
        count = cross(ring, below, y, edges, at, count).unwrap();
        let numbers = &edges[..count];
        place = write_quads(Edges { ring, numbers }, band, nx, ny, place);
        below = y;
    }
}

// Writes the nodes' z of n quads from place p on: four at the bottom, four at the top.
#[tactic(auto, using(lists::proofs::Fills::no_runs, lists::proofs::Fills::one_run, lists::proofs::Fills::all_runs))]
fn write_heights(nz: &mut [f64], p: usize, n: usize, heights: Heights)
    requires { p + n * 8 ≤ length nz.old }
    ensures { nz.new ≡ put nz.old p (runs n (λ _. spec.quad_zs heights.bottom heights.top)) }
{
    let (low, high) = (heights.bottom, heights.top);
    for i in 0..n {
        let at = p + i * 8;
        write_eight(nz, at, [low, low, low, low, high, high, high, high]);
    }
}

// Writes the node places of the two prisms of each of n quads from place p on; the first quad's first node has the number `base`.
#[tactic(auto, using(lists::proofs::Fills::no_runs, lists::proofs::Fills::one_run, lists::proofs::Fills::all_runs))]
fn write_pairs(places: &mut [u32], p: usize, n: usize, base: usize)
    requires { (p + n * 16 ≤ length places.old) × (base + n * 8 ≤ 1048576) }
    ensures { places.new ≡ put places.old p (runs n (λ i. spec.quad_places (base + i * 8))) }
{
    for i in 0..n {
        write_pair(places, p + i * 16, (base + i * 8) as u32);
    }
}

// The two prisms of the quad whose first node has the number a.
fn write_pair(places: &mut [u32], at: usize, a: u32)
    requires { (at + 16 ≤ length places.old) × (a ≤ 1048576) }
    ensures { places.new ≡ put places.old at (spec.quad_places a) }
{
    write_eight(
        places,
        at,
        [a, a + 1, a + 2, a + 4, a + 5, a + 6, UNUSED, UNUSED],
    );
    write_eight(
        places,
        at + 8,
        [a, a + 2, a + 3, a + 4, a + 6, a + 7, UNUSED, UNUSED],
    );
}

// Writes n quads that have been decided, where there is room; 12.
#[tactic(auto, using(crate::proofs::ScanlineLaws::decided, crate::proofs::ScanlineLaws::quads_few, crate::proofs::ScanlineLaws::bands_fine, crate::proofs::Rooms::room_in, crate::proofs::ScanlineLaws::sound_ring))]
fn write_scanline(
    bands: Bands<'_>,
    heights: Heights,
    edges: &mut [usize],
    at: &mut [f64],
    n: usize,
    region: u32,
    counts: Counts,
    lists: &mut MeshLists<'_>,
) -> Result<Counts, Refusal>
    requires worked { spec.Worked bands.ring.ring.ys.now (length edges.old) (length at.old) }
    requires decided { map_answer length (spec.scanline_of bands.ring.ring.xs.now bands.ring.ring.ys.now) ≡ given n }
    requires grows { Grows counts (held lists.old) }
    ensures mesh { Appends (spec.scanned counts.nodes bands.entry.ring heights) counts region (held lists.old) (held lists.new) result }
    ensures same { Same lists.old lists.new }
{
    if !has_room(8 * n, counts.nodes, lists.xs.len()) {
        return Err(Refusal::OutputTooShort);
    }
    if !has_room(2 * n, counts.elements, lists.kinds.len()) {
        return Err(Refusal::OutputTooShort);
    }
    let xs = &mut *lists.xs;
    let ys = &mut *lists.ys;
    write_bands(bands, edges, at, xs, ys, counts.nodes);
    write_heights(lists.zs, counts.nodes, n, heights);
    let prism = u8::from(ElementType::Prism);
    fill(lists.kinds, counts.elements, 2 * n, prism);
    write_pairs(lists.places, 8 * counts.elements, n, counts.nodes);
    fill(lists.regions, counts.elements, 2 * n, region);
    Ok(Counts {
        nodes: counts.nodes + 8 * n,
        elements: counts.elements + 2 * n,
    })
}

// Meshes a ring of N points or fewer, cleaned once, by the scanline. Its room is of N entries, since there is no heap.
fn mesh_levels<const N: usize>(
    extrusion: Extrusion<'_>,
    region: u32,
    counts: Counts,
    lists: &mut MeshLists<'_>,
) -> Result<Counts, Refusal>
    requires ring { (length extrusion.ring.ring.ys.now ≤ N) × (N ≤ 512) }
    requires grows { Grows counts (held lists.old) }
    ensures mesh { Appends (spec.scanned counts.nodes extrusion.entry.ring extrusion.entry.heights) counts region (held lists.old) (held lists.new) result }
    ensures same { Same lists.old lists.new }
{
    let mut heights = [0.0; N];
    let mut edges = [0usize; N];
    let mut at = [0.0; N];
    let levels = level_list(extrusion.ring.ring.ys, &mut heights);
    let bands = Bands {
        ring: extrusion.ring,
        levels,
    };
    let n = scan_ring(bands, &mut edges, &mut at)?;
    write_scanline(
        bands,
        extrusion.heights,
        &mut edges,
        &mut at,
        n,
        region,
        counts,
        lists,
    )
}

// Meshes a ring, cleaned once, by the scanline: 3, 9, 1, 11, 1, 12; with room to work in for a small ring or a large one. A size chooses a const
// parameter here, in `mesh_again` and in `clip_ring`: a function that takes the step for either size would take two closures.
pub fn mesh_scanline(
    extrusion: Extrusion<'_>,
    region: u32,
    counts: Counts,
    lists: &mut MeshLists<'_>,
) -> Result<Counts, Refusal>
    requires { Grows counts (held lists.old) }
    ensures mesh { Appends (spec.scanned counts.nodes extrusion.entry.ring extrusion.entry.heights) counts region (held lists.old) (held lists.new) result }
    ensures same { Same lists.old lists.new }
{
    if extrusion.ring.ring.xs.len() <= 32 {
        return mesh_levels::<32>(extrusion, region, counts, lists);
    }
    mesh_levels::<512>(extrusion, region, counts, lists)
}

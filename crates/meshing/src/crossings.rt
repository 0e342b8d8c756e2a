// The edges of a ring that cross a height, from left to right. Edge e runs from vertex e to the next. The list of edges is room that all bands share, so
// a function that fills its start says how many it filled; `at` is room for one sort, and no part of what goes from band to band.
ghost use Rattle.std.specs.Prelude.{◌≡◌, ◌+◌, ◌≤◌, ◌<◌, length, take, drop, get_or, is_some};
ghost use Rattle.lists.specs.Lists.{Below, elems, passing};
ghost use Rattle.lists.specs.Counts.{SameEntries};
ghost use Rattle.lists.specs.Sorts.{slot, insert_at};
ghost use Rattle.binary64.specs.Numbers.{at as entry};
ghost use Rattle.meshing.specs.Crossings as spec;

use openrdson_core::{Point, Ring, next_place};

// The first m of `edges` are those that span the height `below`, in any order. Puts in their place those that cross the height y, from left to right, and
// counts them; none if one crosses it out of range. The edges of one band are nearly those of the next, in nearly the same order, and are sorted quickly.
pub fn cross(
    ring: Ring<'_>,
    below: f64,
    y: f64,
    edges: &mut [usize],
    at: &mut [f64],
    m: usize,
) -> Option<usize>
    requires { (length ring.ys.now ≤ length edges.old) × (length ring.ys.now ≤ length at.old) × (m ≤ length edges.old) × SameEntries (take m edges.old) (spec.spanning ring.ys.now below) }
    ensures { spec.CrossedAs ring.entry.xs.now ring.entry.ys.now y result edges.new }
{
    let count = next_edges(ring, below, y, edges, m);
    sort_crossings(ring, y, &mut edges[..count], at)?;
    Some(count)
}

// The first m of `edges` are those that span the height `below`, in any order. Puts in their place those that span the height y, and counts them: first
// those that span both, in their order, then the others.
#[tactic(auto, using(crate::proofs::CrossingLaws::spanning_below, crate::proofs::CrossingLaws::next_most, crate::proofs::CrossingLaws::next_spanning, lists::proofs::Parts::between_lent, lists::proofs::Passing::same_between, lists::proofs::Places::below_drop))]
fn next_edges(ring: Ring<'_>, below: f64, y: f64, edges: &mut [usize], m: usize) -> usize
    requires { (length ring.ys.now ≤ length edges.old) × (m ≤ length edges.old) × SameEntries (take m edges.old) (spec.spanning ring.ys.now below) }
    ensures { SameEntries (take result edges.new) (spec.spanning ring.entry.ys.now y) × (result ≤ length ring.entry.ys.now) }
{
    let kept = keep_spanning(ring.ys, y, &mut edges[..m]);
    let count = kept + add_spanning(ring.ys, below, y, &mut edges[kept..]);
    turn_if_falling(ring, y, &mut edges[kept..count]);
    count
}

// Whether just one end of edge e lies at the height y or below it.
fn spans(ys: &[f64], y: f64, e: usize) -> bool
    requires { e < length ys.now }
    ensures { result ≡ spec.spans ys.now y e }
{
    let f = next_place(ys.len(), e);
    (ys[e] <= y) != (ys[f] <= y)
}

// Moves the edges that span the height y to the start of the list, and counts them. By hand: std has `retain` for lists on the heap alone, and the libraries
// have no heap and rest on std alone (README). `drop_close` (levels.rt) says why this is a loop of its own.
fn keep_spanning(ys: &[f64], y: f64, edges: &mut [usize]) -> usize
    requires { Below (length ys.now) edges.old }
    ensures { (take result edges.new ≡ passing (spec.spans ys.now y) edges.old) × (result ≤ length edges.old) }
{
    let mut count = 0;
    for i in 0..edges.len() {
        let e = edges[i];
        if spans(ys, y, e) {
            edges[count] = e;
            count += 1;
        }
    }
    count
}

// Writes the edges that span the height y and not the height `below` over the start of the list, and counts them.
fn add_spanning(ys: &[f64], below: f64, y: f64, edges: &mut [usize]) -> usize
    requires { length (passing (spec.new_at ys.now below y) (elems (length ys.now) (λ e. e))) ≤ length edges.old }
    ensures { (take result edges.new ≡ passing (spec.new_at ys.now below y) (elems (length ys.now) (λ e. e)))
        × (result ≡ length (passing (spec.new_at ys.now below y) (elems (length ys.now) (λ e. e)))) }
{
    let n = ys.len();
    if n == 0 {
        return 0;
    }
    let mut count = 0;
    let first_low = ys[0] <= y;
    let mut is_low = first_low;
    for e in 0..n {
        let end_low = if e + 1 < n { ys[e + 1] <= y } else { first_low };
        if is_low != end_low && !spans(ys, below, e) {
            edges[count] = e;
            count += 1;
        }
        is_low = end_low;
    }
    count
}

// x at the height y on the line from a to b.
#[tactic(auto, unfolding(crate::specs::Crossings::line_at))]
fn line_at(a: Point, b: Point, y: f64) -> f64
    ensures { result ≡ spec.line_at a b y }
{
    if binary64::abs(b.y - a.y) < 1e-300 {
        return a.x;
    }
    a.x + (y - a.y) / (b.y - a.y) * (b.x - a.x)
}

// x at the height y on edge e.
#[tactic(auto, unfolding(crate::specs::Crossings::edge_at))]
pub fn edge_at(ring: Ring<'_>, y: f64, e: usize) -> f64
    requires { e < length ring.xs.now }
    ensures { result ≡ spec.edge_at ring.entry.xs.now ring.entry.ys.now y e }
{
    let f = next_place(ring.ys.len(), e);
    line_at(ring.point(e), ring.point(f), y)
}

// Reverses the edges if the last crosses the height left of the first: the new edges of a ring may come from right to left. Here, and where edges are kept
// and sorted, it is asked that they are the ring's: a type could not keep that fact while they move.
#[tactic(auto, using(lists::proofs::Places::below_at, lists::proofs::Counts::total_reverse))]
fn turn_if_falling(ring: Ring<'_>, y: f64, edges: &mut [usize])
    requires { Below (length ring.xs.now) edges.old }
    ensures { SameEntries edges.new edges.old }
{
    let m = edges.len();
    if m < 2 {
        return;
    }
    if edge_at(ring, y, edges[m - 1]) < edge_at(ring, y, edges[0]) {
        edges.reverse();
    }
}

// Sorts the edges by x at the height y, and those that cross it at one x by their number; none if one crosses it out of range. By hand: each x is worked out
// once and moves with its edge in a second list, and std sorts one list.
#[tactic(auto, using(crate::proofs::CrossingLaws::sorting_start))]
fn sort_crossings(ring: Ring<'_>, y: f64, edges: &mut [usize], at: &mut [f64]) -> Option<()>
    requires { (length edges.old ≤ length at.old) × Below (length ring.xs.now) edges.old }
    ensures { spec.SortedAs ring.entry.xs.now ring.entry.ys.now y edges.old (is_some result) edges.new }
{
    for i in 0..edges.len() {
        let e = edges[i];
        let x = edge_at(ring, y, e);
        if !binary64::coordinate_in_range(x) {
            return None;
        }
        insert_crossing(edges, at, i, x, e);
    }
    Some(())
}

// Puts e into the first m edges where it goes, and x into the first m of `at` at the same place. Later edges are kept:
// they are not sorted yet. One loop finds the place and moves both lists: a search and a `copy_within` for each list would go over them three times.
#[tactic(auto, using(lists::proofs::Sorts::shift_start, lists::proofs::Sorts::shift_end, lists::proofs::Sorts::shift_past, lists::proofs::Sorts::stops_first))]
fn insert_crossing(edges: &mut [usize], at: &mut [f64], m: usize, x: f64, e: usize)
    requires { (m < length edges.old) × (m < length at.old) }
    ensures { (take (m + 1) edges.new ≡ insert_at (slot (λ k. spec.goes_before x e (entry at.old k) (get_or edges.old k 0)) m) e (take m edges.old))
        × (take (m + 1) at.new ≡ insert_at (slot (λ k. spec.goes_before x e (entry at.old k) (get_or edges.old k 0)) m) x (take m at.old))
        × (drop (m + 1) edges.new ≡ drop (m + 1) edges.old) }
{
    for k in (0..m).rev() {
        let left_x = at[k];
        let left = edges[k];
        if !goes_before(x, e, left_x, left) {
            at[k + 1] = x;
            edges[k + 1] = e;
            return;
        }
        at[k + 1] = left_x;
        edges[k + 1] = left;
    }
    at[0] = x;
    edges[0] = e;
}

// Whether edge d, which crosses at x, goes before edge e, which crosses at z. By hand: f64 has no total order, and this asks for neither `==` nor a number.
fn goes_before(x: f64, d: usize, z: f64, e: usize) -> bool
    ensures { result ≡ spec.goes_before x d z e }
{
    (x < z) | (!(z < x) & (d < e))
}

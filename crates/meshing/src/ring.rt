// Rings: their points and neighbours, and cleaning, which drops a point that is close to the one before it.
ghost use Rattle.std.specs.Prelude.{◌≡◌, true, ◌≤◌, ◌<◌, length};
ghost use Rattle.lists.specs.Lists.{put, elems, Below, prev_of};
ghost use Rattle.meshing.specs.Ring.{is_close, kept, gathered, CleanedAs, CleanedIn};

use openrdson_core::{Point, Refusal, Ring};

// 2^-52, Rust's f64::EPSILON.
const TINY: f64 = 2.220446049250313e-16;

// The place before place i on a ring of m places, as `next_place` of openrdson_core.
pub fn prev_place(m: usize, i: usize) -> usize
    requires { i < m }
    ensures { (result ≡ prev_of m i) × (result < m) }
{
    if i > 0 {
        return i - 1;
    }
    m - 1
}

// Writes a ring without the points that are close to the last one kept, and counts those that are kept; 16, 2, 1, 12. The call takes a ring's two lists by
// themselves, as they are lent.
pub fn dedup_ring(
    xs: &[f64],
    ys: &[f64],
    out_x: &mut [f64],
    out_y: &mut [f64],
) -> Result<usize, Refusal>
    ensures { CleanedAs xs.now ys.now out_x.old out_y.old result out_x.new out_y.new }
{
    if out_x.len() != out_y.len() {
        return Err(Refusal::UnequalLists);
    }
    let sound = Ring::checked(xs, ys)?;
    clean_where_room(sound.ring, out_x, out_y).ok_or(Refusal::OutputTooShort)
}

// Whether no point of a ring is close to the one before it, and the last is not to the first: cleaning then keeps all of them.
#[tactic(auto, using(crate::proofs::RingLaws::clean_few))]
pub fn is_clean(ring: Ring<'_>) -> bool
    ensures { result ≡ true → kept ring.entry.xs.now ring.entry.ys.now ≡ elems (length ring.entry.xs.now) (λ i. i) }
{
    let n = ring.xs.len();
    if n < 2 {
        return true;
    }
    let apart = (1..n).all(|i| !is_close(ring.point(i - 1), ring.point(i)));
    apart && !is_close(ring.point(0), ring.point(n - 1))
}

// The places of the points that are kept, written over the start of `places`. `drop_close` (levels.rt) says why this is a loop
// of its own.
fn kept_places<'a>(ring: Ring<'_>, places: &'a mut [usize; 512]) -> &'a [usize]
    ensures are { result.now ≡ kept ring.entry.xs.now ring.entry.ys.now }
    ensures below { Below (length ring.entry.xs.now) result.now }
    ensures within { length result.now ≤ length ring.entry.xs.now }
{
    let n = ring.xs.len();
    if n == 0 {
        return &places[..0];
    }
    let first = ring.point(0);
    places[0] = 0;
    let mut last = first;
    let mut count = 1;
    for i in 1..n {
        let point = ring.point(i);
        if !is_close(last, point) {
            places[count] = i;
            count += 1;
            last = point;
        }
    }
    if count > 1 && is_close(first, last) {
        count -= 1;
    }
    &places[..count]
}

// Writes the points of a ring that are kept over the start of two lists, and counts them; none where there is no room. It is asked that the lists are equally
// long: they are written, and a struct of `&mut` lists that keeps the fact cannot be lent on.
fn clean_where_room(ring: Ring<'_>, out_x: &mut [f64], out_y: &mut [f64]) -> Option<usize>
    requires { length out_y.old ≡ length out_x.old }
    ensures { CleanedIn ring.entry.xs.now ring.entry.ys.now out_x.old out_y.old result out_x.new out_y.new }
{
    let mut places = [0usize; 512];
    let kept = kept_places(ring, &mut places);
    if kept.len() > out_x.len() {
        return None;
    }
    gather_into(ring.xs, kept, out_x);
    gather_into(ring.ys, kept, out_y);
    Some(kept.len())
}

// Writes the points of a ring that are kept over the start of two lists: the ring of these. A ring has at most 512 places, and there is no heap.
pub fn clean_into<'a>(
    ring: Ring<'_>,
    out_x: &'a mut [f64; 512],
    out_y: &'a mut [f64; 512],
) -> Ring<'a>
    ensures kept_x { result.xs.now ≡ gathered ring.entry.xs.now (kept ring.entry.xs.now ring.entry.ys.now) }
    ensures kept_y { result.ys.now ≡ gathered ring.entry.ys.now (kept ring.entry.xs.now ring.entry.ys.now) }
{
    let Some(n) = clean_where_room(ring, out_x, out_y) else {
        unreachable!()
    };
    let xs = &out_x[..n];
    let ys = &out_y[..n];
    Ring { xs, ys }
}

// Whether the points differ by less than 2^-52 in x and in y.
fn is_close(a: Point, b: Point) -> bool
    ensures { result ≡ is_close a b }
{
    if binary64::abs(a.x - b.x) < TINY {
        return binary64::abs(a.y - b.y) < TINY;
    }
    false
}

// Writes the numbers of l at the places over the start of out: cleaning is defined by places. For callers whose places lie in l and have room in out.
#[tactic(auto, using(lists::proofs::Fills::no_elems, lists::proofs::Places::below_at))]
fn gather_into(l: &[f64], places: &[usize], out: &mut [f64])
    requires { Below (length l.now) places.now × (length places.now ≤ length out.old) }
    ensures { out.new ≡ put out.old 0 (gathered l.now places.now) }
{
    for (i, &k) in places.iter().enumerate() {
        out[i] = l[k];
    }
}

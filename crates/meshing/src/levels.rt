// The heights between which the scanline has its bands. They grow in room that is lent, so a function says how many entries of it count.
ghost use Rattle.std.specs.Prelude.{◌≡◌, true, ◌+◌, ◌-◌, ◌≤◌, ◌<◌, length, take};
ghost use Rattle.std.specs.Float.Ieee.{lt};
ghost use Rattle.lists.specs.Lists.{all_of};
ghost use Rattle.lists.specs.Sorts.{slot, insert_at, insert_by};
ghost use Rattle.binary64.specs.Numbers.{at as entry, at_most};
ghost use Rattle.meshing.specs.Levels as spec;

// From one level to the next.
#[derive(Clone, Copy)]
pub struct Band {
    pub low: f64,
    pub high: f64,
}

// The levels of ys, in rising order, written over the start of `out`. For callers that have checked the ring and found room.
pub fn level_list<'a>(ys: &[f64], out: &'a mut [f64]) -> &'a [f64]
    requires { (length ys.now ≤ length out.old) × (all_of (at_most 20) ys.now ≡ true) }
    ensures are { result.now ≡ spec.levels ys.now }
    ensures within { length result.now ≤ length ys.now }
{
    let mut count = 0;
    for i in 0..ys.len() {
        count = add_level(out, count, ys[i]);
    }
    let apart = drop_close(&mut out[..count]);
    &out[..apart]
}

// Puts y among the first m of l, which rise, unless one of them equals it: a second height that is equal changes no level. Gives how many there are then.
// One caller has the list and how many of it count: a struct of the two would be no plainer.
// Not by std's `sort_unstable_by`: that sorts all heights before any is dropped, by an order that f64 has not, and here a height that is there is found at once.
fn add_level(l: &mut [f64], m: usize, y: f64) -> usize
    requires { (m < length l.old) × (all_of (at_most 20) (take m l.old) ≡ true) × (at_most 20 y ≡ true) }
    ensures { spec.LevelsAlike (take result l.new) (insert_by lt y (take m l.old)) × (all_of (at_most 20) (take result l.new) ≡ true) × (result ≤ m + 1) }
{
    let k = level_slot(&l[..m], y);
    if k > 0 && l[k - 1] == y {
        return m;
    }
    insert_level(&mut l[..m + 1], k, y);
    m + 1
}

// Where y goes in l: it moves left, from the end, past those above it.
fn level_slot(l: &[f64], y: f64) -> usize
    ensures { (result ≡ slot (λ k. lt y (entry l.now k)) (length l.now)) × (result ≤ length l.now) }
{
    l.iter()
        .rposition(|level| !(y < *level))
        .map_or(0, |k| k + 1)
}

// Puts y at place k of l; those from k on move one to the right, and the last is dropped. Each moves once: arrayvec's `insert` reverses
// parts of the list, with several moves each.
#[tactic(auto, using(crate::proofs::LevelLaws::level_put))]
fn insert_level(l: &mut [f64], k: usize, y: f64)
    requires { k < length l.old }
    ensures { l.new ≡ insert_at k y (take (length l.old - 1) l.old) }
{
    let last = l.len() - 1;
    l.copy_within(k..last, k + 1);
    l[k] = y;
}

// Moves those of l that are not within 1e-15 of the last kept to its start, and counts them. `keep_spanning` (crossings.rt) and `kept_places` (ring.rt) have
// loops of the same form: the one tests without the last kept, the other keeps places of another list, and one function for all three would be no plainer.
fn drop_close(l: &mut [f64]) -> usize
    ensures { (take result l.new ≡ spec.apart l.old) × (result ≤ length l.old) }
{
    let n = l.len();
    if n == 0 {
        return 0;
    }
    let mut last = l[0];
    let mut count = 1;
    for i in 1..n {
        let y = l[i];
        if !(binary64::abs(y - last) < 1e-15) {
            l[count] = y;
            count += 1;
            last = y;
        }
    }
    count
}

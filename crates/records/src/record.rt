// A record: words of eight bytes, little-endian.
ghost use Rattle.std.specs.Prelude.{◌≡◌, ◌≤◌, ◌+◌, ◌*◌, ◌-◌, map, min};
ghost use Rattle.std.specs.List.{range_with_len};
ghost use Rattle.arrayvec.specs.ArrayVec.{array_vec_len};
ghost use Rattle.records.specs.Words as spec;

use crate::entry::{Entry, Lent};
use arrayvec::ArrayVec;
use std::ops::Range;

#[derive(Clone, Copy)]
pub struct Record<'a>(pub &'a [u8]);

impl<'a> Record<'a> {
    // The record from word i on, empty past its end.
    #[tactic(auto, using(std::proofs::lemmas::Grind::common_steps))]
    pub fn after(self, i: usize) -> Self
        ensures { result.0.now ≡ spec.after self.entry.0.now i }
    {
        Record(self.0.get(i.saturating_mul(8)..).unwrap_or(&[]))
    }

    // The word at place i, and 0 past the end.
    #[tactic(auto, unfolding(crate::specs::Words::first_word))]
    pub fn word(self, i: usize) -> u64
        ensures { result ≡ spec.word self.entry.0.now i }
    {
        match self.after(i).0.first_chunk() {
            Some(word) => u64::from_le_bytes(*word),
            None => 0,
        }
    }

    // The entry at place i.
    pub fn at<T: Entry>(self, i: usize) -> T
        ensures { result ≡ T.of_word (spec.word self.entry.0.now i) }
    {
        T::of(self.word(i))
    }

    // The n entries from place i on, or the first N where there are more.
    pub fn list<T: Entry, const N: usize>(self, i: usize, n: usize) -> ArrayVec<T, N>
        ensures len { array_vec_len result ≡ min n N }
        ensures items { result.items ≡ map (λ k. T.of_word (spec.word (spec.after self.entry.0.now i) k)) (range_with_len 0 (min n N)) }
    {
        let mut list = ArrayVec::new();
        self.list_into(i, n, &mut list);
        list
    }

    // The same in a list that is lent: a large one that is returned would be copied whole, however few its entries are.
    pub fn list_into<T: Entry, const N: usize>(self, i: usize, n: usize, list: &mut ArrayVec<T, N>)
        ensures len { array_vec_len list.new ≡ min n N }
        ensures items { list.new.items ≡ map (λ k. T.of_word (spec.word (spec.after self.entry.0.now i) k)) (range_with_len 0 (min n N)) }
    {
        let rest = self.after(i);
        list.clear();
        for k in 0..n.min(N) {
            list.push(rest.at(k));
        }
    }

    // The word at place i, or `most` where it is above.
    pub fn at_most(self, i: usize, most: usize) -> usize
        ensures bound { result ≤ most }
        ensures value { result ≡ min most (spec.word self.entry.0.now i) }
    {
        most.min(self.at(i))
    }

    // A list's length at place i, or 1,024 where it is longer.
    pub fn length(self, i: usize) -> usize
        ensures bound { result ≤ 1024 }
        ensures value { result ≡ min 1024 (spec.word self.entry.0.now i) }
    {
        self.at_most(i, 1024)
    }

    // The sum of the words at these places, each counted as `most` where it is above.
    pub fn sum(self, places: Range<usize>, most: usize) -> usize
        requires fits { most * (places.end - places.start) ≤ 65536 }
        ensures bound { result ≤ most * (places.end - places.start) }
        ensures value { result ≡ spec.sum_of most self.entry.0.now places.start (places.end - places.start) }
    {
        // A loop: the check does not find that std's `sum` of these words fits.
        let mut sum = 0;
        for i in places.start..places.end {
            sum += self.at_most(i, most);
        }
        sum
    }

    // Whether the words at these places are at most so large.
    pub fn are_within(self, mut places: Range<usize>, most: u64) -> bool
        ensures { result ≡ spec.are_within self.entry.0.now places.start places.end most }
    {
        places.all(|i| self.word(i) <= most)
    }

    // The bytes of a part, and none where it ends past the record's end.
    #[tactic(auto, unfolding(crate::specs::Words::part))]
    pub fn bytes(self, part: Range<usize>) -> &'a [u8]
        ensures { result.now ≡ spec.part self.entry.0.now part.start part.end }
    {
        self.0.get(part).unwrap_or(&[])
    }

    // The byte where part i starts: the parts' lengths are the words from word 1 on, and their bytes stand one after the other from byte `head` on.
    fn part_start(self, head: usize, i: usize) -> usize
        requires head { head ≤ 288 }
        requires number { i ≤ 8 }
        ensures low { head ≤ result }
        ensures high { result ≤ head + 1024 * (i - 1) }
        ensures value { result ≡ spec.part_start self.entry.0.now head i }
    {
        head + self.sum(1..i, 1024)
    }

    // The bytes of part i.
    pub fn part(self, head: usize, i: usize) -> &'a [u8]
        requires head { head ≤ 288 }
        requires number { i ≤ 8 }
        ensures { result.now ≡ spec.part self.entry.0.now (spec.part_start self.entry.0.now head i) (spec.part_start self.entry.0.now head i + min 1024 (spec.word self.entry.0.now i)) }
    {
        let start = self.part_start(head, i);
        self.bytes(start..start + self.length(i))
    }

    // The first word after n parts and their padding.
    pub fn after_parts(self, head: usize, n: usize) -> usize
        requires head { head ≤ 288 }
        requires number { n ≤ 7 }
        ensures low { head ≤ 8 * result }
        ensures high { 8 * result ≤ head + 1024 * n + 7 }
        ensures past { spec.part_start self.entry.0.now head (n + 1) ≤ 8 * result }
        ensures next { 8 * result ≤ spec.part_start self.entry.0.now head (n + 1) + 7 }
    {
        self.part_start(head, n + 1).div_ceil(8)
    }

    // Whether the record begins with the words of these entries.
    pub fn begins<T: Entry>(self, entries: &[T]) -> bool
        ensures { result ≡ spec.begins T.to_word self.entry.0.now entries.now }
    {
        entries
            .iter()
            .enumerate()
            .all(|(k, x)| x.word() == self.word(k))
    }

    // Whether a list that was lent has the entries of `written` from place i on, and is as before elsewhere.
    pub fn is_left<T: Lent>(self, i: usize, list: &[T], written: Range<usize>) -> bool
        ensures { result ≡ spec.is_left T.Entry.to_word T.BEFORE (spec.after self.entry.0.now i) list.now written.start written.end }
    {
        let from = written.start.min(list.len());
        let (head, rest) = list.split_at(from);
        let (new, tail) = rest.split_at(written.len().min(rest.len()));
        is_before(head) && is_before(tail) && self.after(i).begins(new)
    }
}

// Whether a list that was lent is as before.
fn is_before<T: Lent>(list: &[T]) -> bool
    ensures { result ≡ spec.all_are T.Entry.to_word T.BEFORE list.now }
{
    let before = T::BEFORE.word();
    list.iter().all(|x| x.word() == before)
}

// Where the parts of a record stand. Its head is 36 words: the call's number (word 0); the lengths of its lists (1 to 6 the blocks, in bytes; 7 and 8 the
// points; 9 to 12 the polygons; 13 to 24 the regions; 25 the outcomes); six floats (26 to 31), a material and a net (32, 33); the status and a value (34, 35).
// Then the lists stand in this order.
ghost use Rattle.std.specs.Prelude.{◌≤◌};

use arrayvec::ArrayVec;
use openrdson_core::Blocks;
use records::{Entry, Record};

// The byte where the blocks start, and below it how many blocks a record has.
const BLOCKS: usize = 288;

const COUNT: usize = 6;

// The record's blocks.
pub fn blocks(record: Record<'_>) -> Blocks<'_> {
    Blocks {
        names: record.part(BLOCKS, 1),
        conducting: record.part(BLOCKS, 2),
        via: record.part(BLOCKS, 3),
        conductors: record.part(BLOCKS, 4),
        diffusions: record.part(BLOCKS, 5),
        vias: record.part(BLOCKS, 6),
    }
}

// The word where the points start: after the blocks and their padding.
fn points_place(record: Record<'_>) -> usize
    ensures low { 36 ≤ result }
    ensures high { result ≤ 804 }
{
    record.after_parts(BLOCKS, COUNT)
}

// The lists after the points: those of the polygons, those of the regions, and the outcomes. A case's number is that of the word with the list's length.
#[derive(Clone, Copy)]
pub enum List {
    Layers = 9,
    Nets,
    Starts,
    Counts,
    Kinds,
    MinX,
    MinY,
    MaxX,
    MaxY,
    ZBottom,
    ZTop,
    RegionStarts,
    RegionCounts,
    Materials,
    RegionNets,
    Polygons,
    Outcomes,
}

impl List {
    // The word with the list's length.
    fn word(self) -> usize
        ensures low { 9 ≤ result }
        ensures high { result ≤ 25 }
    {
        self as usize
    }

    // The list's length, or 16 where it is longer.
    pub fn length(self, record: Record<'_>) -> usize
        ensures { result ≤ 16 }
    {
        record.at_most(self.word(), 16)
    }

    // The word where the list starts.
    pub fn place(self, record: Record<'_>) -> usize
        ensures low { 36 ≤ result }
        ensures high { result ≤ 3108 }
    {
        points_place(record) + record.sum(7..9, 1024) + record.sum(9..self.word(), 16)
    }

    // The list's entries.
    pub fn entries<T: Entry>(self, record: Record<'_>) -> ArrayVec<T, 16> {
        record.list(self.place(record), self.length(record))
    }
}

// How many bytes a record with these lists has.
pub fn size_of(record: Record<'_>) -> usize
    ensures low { 288 ≤ result }
    ensures high { result ≤ 24992 }
{
    (List::Outcomes.place(record) + List::Outcomes.length(record)) * 8
}

// Whether the blocks and the point lists have at most 1,024 entries each, and the other lists at most 16.
pub fn are_lengths_in(record: Record<'_>) -> bool {
    record.are_within(1..9, 1024) && record.are_within(9..26, 16)
}

// The head from the status on: the status and the value.
pub fn answered(record: Record<'_>) -> Record<'_> {
    Record(record.bytes(0..BLOCKS)).after(34)
}

// The points' coordinates.
#[derive(Drop)]
pub struct Points {
    pub xs: ArrayVec<f64, 1024>,
    pub ys: ArrayVec<f64, 1024>,
}

impl Points {
    // No points.
    pub fn new() -> Self {
        Points {
            xs: ArrayVec::new(),
            ys: ArrayVec::new(),
        }
    }

    // Makes these the points of a record.
    pub fn read(&mut self, record: Record<'_>) {
        let from = points_place(record);
        let m = record.length(7);
        record.list_into(from, m, &mut self.xs);
        record.list_into(from + m, record.length(8), &mut self.ys);
    }
}

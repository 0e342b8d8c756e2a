// Where the parts of a record stand. Its head is 27 words: the call's number (word 0); the lengths of the point lists (1, 2) and of the mesh's lists (3 to 8:
// xs, ys, zs, kinds, node places, regions); the mesh's nodes and elements (9, 10); six floats (11 to 16) and two cell sizes (17, 18); a material, a region's
// number, and a part's start and count (19 to 22); the status, a value, and the mesh's nodes and elements after the call (23 to 26), both 0 where it refuses.
// Then stand the points, and what the call writes: xs, ys and zs of the nodes, then kinds, node places and regions of the elements.
ghost use Rattle.std.specs.Prelude.{◌≤◌};

use records::Record;
use std::ops::Range;

// The places of the nodes that the call writes.
pub fn nodes(record: Record<'_>) -> Range<usize>
    ensures start { result.start ≤ 64 }
    ensures end { result.end ≤ 64 }
{
    record.at_most(9, 64)..record.at_most(25, 64)
}

// The places of the elements that the call writes.
pub fn elements(record: Record<'_>) -> Range<usize>
    ensures start { result.start ≤ 32 }
    ensures end { result.end ≤ 32 }
{
    record.at_most(10, 32)..record.at_most(26, 32)
}

// The word where the points start.
pub const POINTS: usize = 27;

// The word where the nodes start: after the points.
pub fn nodes_place(record: Record<'_>) -> usize
    ensures low { 27 ≤ result }
    ensures high { result ≤ 2075 }
{
    POINTS + record.length(1) + record.length(2)
}

// The word where the elements start.
pub fn elements_place(record: Record<'_>) -> usize
    ensures low { 27 ≤ result }
    ensures high { result ≤ 2267 }
{
    nodes_place(record) + 3 * nodes(record).len()
}

// How many bytes a record with these lists has.
pub fn size_of(record: Record<'_>) -> usize
    ensures low { 216 ≤ result }
    ensures high { result ≤ 20696 }
{
    (elements_place(record) + 10 * elements(record).len()) * 8
}

// Whether the mesh has at most 64 nodes and 32 elements, in its lists and after the call.
fn is_mesh_in(record: Record<'_>) -> bool {
    let are_nodes_in = record.are_within(3..6, 64) && record.word(25) <= 64;
    let are_elements_in = record.word(6) <= 32 && record.word(7) <= 256 && record.word(8) <= 32;
    are_nodes_in && are_elements_in && record.word(26) <= 32
}

// Whether the mesh has no more than that, the point lists have at most 1,024 entries, and the material and the region's number are below 2^32.
pub fn are_numbers_in(record: Record<'_>) -> bool {
    let most = u64::from(u32::MAX);
    record.are_within(1..3, 1024) && record.are_within(19..21, most) && is_mesh_in(record)
}

// Name blocks: a count, then an array of keys and an array of values. A function that reads a cell or a block asks that it is long enough for that.
ghost use Rattle.std.specs.Prelude.{◌≡◌, true, false, not, ◌&&◌, ◌||◌, ◌+◌, ◌*◌, ◌≤◌, length};
ghost use Rattle.lists.specs.Answer.{unless, given};
ghost use Rattle.lists.specs.Lists.{part, all_below, first};
ghost use Rattle.openrdson_core.specs.Bytes.{same, zeros, unpad};
ghost use Rattle.openrdson_core.specs.Answers.{answer};
ghost use Rattle.openrdson_core.specs.Blocks as spec;

use crate::bytes::{is_name, is_same, is_zero, name_length};
use crate::refusals::Refusal;

// A cell of a block's array: a layer number of two bytes, a name, a stack entry's figures, a via's two layers.
#[derive(Clone, Copy)]
pub enum Cell {
    Number,
    Name,
    Figures,
    Ends,
}

// How many bytes a cell has. The kinds are told apart here and in `is_cell` alone.
fn width(cell: Cell) -> usize
    ensures value { result ≡ spec.width_of cell }
    ensures bound { result ≤ 64 }
{
    match cell {
        Cell::Number => 2,
        Cell::Name => 32,
        Cell::Figures => 17,
        Cell::Ends => 64,
    }
}

// Whether a stack entry's flag byte is known and its absent figures are zero. `entry_at` (tech.rt) reads the figures that are present.
#[tactic(auto, unfolding(crate::specs::Blocks::figures_ok))]
fn is_stack_entry(c: &[u8]) -> bool
    requires { length c.now ≡ 17 }
    ensures { result ≡ spec.figures_ok c.now }
{
    let flag = c[0];
    flag <= 3 && (flag % 2 == 1 || is_zero(&c[1..9])) && (flag >= 2 || is_zero(&c[9..17]))
}

// Whether a cell holds a name or is all zero.
#[tactic(auto, unfolding(crate::specs::Blocks::name_or_none))]
fn is_name_or_none(c: &[u8]) -> bool
    ensures { result ≡ spec.name_or_none c.now }
{
    is_zero(c) || is_name(c)
}

// Whether a cell is as its kind must be. A name is handed on as 32 bytes, a length that the compiler knows, so that its loops are unrolled.
fn is_cell(c: &[u8], cell: Cell) -> bool
    requires { length c.now ≡ spec.width_of cell }
    ensures { result ≡ spec.cell_ok cell c.now }
{
    match cell {
        Cell::Number => true,
        Cell::Name => is_name(&c[..32]),
        Cell::Figures => is_stack_entry(c),
        Cell::Ends => is_name_or_none(&c[..32]) && is_name_or_none(&c[32..64]),
    }
}

// Whether the n cells from place `from` on are as their kind must be.
fn all_cells(s: &[u8], from: usize, n: usize, cell: Cell) -> bool
    requires { from + n * spec.width_of cell ≤ length s.now }
    ensures { result ≡ all_below n (λ i. spec.cell_ok cell (part (from + i * spec.width_of cell) (spec.width_of cell) s.now)) }
{
    let w = width(cell);
    (0..n).all(|i| {
        let at = from + i * w;
        is_cell(&s[at..at + w], cell)
    })
}

// A cell's first eight bytes as a number, 0 where it has fewer: cells whose heads differ are not the same.
#[tactic(auto, using(crate::proofs::ByteLaws::first_eight), unfolding(crate::specs::Blocks::head))]
fn head(c: &[u8]) -> u64
    ensures { result ≡ spec.head c.now }
{
    if c.len() < 8 {
        return 0;
    }
    u64::from_le_bytes([c[0], c[1], c[2], c[3], c[4], c[5], c[6], c[7]])
}

// Whether cell n is none of the n cells of w bytes before it, which start at place 2. The heads are compared first: most names differ there, and to compare
// whole cells is a call.
fn is_new(s: &[u8], w: usize, n: usize) -> bool
    requires { 2 + n * w + w ≤ length s.now }
    ensures { result ≡ all_below n (λ j. not (same (part (2 + j * w) w s.now) (part (2 + n * w) w s.now))) }
{
    let cell = &s[2 + n * w..2 + n * w + w];
    let first = head(cell);
    (0..n).all(|j| {
        let at = 2 + j * w;
        let other = &s[at..at + w];
        head(other) != first || other != cell
    })
}

// Whether no two of the n cells of w bytes that start at place 2 are the same. The width of layer numbers is handed on as a constant: two bytes are then
// compared where they stand.
fn are_distinct(s: &[u8], w: usize, n: usize) -> bool
    requires { 2 + n * w ≤ length s.now }
    ensures { result ≡ spec.distinct n (λ i. part (2 + i * w) w s.now) }
{
    (0..n).all(|i| if w == 2 {
        is_new(s, 2, i)
    } else {
        is_new(s, w, i)
    })
}

// Whether s is a block of these keys and values, `once` where no key may stand twice: a flag, since a closure for one test more is no plainer.
#[tactic(auto, unfolding(crate::specs::Blocks::block_ok))]
fn is_block(s: &[u8], key: Cell, value: Cell, once: bool) -> bool
    ensures { result ≡ spec.block_ok key value once s.now }
{
    if s.len() < 2 {
        return false;
    }
    let n = rows(s);
    let k = width(key);
    let v = width(value);
    if n > 256 || s.len() != 2 + n * (k + v) {
        return false;
    }
    if !all_cells(s, 2, n, key) || !all_cells(s, 2 + n * k, n, value) {
        return false;
    }
    !once || are_distinct(s, k, n)
}

// Whether anything is against a block: 14.
pub fn block_check(s: &[u8], key: Cell, value: Cell, once: bool) -> Result<(), Refusal>
    ensures { answer result ≡ unless (spec.block_ok key value once s.now) 14 (given tt) }
{
    if !is_block(s, key, value, once) {
        return Err(Refusal::BlockDamaged);
    }
    Ok(())
}

// How many rows a block counts. For a caller that has found two bytes in it.
#[tactic(auto, using(crate::proofs::ByteLaws::two_bytes))]
pub fn rows(s: &[u8]) -> usize
    requires { 2 ≤ length s.now }
    ensures { result ≡ spec.count s.now }
{
    usize::from(u16::from_le_bytes([s[0], s[1]]))
}

// Whether the cell c, its padding left out, is the name.
fn is_named(c: &[u8], name: &[u8]) -> bool
    ensures { result ≡ same (unpad c.now) name.now }
{
    is_same(&c[..name_length(c)], name)
}

// The name keys of a block, as many as it counts.
#[derive(Clone, Copy)]
pub struct Keys<'a> {
    pub bytes: &'a [u8],
    ghost counted: { 2 ≤ length bytes.now },
    ghost inside: { 2 + spec.count bytes.now * 32 ≤ length bytes.now },
}

impl Keys<'_> {
    // The first row whose key is the name.
    pub fn find(self, name: &[u8]) -> Option<usize>
        ensures { result ≡ spec.row_of self.entry.bytes.now name.now }
    {
        (0..rows(self.bytes)).find(|&i| {
            let at = 2 + i * 32;
            is_named(&self.bytes[at..at + 32], name)
        })
    }
}

// Layer maps: the physical name of a logical one.
ghost use Rattle.std.specs.Prelude.{◌≡◌, ◌+◌, ◌≤◌, true, length, option_map, is_some, IfSome, IfOk};
ghost use Rattle.lists.specs.Answer.{map_answer, unless, given};
ghost use Rattle.lists.specs.Lists.{part};
ghost use Rattle.openrdson_core.specs.Bytes.{unpad};
ghost use Rattle.openrdson_core.specs.Blocks.{map_ok};
ghost use Rattle.openrdson_core.specs.Answers.{answer};
ghost use Rattle.openrdson_core.specs.Maps as spec;

use crate::blocks::{Cell, Keys, block_check, rows};
use crate::bytes::name_length;
use crate::refusals::Refusal;

// A part of a block.
#[derive(Clone, Copy, Debug, PartialEq, Eq)]
pub struct Span {
    pub start: usize,
    pub count: usize,
}

impl Span {
    // The name in the 32 bytes from place `at` on, without its padding.
    #[tactic(auto, using(lists::proofs::Parts::part_lent))]
    pub(crate) fn name_at(s: &[u8], at: usize) -> Span
        requires { at + 32 ≤ length s.now }
        ensures value { spec.spanned s.now result ≡ unpad (part at 32 s.now) }
        ensures within { spec.span_within s.now result }
        ensures start { result.start ≡ at }
    {
        let count = name_length(&s[at..at + 32]);
        Span { start: at, count }
    }

    // That part of the block. For a caller that has found it in this block.
    pub fn of(self, s: &[u8]) -> &[u8]
        requires { spec.span_within s.now self }
        ensures { result.now ≡ spec.spanned s.now self }
    {
        &s[self.start..self.start + self.count]
    }
}

// Where a physical name stands: in the conducting map or in the via map.
#[derive(Clone, Copy, Debug, PartialEq, Eq)]
pub enum NamePlace {
    Conducting(Span),
    Via(Span),
}

// A map from logical names to physical ones.
#[derive(Clone, Copy)]
pub struct LayerMap<'a> {
    pub bytes: &'a [u8],
    ghost sound: { map_ok bytes.now ≡ true },
}

impl<'a> LayerMap<'a> {
    // The map, if nothing is against its block; 14. As in layout.rt and tech.rt, where another kind of block is judged and another fact is kept.
    pub fn checked(bytes: &'a [u8]) -> Result<Self, Refusal>
        ensures fault { map_answer (λ _. tt {0}) (answer result) ≡ unless (map_ok bytes.now) 14 (given tt) }
        ensures bytes { IfOk result (λ b. b.bytes.now ≡ bytes.now) }
    {
        block_check(bytes, Cell::Name, Cell::Name, true)?;
        Ok(LayerMap { bytes })
    }

    // The part of the block that is the physical name of a logical one.
    #[tactic(auto, using(crate::proofs::BlockLaws::block_counts, crate::proofs::BlockLaws::row_found))]
    pub fn find(self, name: &[u8]) -> Option<Span>
        ensures value { option_map (spec.spanned self.entry.bytes.now) result ≡ spec.in_map self.entry.bytes.now name.now }
        ensures within { IfSome result (spec.span_within self.entry.bytes.now) }
        ensures start { IfSome result (spec.span_from (spec.start_in_map self.entry.bytes.now name.now)) }
    {
        let keys = Keys { bytes: self.bytes };
        let i = keys.find(name)?;
        Some(Span::name_at(self.bytes, 2 + rows(self.bytes) * 32 + i * 32))
    }
}

// Where the physical name of a logical one stands: the conducting map is asked first, then the via map; 14. The calls take the two blocks as they are lent.
#[tactic(auto, unfolding(crate::specs::Maps::lookup))]
pub fn name_place(conducting: &[u8], via: &[u8], name: &[u8]) -> Result<Option<NamePlace>, Refusal>
    ensures value { map_answer (option_map (spec.placed conducting.now via.now)) (answer result) ≡ spec.lookup conducting.now via.now name.now }
    ensures within { IfOk result (λ p. IfSome p (spec.place_within conducting.now via.now)) }
    ensures start { IfOk result (λ p. IfSome p (spec.place_from conducting.now via.now name.now)) }
{
    let conducting = LayerMap::checked(conducting)?;
    let via = LayerMap::checked(via)?;
    if let Some(span) = conducting.find(name) {
        return Ok(Some(NamePlace::Conducting(span)));
    }
    Ok(via.find(name).map(NamePlace::Via))
}

// Whether a map has a physical name for a logical one; 14.
pub fn look_up(conducting: &[u8], via: &[u8], name: &[u8]) -> Result<bool, Refusal>
    ensures { answer result ≡ map_answer is_some (spec.lookup conducting.now via.now name.now) }
{
    Ok(name_place(conducting, via, name)?.is_some())
}

// The physical name of a logical one, a part of one of the two maps, without its padding; empty where none is found or a map is damaged.
pub fn physical_name<'a>(conducting: &'a [u8], via: &'a [u8], name: &[u8]) -> &'a [u8]
    ensures { result.now ≡ spec.part_of (spec.lookup conducting.now via.now name.now) }
{
    match name_place(conducting, via, name) {
        Ok(Some(NamePlace::Conducting(p))) => p.of(conducting),
        Ok(Some(NamePlace::Via(p))) => p.of(via),
        _ => &[],
    }
}

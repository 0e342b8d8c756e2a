// The layout: the logical name of a layer number, and the marker rule.
ghost use Rattle.std.specs.Prelude.{◌≡◌, true, ◌<◌, option_map, IfSome, IfOk};
ghost use Rattle.lists.specs.Answer.{map_answer, unless, given};
ghost use Rattle.openrdson_core.specs.Bytes.{unpad};
ghost use Rattle.openrdson_core.specs.Blocks.{layer_names_ok, count, value_start, value_at};
ghost use Rattle.openrdson_core.specs.Maps.{spanned, span_within, span_from};
ghost use Rattle.openrdson_core.specs.Answers.{answer};
ghost use Rattle.openrdson_core.specs.Layout as spec;

use crate::blocks::{Cell, block_check, rows};
use crate::bytes::{contains, starts_with};
use crate::maps::Span;
use crate::refusals::Refusal;

// A block of layer names.
#[derive(Clone, Copy)]
pub struct LayerNames<'a> {
    pub bytes: &'a [u8],
    ghost sound: { layer_names_ok bytes.now ≡ true },
}

impl<'a> LayerNames<'a> {
    // The block, if nothing is against it; 14. `LayerMap`, `Stack` and `Vias` have a `checked` too: each judges another kind of block, and keeps another fact.
    pub fn checked(bytes: &'a [u8]) -> Result<Self, Refusal>
        ensures fault { map_answer (λ _. tt {0}) (answer result) ≡ unless (layer_names_ok bytes.now) 14 (given tt) }
        ensures bytes { IfOk result (λ b. b.bytes.now ≡ bytes.now) }
    {
        block_check(bytes, Cell::Number, Cell::Name, true)?;
        Ok(LayerNames { bytes })
    }

    // How many layers have a name.
    #[tactic(auto, using(crate::proofs::BlockLaws::block_counts))]
    pub fn rows(self) -> usize
        ensures { result ≡ count self.entry.bytes.now }
    {
        rows(self.bytes)
    }

    // The first row whose number is a layer's.
    #[tactic(auto, using(crate::proofs::LayoutLaws::pattern_is))]
    pub fn find(self, layer: i16) -> Option<usize>
        ensures { result ≡ spec.row_of_pattern self.entry.bytes.now (spec.pattern_of layer) }
    {
        self.find_pattern(layer.cast_unsigned())
    }

    // The first row whose key has these bytes.
    fn find_pattern(self, bits: u16) -> Option<usize>
        ensures { result ≡ spec.row_of_pattern self.entry.bytes.now bits }
    {
        (0..self.rows()).find(|&i| {
            let at = 2 + i * 2;
            u16::from_le_bytes([self.bytes[at], self.bytes[at + 1]]) == bits
        })
    }

    // Where the logical name of row i stands.
    #[tactic(auto, using(crate::proofs::BlockLaws::block_counts))]
    fn span_at(self, i: usize) -> Span
        requires { i < count self.bytes.now }
        ensures value { spanned self.entry.bytes.now result ≡ unpad (value_at Cell.Number Cell.Name self.entry.bytes.now i) }
        ensures within { span_within self.entry.bytes.now result }
        ensures start { result.start ≡ value_start Cell.Number Cell.Name self.entry.bytes.now i }
    {
        Span::name_at(self.bytes, 2 + self.rows() * 2 + i * 32)
    }

    // The logical name of row i, without its padding. For a caller that has found row i in the block.
    pub fn name_at(self, i: usize) -> &'a [u8]
        requires { i < count self.bytes.now }
        ensures { result.now ≡ unpad (value_at Cell.Number Cell.Name self.entry.bytes.now i) }
    {
        self.span_at(i).of(self.bytes)
    }

    // The part of the block that is a layer's logical name.
    #[tactic(auto, using(crate::proofs::LayoutLaws::layer_found))]
    fn find_name(self, layer: i16) -> Option<Span>
        ensures value { option_map (spanned self.entry.bytes.now) result ≡ spec.name_of_layer self.entry.bytes.now layer }
        ensures within { IfSome result (span_within self.entry.bytes.now) }
        ensures start { IfSome result (span_from (spec.start_of_name self.entry.bytes.now layer)) }
    {
        let i = self.find(layer)?;
        Some(self.span_at(i))
    }
}

// Where a layer's logical name stands; 14.
#[tactic(auto, unfolding(crate::specs::Layout::layer_name))]
pub fn layer_name(s: &[u8], layer: i16) -> Result<Option<Span>, Refusal>
    ensures value { map_answer (option_map (spanned s.now)) (answer result) ≡ spec.layer_name s.now layer }
    ensures within { IfOk result (λ p. IfSome p (span_within s.now)) }
    ensures start { IfOk result (λ p. IfSome p (span_from (spec.start_of_name s.now layer))) }
{
    let names = LayerNames::checked(s)?;
    Ok(names.find_name(layer))
}

// Whether a logical name is a marker's: the polygons of such a layer have no region.
#[tactic(auto, unfolding(crate::specs::Layout::is_marker))]
pub fn is_marker(name: &[u8]) -> bool
    ensures { result ≡ spec.is_marker name.now }
{
    if starts_with(name, b"seed_") || starts_with(name, b"BLOCK_") {
        return true;
    }
    contains(name, b"_prop") || contains(name, b"marker") || contains(name, b"drawing")
}

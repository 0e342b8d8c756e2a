// Calls whose answer is a part of a block: whether the bytes there are those expected.
ghost use Rattle.std.specs.Prelude.{◌≡◌, option_map, IfSome};
ghost use Rattle.std.specs.Option.{option_or};
ghost use Rattle.openrdson_core.specs.Bytes.{same};
ghost use Rattle.openrdson_core.specs.Layout.{layer_name};
ghost use Rattle.openrdson_core.specs.Maps.{lookup, spanned, span_within, start_in_map};
ghost use Rattle.openrdson_core.specs.Tech.{via_layers};
ghost use Rattle.worked.specs.Asked.{is_name, is_start, is_end, is_via};

use openrdson_core::{NamePlace, Span};

// Whether the part of the block is this name.
#[tactic(auto, using(openrdson_core::proofs::ByteLaws::same_is))]
fn part_is(block: &[u8], p: Span, name: &[u8]) -> bool
    requires { span_within block.now p }
    ensures { result ≡ same (spanned block.now p) name.now }
{
    &block[p.start..p.start + p.count] == name
}

// Whether the part of the block is this name, or is absent where the name is empty.
fn end_is(block: &[u8], end: Option<Span>, name: &[u8]) -> bool
    requires { IfSome end (span_within block.now) }
    ensures { result ≡ is_end (option_map (spanned block.now) end) name.now }
{
    match end {
        Some(p) => part_is(block, p, name),
        None => name.is_empty(),
    }
}

// Whether the layer has this name.
pub fn layer_name_is(names: &[u8], layer: i16, name: &[u8]) -> bool
    ensures { result ≡ is_name (layer_name names.now layer) name.now }
{
    match openrdson_core::layer_name(names, layer) {
        Ok(Some(p)) => part_is(names, p, name),
        _ => false,
    }
}

// Whether one of the two maps has this physical name for the one asked.
pub fn place_is(conducting: &[u8], via: &[u8], asked: &[u8], name: &[u8]) -> bool
    ensures { result ≡ is_name (lookup conducting.now via.now asked.now) name.now }
{
    match openrdson_core::name_place(conducting, via, asked) {
        Ok(Some(NamePlace::Conducting(p))) => part_is(conducting, p, name),
        Ok(Some(NamePlace::Via(p))) => part_is(via, p, name),
        _ => false,
    }
}

// Whether one of the two maps has a physical name for the one asked, and it starts there.
pub fn place_starts(conducting: &[u8], via: &[u8], asked: &[u8], start: usize) -> bool
    ensures { result ≡ is_start (lookup conducting.now via.now asked.now) (option_or (start_in_map conducting.now asked.now) (start_in_map via.now asked.now)) start }
{
    match openrdson_core::name_place(conducting, via, asked) {
        Ok(Some(NamePlace::Conducting(p) | NamePlace::Via(p))) => p.start == start,
        _ => false,
    }
}

// Whether the via has these layers; an empty name stands for an absent layer.
pub fn via_is(vias: &[u8], asked: &[u8], bottom: &[u8], top: &[u8]) -> bool
    ensures { result ≡ is_via (via_layers vias.now asked.now) bottom.now top.now }
{
    match openrdson_core::via_layers(vias, asked) {
        Ok(Some(v)) => end_is(vias, v.bottom, bottom) & end_is(vias, v.top, top),
        _ => false,
    }
}

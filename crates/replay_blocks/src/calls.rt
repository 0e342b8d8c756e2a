// The calls, and a record of each: the call's number, the slices' lengths, the layer's number, the slices, and the answer.
ghost use Rattle.std.specs.Prelude.{◌≤◌};

use openrdson_core::{
    check_blocks, is_marker, layer_name, look_up, material_number, name_place, stack_layer,
    via_layers,
};
use records::{Answer, Entry, Record};
use std::fmt;

#[derive(Clone, Copy)]
pub enum Call {
    CheckBlocks,
    LookUp,
    PhysicalName,
    LayerName,
    StackLayer,
    ViaLayers,
    MaterialNumber,
    IsMarker,
}

impl fmt::Display for Call {
    fn fmt<W: fmt::Write>(&self, f: &mut fmt::Formatter<W>) -> fmt::Result {
        f.write_str(match self {
            Call::CheckBlocks => "check_blocks",
            Call::LookUp => "look_up",
            Call::PhysicalName => "physical_name",
            Call::LayerName => "layer_name",
            Call::StackLayer => "stack_layer",
            Call::ViaLayers => "via_layers",
            Call::MaterialNumber => "material_number",
            Call::IsMarker => "is_marker",
        })
    }
}

// The byte where the slices start, and below it how many slices a record has room for.
const SLICES: usize = 72;

const COUNT: usize = 7;

// Slice i.
fn slice(record: Record<'_>, i: usize) -> &[u8]
    requires { i ≤ 8 }
{
    record.part(SLICES, i)
}

impl Call {
    // How many slices the call takes.
    fn slices(self) -> usize
        ensures { result ≤ 7 }
    {
        match self {
            Call::CheckBlocks => 6,
            Call::LookUp | Call::PhysicalName => 3,
            Call::LayerName | Call::IsMarker => 1,
            Call::StackLayer | Call::ViaLayers => 2,
            Call::MaterialNumber => 4,
        }
    }

    // Whether the layer's number is an i16, for a call that takes one, or else 0.
    fn takes(self, layer: u64) -> bool {
        match self {
            Call::LayerName => i16::of(layer).word() == layer,
            _ => layer == 0,
        }
    }

    // The answer on a record's slices.
    fn answer(self, record: Record<'_>) -> Answer {
        let first = slice(record, 1);
        let second = slice(record, 2);
        let third = slice(record, 3);
        let fourth = slice(record, 4);
        match self {
            Call::CheckBlocks => Answer::from(check_blocks(
                first,
                second,
                third,
                fourth,
                slice(record, 5),
                slice(record, 6),
            )),
            Call::LookUp => Answer::from(look_up(first, second, third)),
            Call::PhysicalName => Answer::from(name_place(first, second, third)),
            Call::LayerName => Answer::from(layer_name(first, record.at(8))),
            Call::StackLayer => Answer::from(stack_layer(first, second)),
            Call::ViaLayers => Answer::from(via_layers(first, second)),
            Call::MaterialNumber => Answer::from(material_number(first, second, third, fourth)),
            Call::IsMarker => Answer::from(is_marker(first)),
        }
    }
}

impl records::Call<8, 8256> for Call {
    const FIRST: u64 = 14;

    fn all() -> &'static [Self] {
        &[
            Call::CheckBlocks,
            Call::LookUp,
            Call::PhysicalName,
            Call::LayerName,
            Call::StackLayer,
            Call::ViaLayers,
            Call::MaterialNumber,
            Call::IsMarker,
        ]
    }

    ghost HEAD = { 72 };

    const HEAD: usize = 72;

    fn size_of(record: Record<'_>) -> usize
        ensures low { 136 ≤ result }
        ensures high { result ≤ 8256 }
    {
        (record.after_parts(SLICES, COUNT) + 8) * 8
    }

    // Whether the call's slices have at most 1,024 bytes each and the others none, and the call takes the layer's number.
    fn is_sound(self, record: Record<'_>) -> bool {
        let n = self.slices();
        record.are_within(1..n + 1, 1024)
            && record.are_within(n + 1..8, 0)
            && self.takes(record.word(8))
    }

    fn is_answered(self, record: Record<'_>) -> bool {
        let place = record.after_parts(SLICES, COUNT);
        self.answer(record).is_recorded(record.after(place))
    }
}

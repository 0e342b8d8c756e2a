// The calls whose records are replayed.
use crate::extrusions::{is_box_answered, is_polygon_answered};
use crate::places::{are_lengths_in, size_of};
use crate::stacks::is_stack_answered;
use crate::totals::is_total_answered;
use records::Record;
use std::fmt;

#[derive(Clone, Copy)]
pub enum Call {
    ExtrudePolygon,
    ExtrudeBox,
    TotalVolume,
    AssembleStack,
}

impl fmt::Display for Call {
    fn fmt<W: fmt::Write>(&self, f: &mut fmt::Formatter<W>) -> fmt::Result {
        f.write_str(match self {
            Call::ExtrudePolygon => "extrude_polygon",
            Call::ExtrudeBox => "extrude_box",
            Call::TotalVolume => "total_volume",
            Call::AssembleStack => "assemble_stack",
        })
    }
}

impl records::Call<4, 24992> for Call {
    const FIRST: u64 = 40;

    fn all() -> &'static [Self] {
        &[
            Call::ExtrudePolygon,
            Call::ExtrudeBox,
            Call::TotalVolume,
            Call::AssembleStack,
        ]
    }

    ghost HEAD = { 288 };

    const HEAD: usize = 288;

    fn size_of(record: Record<'_>) -> usize {
        size_of(record)
    }

    fn is_sound(self, record: Record<'_>) -> bool {
        are_lengths_in(record)
    }

    fn is_answered(self, record: Record<'_>) -> bool {
        match self {
            Call::ExtrudePolygon => is_polygon_answered(record),
            Call::ExtrudeBox => is_box_answered(record),
            Call::TotalVolume => is_total_answered(record),
            Call::AssembleStack => is_stack_answered(record),
        }
    }
}

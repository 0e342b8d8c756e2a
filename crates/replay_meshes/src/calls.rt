// The calls whose records are replayed.
use crate::axes::{counted, measured};
use crate::meshes::{is_recorded, meshed_box, meshed_prism};
use crate::places::{are_numbers_in, size_of};
use records::Record;
use std::fmt;

#[derive(Clone, Copy)]
pub enum Call {
    CellCount,
    AxisCoordinate,
    MeshBox,
    MeshPrism,
}

impl fmt::Display for Call {
    fn fmt<W: fmt::Write>(&self, f: &mut fmt::Formatter<W>) -> fmt::Result {
        f.write_str(match self {
            Call::CellCount => "cell_count",
            Call::AxisCoordinate => "axis_coordinate",
            Call::MeshBox => "mesh_box",
            Call::MeshPrism => "mesh_prism",
        })
    }
}

impl records::Call<4, 20696> for Call {
    const FIRST: u64 = 44;

    fn all() -> &'static [Self] {
        &[
            Call::CellCount,
            Call::AxisCoordinate,
            Call::MeshBox,
            Call::MeshPrism,
        ]
    }

    ghost HEAD = { 216 };

    const HEAD: usize = 216;

    fn size_of(record: Record<'_>) -> usize {
        size_of(record)
    }

    // Whether the numbers are ones that a record may have; a prism's start and count are below 2^32.
    fn is_sound(self, record: Record<'_>) -> bool {
        let is_part_in = match self {
            Call::MeshPrism => record.are_within(21..23, u64::from(u32::MAX)),
            _ => true,
        };
        is_part_in && are_numbers_in(record)
    }

    fn is_answered(self, record: Record<'_>) -> bool {
        match self {
            Call::CellCount => counted(record).is_recorded(record.after(23)),
            Call::AxisCoordinate => measured(record).is_recorded(record.after(23)),
            Call::MeshBox => is_recorded(record, meshed_box(record)),
            Call::MeshPrism => is_recorded(record, meshed_prism(record)),
        }
    }
}

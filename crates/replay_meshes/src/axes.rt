// Cells and coordinates on an axis.
use meshing::{axis_coordinate, cell_count};
use records::{Answer, Record};

// The answer of `cell_count`.
pub fn counted(record: Record<'_>) -> Answer {
    Answer::from(cell_count(record.at(11), record.at(12)))
}

// The answer of `axis_coordinate`. The place on the axis is in the word of a part's start.
pub fn measured(record: Record<'_>) -> Answer {
    let coordinate = axis_coordinate(record.at(11), record.at(12), record.at(13), record.at(21));
    Answer::from(coordinate)
}

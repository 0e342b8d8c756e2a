// Extruding: the region is the one row of the record's region lists, whose entries are then twelve words in a row.
ghost use Rattle.std.specs.Prelude.{◌≤◌};

use crate::places::{List, Points};
use geometry::{Columns, extrude_box, extrude_polygon};
use openrdson_core::{Bbox, Heights, Material, PolygonNumber, Refusal, Solid, SolidRegion};
use records::{Answer, Entry, Record};

// A solid's words, its kind first.
fn solid_words(solid: Solid) -> [u64; 9] {
    let columns = Columns::from(solid);
    let heights = solid.heights();
    let kind = u8::from(columns.kind).word();
    let start = columns.part.start.word();
    let count = columns.part.count.word();
    let sides = columns.sides;
    let [x0, y0, x1, y1] = [sides.min_x, sides.min_y, sides.max_x, sides.max_y].map(Entry::word);
    let [z0, z1] = [heights.bottom, heights.top].map(Entry::word);
    [kind, x0, y0, x1, y1, z0, z1, start, count]
}

// Whether the row begins with this region.
fn is_row(row: Record<'_>, region: SolidRegion) -> bool {
    let SolidRegion {
        material_id: Material(material),
        net,
        source_polygon: PolygonNumber(polygon),
        solid,
    } = region;
    row.begins(&solid_words(solid)) & row.after(9).begins(&[material, net, polygon])
}

// Whether the record has this answer: the status, one row and the region in it, or no row.
fn is_recorded(record: Record<'_>, built: Result<SolidRegion, Refusal>) -> bool {
    let row = record.after(List::Kinds.place(record));
    let said = [record.word(34), record.word(13), 0, 0, 0, 0, 0, 0];
    Answer::from(built.map(|_| 1u64)).0 == said && built.map_or(true, |region| is_row(row, region))
}

// The heights in words i and i + 1.
fn heights(record: Record<'_>, i: usize) -> Heights
    requires { i ≤ 30 }
{
    Heights {
        bottom: record.at(i),
        top: record.at(i + 1),
    }
}

// Whether `extrude_polygon` answers what the record says.
pub fn is_polygon_answered(record: Record<'_>) -> bool {
    let mut points = Points::new();
    points.read(record);
    let built = extrude_polygon(
        &points.xs,
        &points.ys,
        heights(record, 26),
        Material(record.at(32)),
        record.at(33),
    );
    is_recorded(record, built)
}

// Whether `extrude_box` answers what the record says.
pub fn is_box_answered(record: Record<'_>) -> bool {
    let sides = Bbox {
        min_x: record.at(26),
        min_y: record.at(27),
        max_x: record.at(28),
        max_y: record.at(29),
    };
    let built = extrude_box(
        sides,
        heights(record, 30),
        Material(record.at(32)),
        record.at(33),
    );
    is_recorded(record, built)
}

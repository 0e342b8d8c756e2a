// The total volume of the record's region lists.
use crate::places::{List, Points, answered};
use geometry::{Regions, total_volume};
use openrdson_core::Refusal;
use records::{Answer, Record};

// The volume of the record's regions.
fn volume(record: Record<'_>) -> Result<f64, Refusal> {
    let mut points = Points::new();
    points.read(record);
    total_volume(
        Regions {
            kinds: &List::Kinds.entries(record),
            min_x: &List::MinX.entries(record),
            min_y: &List::MinY.entries(record),
            max_x: &List::MaxX.entries(record),
            max_y: &List::MaxY.entries(record),
            z_bottom: &List::ZBottom.entries(record),
            z_top: &List::ZTop.entries(record),
            starts: &List::RegionStarts.entries(record),
            counts: &List::RegionCounts.entries(record),
            materials: &List::Materials.entries(record),
            nets: &List::RegionNets.entries(record),
            polygons: &List::Polygons.entries(record),
        },
        &points.xs,
        &points.ys,
    )
}

// Whether the call answers what the record says. Of a refusal only the status is compared.
pub fn is_total_answered(record: Record<'_>) -> bool {
    match volume(record) {
        Err(why) => record.word(34) == u64::from(u32::from(why)),
        given => Answer::from(given).is_recorded(answered(record)),
    }
}

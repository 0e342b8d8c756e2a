// Stacking: the region lists and the outcomes of the record are those after the call.
use crate::places::{List, Points, answered, blocks};
use geometry::{Polygons, RegionLists, assemble_stack};
use openrdson_core::Refusal;
use records::{Answer, Lent, Record};

// The region lists and the outcomes. The call is lent as many entries of each as the record says.
#[derive(Drop)]
struct Lists {
    kinds: [u8; 16],
    min_x: [f64; 16],
    min_y: [f64; 16],
    max_x: [f64; 16],
    max_y: [f64; 16],
    z_bottom: [f64; 16],
    z_top: [f64; 16],
    starts: [u32; 16],
    counts: [u32; 16],
    materials: [u32; 16],
    nets: [u32; 16],
    polygons: [u32; 16],
    outcomes: [u8; 16],
}

// Whether the entries are the record's list, and nothing is written past its end.
fn is_list<T: Lent>(record: Record<'_>, list: List, entries: &[T; 16]) -> bool {
    record.is_left(list.place(record), entries, 0..list.length(record))
}

impl Lists {
    // The lists before a call.
    const BEFORE: Self = Self {
        kinds: [u8::BEFORE; 16],
        min_x: [f64::BEFORE; 16],
        min_y: [f64::BEFORE; 16],
        max_x: [f64::BEFORE; 16],
        max_y: [f64::BEFORE; 16],
        z_bottom: [f64::BEFORE; 16],
        z_top: [f64::BEFORE; 16],
        starts: [u32::BEFORE; 16],
        counts: [u32::BEFORE; 16],
        materials: [u32::BEFORE; 16],
        nets: [u32::BEFORE; 16],
        polygons: [u32::BEFORE; 16],
        outcomes: [u8::BEFORE; 16],
    };

    // Whether the lists are the recorded ones.
    fn are_recorded(&self, record: Record<'_>) -> bool {
        is_list(record, List::Kinds, &self.kinds)
            && is_list(record, List::MinX, &self.min_x)
            && is_list(record, List::MinY, &self.min_y)
            && is_list(record, List::MaxX, &self.max_x)
            && is_list(record, List::MaxY, &self.max_y)
            && is_list(record, List::ZBottom, &self.z_bottom)
            && is_list(record, List::ZTop, &self.z_top)
            && is_list(record, List::RegionStarts, &self.starts)
            && is_list(record, List::RegionCounts, &self.counts)
            && is_list(record, List::Materials, &self.materials)
            && is_list(record, List::RegionNets, &self.nets)
            && is_list(record, List::Polygons, &self.polygons)
            && is_list(record, List::Outcomes, &self.outcomes)
    }
}

// What the call on the record's blocks, polygons and points answers, and how it leaves the lists.
fn stacked(record: Record<'_>) -> (Result<usize, Refusal>, Lists) {
    let mut points = Points::new();
    points.read(record);
    let mut to = Lists::BEFORE;
    let mut regions = RegionLists {
        kinds: &mut to.kinds[..List::Kinds.length(record)],
        min_x: &mut to.min_x[..List::MinX.length(record)],
        min_y: &mut to.min_y[..List::MinY.length(record)],
        max_x: &mut to.max_x[..List::MaxX.length(record)],
        max_y: &mut to.max_y[..List::MaxY.length(record)],
        z_bottom: &mut to.z_bottom[..List::ZBottom.length(record)],
        z_top: &mut to.z_top[..List::ZTop.length(record)],
        starts: &mut to.starts[..List::RegionStarts.length(record)],
        counts: &mut to.counts[..List::RegionCounts.length(record)],
        materials: &mut to.materials[..List::Materials.length(record)],
        nets: &mut to.nets[..List::RegionNets.length(record)],
        polygons: &mut to.polygons[..List::Polygons.length(record)],
    };
    let outcomes = &mut to.outcomes[..List::Outcomes.length(record)];
    let stacked = assemble_stack(
        blocks(record),
        Polygons {
            layers: &List::Layers.entries(record),
            nets: &List::Nets.entries(record),
            starts: &List::Starts.entries(record),
            counts: &List::Counts.entries(record),
            xs: &points.xs,
            ys: &points.ys,
        },
        &mut regions,
        outcomes,
    );
    (stacked, to)
}

// Whether the call answers what the record says, and leaves the lists as it says.
pub fn is_stack_answered(record: Record<'_>) -> bool {
    let (stacked, lists) = stacked(record);
    lists.are_recorded(record) && Answer::from(stacked).is_recorded(answered(record))
}

// The calls, and a record of each: the call's number, the lengths of the two lists, eight parameters, the lists, and the answer.
ghost use Rattle.std.specs.Prelude.{◌≤◌};

use arrayvec::ArrayVec;
use openrdson_core::{Bbox, Solid};
use records::{Answer, Record};
use std::fmt;

#[derive(Clone, Copy)]
pub enum Call {
    SignedArea,
    Area,
    IsCcw,
    IsRectangle,
    PointsBounds,
    BoxVolume,
    PrismVolume,
    BoxBounds,
    PrismBounds,
    Sqrt,
    Abs,
    CeilCapped,
    NearestCapped,
}

impl fmt::Display for Call {
    fn fmt<W: fmt::Write>(&self, f: &mut fmt::Formatter<W>) -> fmt::Result {
        f.write_str(match self {
            Call::SignedArea => "polygon_signed_area",
            Call::Area => "polygon_area",
            Call::IsCcw => "is_ccw",
            Call::IsRectangle => "is_axis_aligned_rectangle",
            Call::PointsBounds => "bbox_from_points",
            Call::BoxVolume => "box_volume",
            Call::PrismVolume => "prism_volume",
            Call::BoxBounds => "box_footprint_bbox",
            Call::PrismBounds => "prism_footprint_bbox",
            Call::Sqrt => "sqrt",
            Call::Abs => "abs",
            Call::CeilCapped => "ceil_capped",
            Call::NearestCapped => "nearest_capped",
        })
    }
}

fn the_box(record: Record<'_>) -> Solid {
    Solid::Box {
        min_x: record.at(3),
        min_y: record.at(4),
        max_x: record.at(5),
        max_y: record.at(6),
        z_bottom: record.at(7),
        z_top: record.at(8),
    }
}

fn the_prism(record: Record<'_>) -> Solid {
    Solid::Prism {
        z_bottom: record.at(3),
        z_top: record.at(4),
        start: record.at(5),
        count: record.at(6),
    }
}

impl Call {
    // The answer on a record's parameters and lists.
    fn answer(self, record: Record<'_>, xs: &[f64], ys: &[f64]) -> Answer {
        let x = record.at(3);
        match self {
            Call::SignedArea => Answer::from(openrdson_core::polygon_signed_area(xs, ys)),
            Call::Area => Answer::from(openrdson_core::polygon_area(xs, ys)),
            Call::IsCcw => Answer::from(openrdson_core::is_ccw(xs, ys)),
            Call::IsRectangle => Answer::from(openrdson_core::is_axis_aligned_rectangle(xs, ys)),
            Call::PointsBounds => Answer::from(Bbox::from_points(xs, ys)),
            Call::BoxVolume => Answer::from(the_box(record).volume(xs, ys)),
            Call::PrismVolume => Answer::from(the_prism(record).volume(xs, ys)),
            Call::BoxBounds => Answer::from(the_box(record).footprint_bbox(xs, ys)),
            Call::PrismBounds => Answer::from(the_prism(record).footprint_bbox(xs, ys)),
            Call::Sqrt => Answer::from(binary64::sqrt(x)),
            Call::Abs => Answer::from(binary64::abs(x)),
            Call::CeilCapped => Answer::from(binary64::ceil_capped(x)),
            Call::NearestCapped => Answer::from(binary64::nearest_capped(x).cast_unsigned()),
        }
    }
}

impl records::Call<13, 16512> for Call {
    const FIRST: u64 = 1;

    fn all() -> &'static [Self] {
        &[
            Call::SignedArea,
            Call::Area,
            Call::IsCcw,
            Call::IsRectangle,
            Call::PointsBounds,
            Call::BoxVolume,
            Call::PrismVolume,
            Call::BoxBounds,
            Call::PrismBounds,
            Call::Sqrt,
            Call::Abs,
            Call::CeilCapped,
            Call::NearestCapped,
        ]
    }

    ghost HEAD = { 24 };

    const HEAD: usize = 24;

    fn size_of(record: Record<'_>) -> usize
        ensures low { 128 ≤ result }
        ensures high { result ≤ 16512 }
    {
        (record.length(1) + record.length(2) + 16) * 8
    }

    // Whether the lists have at most 1,024 entries, and a prism's start and count are below 2^32.
    fn is_sound(self, record: Record<'_>) -> bool {
        let most = u64::from(u32::MAX);
        let is_prism = matches!(self, Call::PrismVolume | Call::PrismBounds);
        record.are_within(1..3, 1024) && (!is_prism || record.are_within(5..7, most))
    }

    fn is_answered(self, record: Record<'_>) -> bool {
        let m = record.length(1);
        let n = record.length(2);
        let mut xs = ArrayVec::<f64, 1024>::new();
        let mut ys = ArrayVec::<f64, 1024>::new();
        record.list_into(11, m, &mut xs);
        record.list_into(11 + m, n, &mut ys);
        self.answer(record, &xs, &ys)
            .is_recorded(record.after(11 + m + n))
    }
}

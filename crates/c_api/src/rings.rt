// The calls of openrdson_core on rings and bounding boxes.
// C hands each list and number over by itself, and takes each value through its own reference.
ghost use Rattle.std.specs.Prelude.{◌≡◌};
ghost use Rattle.openrdson_core.specs.Points.{of_ring};
ghost use Rattle.openrdson_core.specs.Area as areas;
ghost use Rattle.openrdson_core.specs.Rectangle as rectangles;
ghost use Rattle.openrdson_core.specs.Bounds as bounds;
ghost use Rattle.c_api.specs.Given.{Given};

use crate::answers::{give, give_bounds};
use openrdson_core::{Bbox, Point};

#[unsafe(no_mangle)]
pub extern "C" fn openrdson_polygon_signed_area(xs: &[f64], ys: &[f64], area: &mut f64) -> u32
    ensures { Given (of_ring xs.now ys.now (areas.signed_area xs.now ys.now)) result area.old area.new }
{
    give(openrdson_core::polygon_signed_area(xs, ys), area)
}

#[unsafe(no_mangle)]
pub extern "C" fn openrdson_polygon_area(xs: &[f64], ys: &[f64], area: &mut f64) -> u32
    ensures { Given (of_ring xs.now ys.now (areas.area xs.now ys.now)) result area.old area.new }
{
    give(openrdson_core::polygon_area(xs, ys), area)
}

#[unsafe(no_mangle)]
pub extern "C" fn openrdson_is_ccw(xs: &[f64], ys: &[f64], ccw: &mut bool) -> u32
    ensures { Given (of_ring xs.now ys.now (areas.is_ccw xs.now ys.now)) result ccw.old ccw.new }
{
    give(openrdson_core::is_ccw(xs, ys), ccw)
}

#[unsafe(no_mangle)]
pub extern "C" fn openrdson_is_axis_aligned_rectangle(
    xs: &[f64],
    ys: &[f64],
    rectangle: &mut bool,
) -> u32
    ensures { Given (of_ring xs.now ys.now (rectangles.is_rectangle xs.now ys.now)) result rectangle.old rectangle.new }
{
    give(openrdson_core::is_axis_aligned_rectangle(xs, ys), rectangle)
}

#[unsafe(no_mangle)]
pub extern "C" fn openrdson_bbox_from_points(
    xs: &[f64],
    ys: &[f64],
    min_x: &mut f64,
    min_y: &mut f64,
    max_x: &mut f64,
    max_y: &mut f64,
) -> u32
    ensures { Given (of_ring xs.now ys.now (bounds.bounds_of xs.now ys.now)) result (bounds.the_bbox min_x.old min_y.old max_x.old max_y.old) (bounds.the_bbox min_x.new min_y.new max_x.new max_y.new) }
{
    give_bounds(Bbox::from_points(xs, ys), min_x, min_y, max_x, max_y)
}

#[unsafe(no_mangle)]
pub extern "C" fn openrdson_bbox_empty() -> Bbox
    ensures { result ≡ bounds.empty_bbox }
{
    Bbox::empty()
}

#[unsafe(no_mangle)]
pub extern "C" fn openrdson_bbox_is_empty(b: Bbox) -> bool
    ensures { result ≡ bounds.is_empty b }
{
    b.is_empty()
}

#[unsafe(no_mangle)]
pub extern "C" fn openrdson_bbox_extend_point(b: Bbox, p: Point) -> Bbox
    ensures { result ≡ bounds.extend_point b p }
{
    b.extend_point(p)
}

#[unsafe(no_mangle)]
pub extern "C" fn openrdson_bbox_extend(b: Bbox, other: Bbox) -> Bbox
    ensures { result ≡ bounds.extend b other }
{
    b.extend(other)
}

#[unsafe(no_mangle)]
pub extern "C" fn openrdson_bbox_union(b: Bbox, other: Bbox) -> Bbox
    ensures { result ≡ bounds.extend b other }
{
    b.union(other)
}

#[unsafe(no_mangle)]
pub extern "C" fn openrdson_bbox_width(b: Bbox) -> f64
    ensures { result ≡ bounds.width b }
{
    b.width()
}

#[unsafe(no_mangle)]
pub extern "C" fn openrdson_bbox_height(b: Bbox) -> f64
    ensures { result ≡ bounds.height b }
{
    b.height()
}

#[unsafe(no_mangle)]
pub extern "C" fn openrdson_bbox_center(b: Bbox) -> Point
    ensures { result ≡ bounds.center b }
{
    b.center()
}

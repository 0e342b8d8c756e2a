// A bounding box and two heights, made in one line.
ghost use Rattle.std.specs.Prelude.{◌≡◌};
ghost use Rattle.openrdson_core.specs.Bounds.{the_bbox};

use openrdson_core::{Bbox, Heights};

// The bounding box from (x0, y0) to (x1, y1).
pub fn box_of(x0: f64, y0: f64, x1: f64, y1: f64) -> Bbox
    ensures { result ≡ the_bbox x0 y0 x1 y1 }
{
    Bbox {
        min_x: x0,
        min_y: y0,
        max_x: x1,
        max_y: y1,
    }
}

// The heights `bottom` and `top`.
pub fn heights_of(bottom: f64, top: f64) -> Heights
    ensures bottom { result.bottom ≡ bottom }
    ensures top { result.top ≡ top }
{
    Heights { bottom, top }
}

// The total volume of a region list of two rows.
ghost use Rattle.std.specs.Prelude.{◌≡◌};
ghost use Rattle.openrdson_core.specs.Answers.{answer};
ghost use Rattle.geometry.specs.Volumes.{total_volume};
ghost use Rattle.worked_geometry.specs.Expected.{two_rows};

use geometry::{NO_POLYGON, Regions, total_volume};
use openrdson_core::Refusal;

// The total of two rows of these kinds and materials: the box 0..2 by 0..1 from 0 to `top`, whose start and count are the largest u32, and a prism from
// 0 to 2 over points 1 to 3, whose first four bounds are not-a-number.
pub fn total_of_two(
    kinds: &[u8],
    materials: &[u32],
    top: f64,
    xs: &[f64],
    ys: &[f64],
) -> Result<f64, Refusal>
    ensures { answer result ≡ total_volume (two_rows kinds.now materials.now top) xs.now ys.now }
{
    let not_a_number = 0.0 / 0.0;
    let low = [0.0, not_a_number];
    let regions = Regions {
        kinds,
        min_x: &low,
        min_y: &low,
        max_x: &[2.0, not_a_number],
        max_y: &[1.0, not_a_number],
        z_bottom: &[0.0, 0.0],
        z_top: &[top, 2.0],
        starts: &[NO_POLYGON, 1],
        counts: &[NO_POLYGON, 3],
        materials,
        nets: &[0, 0],
        polygons: &[NO_POLYGON, 0],
    };
    total_volume(regions, xs, ys)
}

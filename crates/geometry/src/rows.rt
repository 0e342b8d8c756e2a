// Writing a row of a region list.
ghost use Rattle.std.specs.Prelude.{◌≡◌, [], ◌∷◌, ◌<◌, length};
ghost use Rattle.geometry.specs.Regions.{held_regions, SameRegions, Even, put_regions, columns_of};

use crate::regions::{Part, RegionLists, RowKind};
use openrdson_core::{Bbox, Footprint, Solid, SolidRegion};

// What a solid's row has beside its heights: a box's sides or a prism's part of the point lists, and zeros for what it has not.
#[derive(Clone, Copy)]
pub struct Columns {
    pub kind: RowKind,
    pub sides: Bbox,
    pub part: Part,
}

impl From<Solid> for Columns {
    ghost from_gives = { λ solid columns. columns ≡ columns_of solid };

    fn from(solid: Solid) -> Columns {
        match solid.parts().0 {
            Footprint::Sides(sides) => Columns {
                kind: RowKind::Box,
                sides,
                part: Part { start: 0, count: 0 },
            },
            Footprint::Ring { start, count } => Columns {
                kind: RowKind::Prism,
                sides: Bbox {
                    min_x: 0.0,
                    min_y: 0.0,
                    max_x: 0.0,
                    max_y: 0.0,
                },
                part: Part { start, count },
            },
        }
    }
}

// Writes the region as row k. For a caller that has found the lists equally long, and row k in them. `Even` is asked, since a struct of `&mut` lists that keeps
// the fact cannot be lent on.
pub fn put_region(regions: &mut RegionLists<'_>, k: usize, region: SolidRegion)
    requires even { Even (held_regions regions.old) }
    requires inside { k < length regions.old.kinds.now }
    ensures rows { held_regions regions.new ≡ put_regions (held_regions regions.old) k (region ∷ []) }
    ensures same { SameRegions regions.old regions.new }
{
    let columns = Columns::from(region.solid);
    regions.kinds[k] = u8::from(columns.kind);
    regions.min_x[k] = columns.sides.min_x;
    regions.min_y[k] = columns.sides.min_y;
    regions.max_x[k] = columns.sides.max_x;
    regions.max_y[k] = columns.sides.max_y;
    regions.z_bottom[k] = region.solid.z_bottom();
    regions.z_top[k] = region.solid.z_top();
    regions.starts[k] = columns.part.start;
    regions.counts[k] = columns.part.count;
    regions.materials[k] = region.material_id.0;
    regions.nets[k] = region.net;
    regions.polygons[k] = region.source_polygon.0;
}

// A region that is expected, made in one line.
ghost use Rattle.std.specs.Prelude.{◌≡◌};
ghost use Rattle.geometry.specs.Regions.{the_region, no_polygon};

use geometry::NO_POLYGON;
use openrdson_core::{Material, PolygonNumber, Solid, SolidRegion};

// The region of this material and this solid, with net 5 and no polygon.
pub fn region_of(material: u32, solid: Solid) -> SolidRegion
    ensures { result ≡ the_region material 5 no_polygon solid }
{
    SolidRegion {
        material_id: Material(material),
        net: 5,
        source_polygon: PolygonNumber(NO_POLYGON),
        solid,
    }
}

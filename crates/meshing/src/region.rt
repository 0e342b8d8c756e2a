// Meshing a region.
ghost use Rattle.std.specs.Prelude.{◌≡◌};
ghost use Rattle.openrdson_core.specs.Mesh.{held, Same};
ghost use Rattle.meshing.specs.Added.{Adds};
ghost use Rattle.meshing.specs.Regions as spec;

use crate::boxes::mesh_box;
use crate::cells::MeshConfig;
use crate::prism::mesh_prism;
use openrdson_core::{Counts, Footprint, MeshLists, Refusal, SolidRegion};

// Meshes a region, a box as `mesh_box` does or a prism as `mesh_prism` does; its elements carry the number that the caller gives.
pub fn mesh_region(
    region: SolidRegion,
    xs: &[f64],
    ys: &[f64],
    number: u32,
    config: MeshConfig,
    counts: Counts,
    lists: &mut MeshLists<'_>,
) -> Result<Counts, Refusal>
    ensures mesh { Adds (spec.mesh_region region.solid region.material_id.0 config counts xs.now ys.now (held lists.old)) counts number (held lists.old) (held lists.new) result }
    ensures same { Same lists.old lists.new }
{
    let material = region.material_id;
    let (footprint, heights) = region.solid.parts();
    match footprint {
        Footprint::Sides(bounds) => {
            if xs.len() != ys.len() {
                return Err(Refusal::UnequalLists);
            }
            mesh_box(bounds, heights, material, number, config, counts, lists)
        }
        Footprint::Ring { start, count } => mesh_prism(
            xs, ys, heights, start, count, material, number, counts, lists,
        ),
    }
}

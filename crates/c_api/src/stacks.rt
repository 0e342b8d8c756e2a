// Stacking as a C function.
// C hands each list and number over by itself, and takes each value through its own reference.
ghost use Rattle.std.specs.Prelude.{◌≡◌};
ghost use Rattle.openrdson_core.specs.Tech.{the_blocks};
ghost use Rattle.geometry.specs.Polygons.{the_polygons};
ghost use Rattle.geometry.specs.Regions.{the_regions};
ghost use Rattle.geometry.specs.Stack.{assemble_stack};
ghost use Rattle.c_api.specs.Given.{Given};
ghost use Rattle.c_api.specs.Stacks.{GivenRows};

use crate::answers::give;
use geometry::{Polygons, RegionLists, assemble_stack};
use openrdson_core::Blocks;

// The rows and the outcomes go to the start of their lists, and the number of regions through the last reference.
#[tactic(auto, using(crate::proofs::StackRows::given_rows))]
#[unsafe(no_mangle)]
pub extern "C" fn openrdson_assemble_stack(
    names: &[u8],
    conducting: &[u8],
    via: &[u8],
    conductors: &[u8],
    diffusions: &[u8],
    vias: &[u8],
    layers: &[i16],
    nets: &[u32],
    starts: &[u32],
    counts: &[u32],
    xs: &[f64],
    ys: &[f64],
    kinds: &mut [u8],
    min_x: &mut [f64],
    min_y: &mut [f64],
    max_x: &mut [f64],
    max_y: &mut [f64],
    z_bottom: &mut [f64],
    z_top: &mut [f64],
    region_starts: &mut [u32],
    region_counts: &mut [u32],
    materials: &mut [u32],
    region_nets: &mut [u32],
    polygons: &mut [u32],
    outcomes: &mut [u8],
    regions: &mut usize,
) -> u32
    ensures { GivenRows (assemble_stack (the_blocks names.now conducting.now via.now conductors.now diffusions.now vias.now) (the_polygons layers.now nets.now starts.now counts.now xs.now ys.now) (the_regions kinds.old min_x.old min_y.old max_x.old max_y.old z_bottom.old z_top.old region_starts.old region_counts.old materials.old region_nets.old polygons.old) outcomes.old) result regions.old regions.new (the_regions kinds.old min_x.old min_y.old max_x.old max_y.old z_bottom.old z_top.old region_starts.old region_counts.old materials.old region_nets.old polygons.old) (the_regions kinds.new min_x.new min_y.new max_x.new max_y.new z_bottom.new z_top.new region_starts.new region_counts.new materials.new region_nets.new polygons.new) outcomes.old outcomes.new }
{
    let blocks = Blocks {
        names,
        conducting,
        via,
        conductors,
        diffusions,
        vias,
    };
    let layout = Polygons {
        layers,
        nets,
        starts,
        counts,
        xs,
        ys,
    };
    let mut rows = RegionLists {
        kinds,
        min_x,
        min_y,
        max_x,
        max_y,
        z_bottom,
        z_top,
        starts: region_starts,
        counts: region_counts,
        materials,
        nets: region_nets,
        polygons,
    };
    let stacked = assemble_stack(blocks, layout, &mut rows, outcomes);
    give(stacked, regions)
}

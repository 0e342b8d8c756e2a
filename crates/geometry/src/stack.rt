// Stacking a layout: the regions of its polygons, and one outcome a polygon. Each function asks for `Even` of the region lists: a struct of `&mut` lists that
// keeps the fact cannot be lent on.
ghost use Rattle.std.specs.Prelude.{◌≡◌, ◌+◌, ◌<◌, ◌≤◌, length};
ghost use Rattle.lists.specs.Lists.{put};
ghost use Rattle.openrdson_core.specs.Tech.{bytes_of};
ghost use Rattle.openrdson_core.specs.SoundBlocks.{sound_bytes};
ghost use Rattle.geometry.specs.Regions.{held_regions, SameRegions, Even, put_regions};
ghost use Rattle.geometry.specs.Polygons.{polygons_of, layer_at};
ghost use Rattle.geometry.specs.Plans.{plan_of};
ghost use Rattle.geometry.specs.Table.{layer_plan};
ghost use Rattle.geometry.specs.Stack as spec;

use crate::plans::{Plan, Skip};
use crate::polygons::{Polygons, SoundPolygons};
use crate::regions::{RegionLists, RowKind};
use crate::rows::put_region;
use crate::table::{fill_plans, plan_of_layer};
use openrdson_core::{Blocks, LayerNames, PolygonNumber, Refusal, SolidRegion, SoundBlocks};

// A polygon's outcome: its row's kind, or why it has no row.
fn outcome_of(placed: Result<RowKind, Skip>) -> u8
    ensures { result ≡ spec.outcome_number placed }
{
    match placed {
        Ok(kind) => u8::from(kind),
        Err(why) => u8::from(why),
    }
}

// How many rows the plan gives a polygon.
fn rows_of(plan: Plan) -> usize
    ensures { result ≡ spec.rows_of plan }
{
    if plan.is_ok() { 1 } else { 0 }
}

// Writes the region of polygon i, if its plan gives one, as row k. For a caller that has found room for it.
#[tactic(auto, using(crate::proofs::RowLaws::no_rows))]
fn place_polygon(
    polygons: SoundPolygons<'_>,
    i: usize,
    plan: Plan,
    k: usize,
    regions: &mut RegionLists<'_>,
) -> Result<RowKind, Skip>
    requires inside { i < length polygons.lists.layers.now }
    requires even { Even (held_regions regions.old) }
    requires room { k + spec.rows_of plan ≤ length regions.old.kinds.now }
    ensures rows { held_regions regions.new ≡ put_regions (held_regions regions.old) k (spec.regions_at (polygons_of polygons.entry.lists) i plan) }
    ensures outcome { spec.outcome_number result ≡ spec.outcome_at (polygons_of polygons.entry.lists) i plan }
    ensures same { SameRegions regions.old regions.new }
{
    let slab = plan?;
    let solid = polygons.solid(i, slab.range);
    let region = SolidRegion {
        material_id: slab.material,
        net: polygons.lists.nets[i],
        source_polygon: PolygonNumber(i as u32),
        solid,
    };
    put_region(regions, k, region);
    Ok(RowKind::from(solid))
}

// How many regions the polygons give.
fn count_rows(names: LayerNames<'_>, plans: &[Plan; 256], polygons: SoundPolygons<'_>) -> usize
    ensures { result ≡ spec.rows_to (λ i. layer_plan names.entry.bytes.now plans.now (layer_at (polygons_of polygons.entry.lists) i)) (length polygons.entry.lists.layers.now) }
{
    polygons
        .lists
        .layers
        .iter()
        .filter(|layer| plan_of_layer(names, plans, **layer).is_ok())
        .count()
}

// Writes the regions of all polygons, from row 0 on, and their outcomes. For a caller that has found room for them.
#[tactic(auto, using(crate::proofs::StackLaws::one_row, crate::proofs::StackLaws::rows_few, lists::proofs::Fills::all_elems), unfolding(crate::specs::Stack::outcomes_to))]
fn place_polygons(
    names: LayerNames<'_>,
    plans: &[Plan; 256],
    polygons: SoundPolygons<'_>,
    regions: &mut RegionLists<'_>,
    outcomes: &mut [u8],
)
    requires even { Even (held_regions regions.old) }
    requires room { length (spec.regions_to (polygons_of polygons.lists) (λ i. layer_plan names.bytes.now plans.now (layer_at (polygons_of polygons.lists) i)) (length polygons.lists.layers.now)) ≤ length regions.old.kinds.now }
    requires outcomes { length polygons.lists.layers.now ≤ length outcomes.old }
    ensures rows { held_regions regions.new ≡ put_regions (held_regions regions.old) 0 (spec.regions_to (polygons_of polygons.entry.lists) (λ i. layer_plan names.entry.bytes.now plans.now (layer_at (polygons_of polygons.entry.lists) i)) (length polygons.entry.lists.layers.now)) }
    ensures told { outcomes.new ≡ put outcomes.old 0 (spec.outcomes_to (polygons_of polygons.entry.lists) (λ i. layer_plan names.entry.bytes.now plans.now (layer_at (polygons_of polygons.entry.lists) i)) (length polygons.entry.lists.layers.now)) }
    ensures same { SameRegions regions.old regions.new }
{
    let layers = polygons.lists.layers;
    let mut k = 0;
    for i in 0..layers.len() {
        let plan = plan_of_layer(names, plans, layers[i]);
        let placed = place_polygon(polygons, i, plan, k, regions);
        outcomes[i] = outcome_of(placed);
        k += rows_of(plan);
    }
}

// Writes all regions and outcomes, and counts the regions; 12. The plans take 8,192 bytes of stack.
fn stack_checked(
    blocks: SoundBlocks<'_>,
    polygons: SoundPolygons<'_>,
    regions: &mut RegionLists<'_>,
    outcomes: &mut [u8],
) -> Result<usize, Refusal>
    requires { Even (held_regions regions.old) }
    ensures stack { spec.Leaves (spec.fitted (polygons_of polygons.entry.lists) (λ i. plan_of (sound_bytes blocks.entry) (layer_at (polygons_of polygons.entry.lists) i)) (length regions.old.kinds.now) (length outcomes.old)) (held_regions regions.old) (held_regions regions.new) outcomes.old outcomes.new result }
    ensures same { SameRegions regions.old regions.new }
{
    let mut plans: [Plan; 256] = [Err(Skip::Unnamed); 256];
    fill_plans(blocks, &mut plans);
    let rows = count_rows(blocks.names, &plans, polygons);
    if rows > regions.kinds.len() {
        return Err(Refusal::OutputTooShort);
    }
    if polygons.lists.layers.len() > outcomes.len() {
        return Err(Refusal::OutputTooShort);
    }
    place_polygons(blocks.names, &plans, polygons, regions, outcomes);
    Ok(rows)
}

// Stacks a layout: a region for each polygon with a range of heights, and one outcome a polygon; 14, 1, 16, 2, 15, 2, 1, 12.
pub fn assemble_stack(
    blocks: Blocks<'_>,
    polygons: Polygons<'_>,
    regions: &mut RegionLists<'_>,
    outcomes: &mut [u8],
) -> Result<usize, Refusal>
    ensures stack { spec.Leaves (spec.assemble_stack (bytes_of blocks.entry) (polygons_of polygons.entry) (held_regions regions.old) outcomes.old) (held_regions regions.old) (held_regions regions.new) outcomes.old outcomes.new result }
    ensures same { SameRegions regions.old regions.new }
{
    let blocks = blocks.checked()?;
    // The definition asks this of the polygons' lists first: the number is the same.
    if !regions.is_even() {
        return Err(Refusal::UnequalLists);
    }
    let polygons = polygons.checked()?;
    stack_checked(blocks, polygons, regions, outcomes)
}

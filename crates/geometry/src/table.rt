// The plans of the rows of a block of layer names: each is worked out once, however many polygons the layer has.
ghost use Rattle.std.specs.Prelude.{◌≡◌};
ghost use Rattle.lists.specs.Lists.{put, elems};
ghost use Rattle.openrdson_core.specs.Blocks.{count};
ghost use Rattle.openrdson_core.specs.SoundBlocks.{sound_bytes};
ghost use Rattle.geometry.specs.Plans.{row_plan};
ghost use Rattle.geometry.specs.Table as spec;

use crate::plans::{Plan, Skip, plan_of_name};
use openrdson_core::{LayerNames, SoundBlocks};

// Fills the list with the plans of all rows.
#[tactic(auto, using(openrdson_core::proofs::BlockLaws::block_counts, lists::proofs::Fills::no_elems, lists::proofs::Fills::one_elem, lists::proofs::Fills::all_elems))]
pub fn fill_plans(blocks: SoundBlocks<'_>, plans: &mut [Plan; 256])
    ensures { plans.new ≡ put plans.old 0 (elems (count blocks.entry.names.bytes.now) (row_plan (sound_bytes blocks.entry))) }
{
    let names = blocks.names;
    for i in 0..names.rows() {
        plans[i] = plan_of_name(blocks, names.name_at(i));
    }
}

// The plan of a layer, by the row that has its number.
#[tactic(auto, using(openrdson_core::proofs::BlockLaws::block_counts, openrdson_core::proofs::LayoutLaws::layer_found), unfolding(crate::specs::Table::layer_plan))]
pub fn plan_of_layer(names: LayerNames<'_>, plans: &[Plan; 256], layer: i16) -> Plan
    ensures { result ≡ spec.layer_plan names.entry.bytes.now plans.now layer }
{
    let i = names.find(layer).ok_or(Skip::Unnamed)?;
    plans[i]
}

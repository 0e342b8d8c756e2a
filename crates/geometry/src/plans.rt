// What stacking makes of a layer.
ghost use Rattle.std.specs.Prelude.{◌≡◌, option_map};
ghost use Rattle.std.specs.Option.{option_or};
ghost use Rattle.openrdson_core.specs.SoundBlocks.{sound_bytes};
ghost use Rattle.openrdson_core.specs.Maps.{in_map};
ghost use Rattle.geometry.specs.Plans as spec;

use crate::ranges::stack_range;
use openrdson_core::{Heights, Material, SoundBlocks, is_marker};

// Why a polygon has no region, in the order of the tests.
#[derive(Clone, Copy, Debug, PartialEq, Eq)]
pub enum Skip {
    Unnamed,
    Marker,
    Unmatched,
    NoRange,
}

impl From<Skip> for u8 {
    ghost from_gives = { λ why n. n ≡ spec.skip_number why };

    // The polygon's outcome.
    fn from(why: Skip) -> u8 {
        match why {
            Skip::Unnamed => 2,
            Skip::Marker => 3,
            Skip::Unmatched => 4,
            Skip::NoRange => 5,
        }
    }
}

// Two heights and a material.
#[derive(Clone, Copy, Debug, PartialEq)]
pub struct Slab {
    pub range: Heights,
    pub material: Material,
}

// What the polygons of a layer become, or why they have no region.
pub type Plan = Result<Slab, Skip>;

// The plan for a physical name.
#[tactic(auto, unfolding(crate::specs::Plans::plan_of_physical))]
fn plan_of_physical(blocks: SoundBlocks<'_>, physical: &[u8]) -> Plan
    ensures { result ≡ spec.plan_of_physical (sound_bytes blocks.entry) physical.now }
{
    let range = stack_range(blocks, physical).ok_or(Skip::NoRange)?;
    if range.top <= range.bottom {
        return Err(Skip::NoRange);
    }
    let material = blocks.find_material(physical);
    Ok(Slab { range, material })
}

// The physical name of a logical one, by the conducting map, else by the via map.
fn physical_of<'a>(blocks: SoundBlocks<'a>, name: &[u8]) -> Option<&'a [u8]>
    ensures { option_map (λ s. s.now) result ≡ option_or (in_map blocks.entry.conducting.bytes.now name.now) (in_map blocks.entry.via.bytes.now name.now) }
{
    if let Some(place) = blocks.conducting.find(name) {
        return Some(place.of(blocks.conducting.bytes));
    }
    let place = blocks.via.find(name)?;
    Some(place.of(blocks.via.bytes))
}

// The plan for a logical name.
#[tactic(auto, unfolding(crate::specs::Plans::plan_of_name))]
pub fn plan_of_name(blocks: SoundBlocks<'_>, name: &[u8]) -> Plan
    ensures { result ≡ spec.plan_of_name (sound_bytes blocks.entry) name.now }
{
    if is_marker(name) {
        return Err(Skip::Marker);
    }
    let physical = physical_of(blocks, name).ok_or(Skip::Unmatched)?;
    plan_of_physical(blocks, physical)
}

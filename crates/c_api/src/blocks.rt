// The calls of openrdson_core on name blocks. A name is given as its start and its length in the block that it stands in.
// C hands each list and number over by itself, and takes each value through its own reference.
ghost use Rattle.std.specs.Prelude.{◌≡◌, is_some};
ghost use Rattle.lists.specs.Answer.{status, map_answer};
ghost use Rattle.openrdson_core.specs.Layout.{is_marker, layer_name, start_of_name};
ghost use Rattle.openrdson_core.specs.Maps.{lookup, part_of};
ghost use Rattle.openrdson_core.specs.Tech.{blocks_fault, material_number, stack_layer, start_of_ends, via_layers};
ghost use Rattle.c_api.specs.Given.{Copied, Given, GivenAs};
ghost use Rattle.c_api.specs.Lookups as spec;

use crate::answers::{give, give_bytes, give_check, give_layer, give_name, give_part, give_via};

#[unsafe(no_mangle)]
pub extern "C" fn openrdson_check_blocks(
    names: &[u8],
    conducting: &[u8],
    via: &[u8],
    conductors: &[u8],
    diffusions: &[u8],
    vias: &[u8],
) -> u32
    ensures { result ≡ status (blocks_fault names.now conducting.now via.now conductors.now diffusions.now vias.now) }
{
    give_check(openrdson_core::check_blocks(names, conducting, via, conductors, diffusions, vias))
}

#[unsafe(no_mangle)]
pub extern "C" fn openrdson_is_marker(name: &[u8]) -> bool
    ensures { result ≡ is_marker name.now }
{
    openrdson_core::is_marker(name)
}

#[unsafe(no_mangle)]
pub extern "C" fn openrdson_look_up(
    conducting: &[u8],
    via: &[u8],
    name: &[u8],
    found: &mut bool,
) -> u32
    ensures { Given (map_answer is_some (lookup conducting.now via.now name.now)) result found.old found.new }
{
    give(openrdson_core::look_up(conducting, via, name), found)
}

#[unsafe(no_mangle)]
pub extern "C" fn openrdson_material_number(
    conductors: &[u8],
    diffusions: &[u8],
    vias: &[u8],
    name: &[u8],
    material: &mut u32,
) -> u32
    ensures { Given (material_number conductors.now diffusions.now vias.now name.now) result material.old material.new }
{
    let found = openrdson_core::material_number(conductors, diffusions, vias, name);
    give(found.map(|number| number.0), material)
}

#[unsafe(no_mangle)]
pub extern "C" fn openrdson_physical_name(
    conducting: &[u8],
    via: &[u8],
    name: &[u8],
    block: &mut u32,
    start: &mut usize,
    length: &mut usize,
) -> u32
    ensures { GivenAs (spec.NameStands conducting.now via.now name.now) (lookup conducting.now via.now name.now) result (spec.the_name block.old start.old length.old) (spec.the_name block.new start.new length.new) }
{
    give_name(
        openrdson_core::name_place(conducting, via, name),
        block,
        start,
        length,
    )
}

// The bytes of the same name; none where it is not found or a block is damaged.
#[unsafe(no_mangle)]
pub extern "C" fn openrdson_copy_physical_name<'a>(
    conducting: &'a [u8],
    via: &'a [u8],
    name: &[u8],
    copy: &mut [u8],
) -> usize
    ensures { Copied (part_of (lookup conducting.now via.now name.now)) result copy.old copy.new }
{
    give_bytes(openrdson_core::physical_name(conducting, via, name), copy)
}

#[unsafe(no_mangle)]
pub extern "C" fn openrdson_stack_layer(
    block: &[u8],
    name: &[u8],
    found: &mut bool,
    has_height: &mut bool,
    height: &mut f64,
    has_thickness: &mut bool,
    thickness: &mut f64,
) -> u32
    ensures { Given (map_answer spec.layer_given (stack_layer block.now name.now)) result (spec.the_layer found.old (spec.the_figure has_height.old height.old) (spec.the_figure has_thickness.old thickness.old)) (spec.the_layer found.new (spec.the_figure has_height.new height.new) (spec.the_figure has_thickness.new thickness.new)) }
{
    give_layer(
        openrdson_core::stack_layer(block, name),
        found,
        has_height,
        height,
        has_thickness,
        thickness,
    )
}

#[unsafe(no_mangle)]
pub extern "C" fn openrdson_via_layers(
    vias: &[u8],
    name: &[u8],
    found: &mut bool,
    bottom_start: &mut usize,
    bottom_length: &mut usize,
    top_start: &mut usize,
    top_length: &mut usize,
) -> u32
    ensures { GivenAs (spec.ViaStands vias.now (start_of_ends vias.now name.now)) (via_layers vias.now name.now) result (spec.the_via found.old (spec.the_places bottom_start.old bottom_length.old) (spec.the_places top_start.old top_length.old)) (spec.the_via found.new (spec.the_places bottom_start.new bottom_length.new) (spec.the_places top_start.new top_length.new)) }
{
    give_via(
        openrdson_core::via_layers(vias, name),
        found,
        bottom_start,
        bottom_length,
        top_start,
        top_length,
    )
}

#[unsafe(no_mangle)]
pub extern "C" fn openrdson_layer_name(
    names: &[u8],
    layer: i16,
    start: &mut usize,
    length: &mut usize,
) -> u32
    ensures { GivenAs (spec.StandsIf names.now (start_of_name names.now layer)) (layer_name names.now layer) result (spec.the_places start.old length.old) (spec.the_places start.new length.new) }
{
    give_part(openrdson_core::layer_name(names, layer), start, length)
}

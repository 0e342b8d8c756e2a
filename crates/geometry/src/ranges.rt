// The range of heights of a physical name.
ghost use Rattle.std.specs.Prelude.{◌≡◌, option_map, IfSome};
ghost use Rattle.openrdson_core.specs.Maps.{spanned, span_within};
ghost use Rattle.geometry.specs.Ranges as spec;

use openrdson_core::{Heights, SoundBlocks, Span};

// The range of the conductor of a name, else of the diffusion: height to height + thickness, where both are present. A conductor with a
// missing figure ends the search.
#[tactic(auto, unfolding(crate::specs::Ranges::layer_range, crate::specs::Ranges::diffusion_range))]
fn layer_range(blocks: SoundBlocks<'_>, name: &[u8]) -> Option<Heights>
    ensures { result ≡ spec.layer_range blocks.entry.conductors.bytes.now blocks.entry.diffusions.bytes.now name.now }
{
    let figures = match blocks.conductors.find(name) {
        Some(figures) => figures,
        None => blocks.diffusions.find(name)?,
    };
    let bottom = figures.height?;
    let thickness = figures.thickness?;
    Some(Heights {
        bottom,
        top: bottom + thickness,
    })
}

// The range of the layer at an end of a via.
fn end_range(blocks: SoundBlocks<'_>, end: Option<Span>) -> Option<Heights>
    requires { IfSome end (span_within blocks.vias.bytes.now) }
    ensures { result ≡ spec.end_range blocks.entry.conductors.bytes.now blocks.entry.diffusions.bytes.now (option_map (spanned blocks.entry.vias.bytes.now) end) }
{
    let name = end?.of(blocks.vias.bytes);
    layer_range(blocks, name)
}

// The range of a physical name. Where it is a via's: top of the bottom layer to bottom of the top layer.
#[tactic(auto, unfolding(crate::specs::Ranges::stack_range))]
pub fn stack_range(blocks: SoundBlocks<'_>, name: &[u8]) -> Option<Heights>
    ensures { result ≡ spec.stack_range blocks.entry.conductors.bytes.now blocks.entry.diffusions.bytes.now blocks.entry.vias.bytes.now name.now }
{
    let Some(layers) = blocks.vias.find(name) else {
        return layer_range(blocks, name);
    };
    let low = end_range(blocks, layers.bottom)?;
    let high = end_range(blocks, layers.top)?;
    Some(Heights {
        bottom: low.top,
        top: high.bottom,
    })
}

// An answer as C takes it: a status, and the value through references, which a refusal leaves alone.
// C hands each list and number over by itself, and takes each value through its own reference.
ghost use Rattle.std.specs.Prelude.{◌≡◌};
ghost use Rattle.lists.specs.Answer.{status, map_answer};
ghost use Rattle.openrdson_core.specs.Answers.{answer};
ghost use Rattle.openrdson_core.specs.Bounds.{the_bbox};
ghost use Rattle.c_api.specs.Given.{Copied, Given};
ghost use Rattle.c_api.specs.Lookups as spec;

use openrdson_core::{Bbox, Figures, NamePlace, Refusal, Span, ViaLayers};

// The status of a check, which gives no value.
pub fn give_check(checked: Result<(), Refusal>) -> u32
    ensures { result ≡ status (answer checked) }
{
    match checked {
        Ok(()) => 0,
        Err(why) => u32::from(why),
    }
}

// A value of one part.
pub fn give<T: Copy>(found: Result<T, Refusal>, out: &mut T) -> u32
    ensures { Given (answer found) result out.old out.new }
{
    match found {
        Ok(value) => {
            *out = value;
            0
        }
        Err(why) => u32::from(why),
    }
}

// The four bounds of a bounding box.
pub fn give_bounds(
    found: Result<Bbox, Refusal>,
    min_x: &mut f64,
    min_y: &mut f64,
    max_x: &mut f64,
    max_y: &mut f64,
) -> u32
    ensures { Given (answer found) result (the_bbox min_x.old min_y.old max_x.old max_y.old) (the_bbox min_x.new min_y.new max_x.new max_y.new) }
{
    match found {
        Ok(bounds) => {
            *min_x = bounds.min_x;
            *min_y = bounds.min_y;
            *max_x = bounds.max_x;
            *max_y = bounds.max_y;
            0
        }
        Err(why) => u32::from(why),
    }
}

// A part of a block; both are 0 where there is none.
fn give_span(span: Option<Span>, start: &mut usize, length: &mut usize)
    ensures { spec.the_places start.new length.new ≡ spec.span_places span }
{
    match span {
        Some(span) => {
            *start = span.start;
            *length = span.count;
        }
        None => {
            *start = 0;
            *length = 0;
        }
    }
}

// A name in a map: block 1 is the conducting map, 2 the via map. All three are 0 where there is none.
pub fn give_name(
    found: Result<Option<NamePlace>, Refusal>,
    block: &mut u32,
    start: &mut usize,
    length: &mut usize,
) -> u32
    ensures { Given (map_answer spec.name_given (answer found)) result (spec.the_name block.old start.old length.old) (spec.the_name block.new start.new length.new) }
{
    match found {
        Ok(Some(NamePlace::Conducting(span))) => {
            *block = 1;
            give_span(Some(span), start, length);
            0
        }
        Ok(Some(NamePlace::Via(span))) => {
            *block = 2;
            give_span(Some(span), start, length);
            0
        }
        Ok(None) => {
            *block = 0;
            give_span(None, start, length);
            0
        }
        Err(why) => u32::from(why),
    }
}

// A name in the one block that was lent; both are 0 where there is none.
pub fn give_part(found: Result<Option<Span>, Refusal>, start: &mut usize, length: &mut usize) -> u32
    ensures { Given (map_answer spec.span_places (answer found)) result (spec.the_places start.old length.old) (spec.the_places start.new length.new) }
{
    match found {
        Ok(span) => {
            give_span(span, start, length);
            0
        }
        Err(why) => u32::from(why),
    }
}

// A figure that may be absent: its value is 0 then.
fn give_figure(figure: Option<f64>, present: &mut bool, value: &mut f64)
    ensures { spec.the_figure present.new value.new ≡ spec.figure_given figure }
{
    *present = figure.is_some();
    *value = figure.unwrap_or(0.0);
}

// Whether a layer was found, and its two figures, both absent where it was not.
pub fn give_layer(
    layer: Result<Option<Figures>, Refusal>,
    found: &mut bool,
    has_height: &mut bool,
    height: &mut f64,
    has_thickness: &mut bool,
    thickness: &mut f64,
) -> u32
    ensures { Given (map_answer spec.layer_given (answer layer)) result (spec.the_layer found.old (spec.the_figure has_height.old height.old) (spec.the_figure has_thickness.old thickness.old)) (spec.the_layer found.new (spec.the_figure has_height.new height.new) (spec.the_figure has_thickness.new thickness.new)) }
{
    match layer {
        Ok(Some(figures)) => {
            *found = true;
            give_figure(figures.height, has_height, height);
            give_figure(figures.thickness, has_thickness, thickness);
            0
        }
        Ok(None) => {
            *found = false;
            give_figure(None, has_height, height);
            give_figure(None, has_thickness, thickness);
            0
        }
        Err(why) => u32::from(why),
    }
}

// Whether a via was found, and where the names of its two layers stand; 0 for each that is absent.
pub fn give_via(
    via: Result<Option<ViaLayers>, Refusal>,
    found: &mut bool,
    bottom_start: &mut usize,
    bottom_length: &mut usize,
    top_start: &mut usize,
    top_length: &mut usize,
) -> u32
    ensures { Given (map_answer spec.via_given (answer via)) result (spec.the_via found.old (spec.the_places bottom_start.old bottom_length.old) (spec.the_places top_start.old top_length.old)) (spec.the_via found.new (spec.the_places bottom_start.new bottom_length.new) (spec.the_places top_start.new top_length.new)) }
{
    match via {
        Ok(Some(layers)) => {
            *found = true;
            give_span(layers.bottom, bottom_start, bottom_length);
            give_span(layers.top, top_start, top_length);
            0
        }
        Ok(None) => {
            *found = false;
            give_span(None, bottom_start, bottom_length);
            give_span(None, top_start, top_length);
            0
        }
        Err(why) => u32::from(why),
    }
}

// Copies the first bytes, as many as the copy has room for, and gives how many bytes there are in all.
pub fn give_bytes(bytes: &[u8], copy: &mut [u8]) -> usize
    ensures { Copied bytes.now result copy.old copy.new }
{
    let n = copy.len().min(bytes.len());
    copy[..n].copy_from_slice(&bytes[..n]);
    bytes.len()
}

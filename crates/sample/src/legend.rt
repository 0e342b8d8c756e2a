// What the picture says of its layers: their order, colours and names; and what stands around the plan.
use std::io::Write;
use std::{fmt, io};

// A layer: its material, name and colour, and its row's height in the picture.
#[derive(Clone, Copy)]
pub struct Layer {
    pub material: u32,
    name: &'static str,
    pub colour: &'static str,
    row: u32,
}

impl Layer {
    fn new(material: u32, name: &'static str, colour: &'static str, row: u32) -> Self {
        Self {
            material,
            name,
            colour,
            row,
        }
    }
}

// Its label: its material and name.
impl fmt::Display for Layer {
    fn fmt<W: fmt::Write>(&self, f: &mut fmt::Formatter<W>) -> fmt::Result {
        let material = self.material;
        let name = self.name;
        write!(f, "{material} {name}")
    }
}

// The layers from the lowest to the highest.
pub fn layers() -> [Layer; 6] {
    [
        Layer::new(5, "active", "#7fb77e", 3850),
        Layer::new(6, "contact", "#37474f", 3200),
        Layer::new(1, "poly", "#c2528b", 2550),
        Layer::new(2, "metal1", "#3f83c4", 1900),
        Layer::new(7, "via1", "#7e57c2", 1250),
        Layer::new(3, "metal2", "#f0a830", 600),
    ]
}

// The height of the legend's row for refused regions.
const REFUSED: u32 = 4500;

// How a region is painted: in its layer's colour, or hatched, without a colour, where it is refused.
#[derive(Clone, Copy)]
pub struct Paint(pub Option<&'static str>);

impl fmt::Display for Paint {
    fn fmt<W: fmt::Write>(&self, f: &mut fmt::Formatter<W>) -> fmt::Result {
        match self.0 {
            Some(colour) => write!(f, "fill-opacity='.35' fill='{colour}' stroke='{colour}'"),
            None => f.write_str("fill='url(#hatch)' stroke='#c62828'"),
        }
    }
}

// The size, the title and the hatch, the background, and the plan's group, which has y upwards.
const HEAD: &str = "\
<svg xmlns='http://www.w3.org/2000/svg' viewBox='-500 -1300 13400 13000' width='804' height='780'
 font-family='sans-serif' font-size='330' fill='#2c3e50'>
<title>An embedded power switch in plan, and its mesh</title>
<defs><pattern id='hatch' width='200' height='200' patternUnits='userSpaceOnUse' patternTransform='rotate(45)'>
<path d='M100 0V200' stroke='#c62828' stroke-width='70'/></pattern></defs>
<rect x='-500' y='-1300' width='13400' height='13000' fill='#ffffff'/>
<text x='500' y='-600' font-size='440'>Embedded power switch: plan and mesh</text>
<g transform='translate(0 11000) scale(1 -1)' stroke-linejoin='round' stroke-width='20'>
";

// All that stands before the plan.
pub fn put_head(out: &mut impl Write) -> io::Result<()> {
    out.write_all(HEAD.as_bytes())
}

fn put_row(
    out: &mut impl Write,
    row: u32,
    paint: Paint,
    label: impl fmt::Display + Drop,
) -> io::Result<()> {
    write!(
        out,
        "<g transform='translate(9900 {row})'><rect width='600' height='400' stroke-width='45' {paint}"
    )?;
    writeln!(out, "/><text x='800' y='320'>{label}</text></g>")
}

// A row for each layer and one for refused regions, and the scale.
pub fn put_legend(out: &mut impl Write) -> io::Result<()> {
    writeln!(out, "<text x='9900' y='300'>material</text>")?;
    for layer in layers() {
        put_row(out, layer.row, Paint(Some(layer.colour)), layer)?;
    }
    put_row(out, REFUSED, Paint(None), "refused")?;
    writeln!(
        out,
        "<path d='M9900 10900h1000' stroke='#2c3e50' stroke-width='60'/>"
    )?;
    writeln!(out, "<text x='11050' y='11010'>1 &#181;m</text>")
}

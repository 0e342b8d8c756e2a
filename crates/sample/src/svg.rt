// The switch in plan as an SVG picture in nanometres: the regions from the bottom layer to the top one in the colour of their material, each with
// the plan of its lowest elements; what meshing refused is hatched.
ghost use Rattle.std.specs.Prelude.{◌<◌};

use crate::layout::{Points, REGIONS};
use crate::legend::{Layer, Paint, layers, put_head, put_legend};
use crate::mesh::{Element, Mesh};
use crate::regions::Regions;
use openrdson_core::{ElementType, Solid};
use std::io::Write;
use std::{fmt, io};

// A length, shown in whole nanometres.
#[derive(Clone, Copy)]
struct Length(f64);

impl fmt::Display for Length {
    fn fmt<W: fmt::Write>(&self, f: &mut fmt::Formatter<W>) -> fmt::Result {
        let sign = if self.0 < 0.0 { "-" } else { "" };
        let n = binary64::ceil_capped(binary64::abs(self.0) * 1e9 - 0.5);
        write!(f, "{sign}{n}")
    }
}

// Step k of a path, to a point: the first moves there, the others draw.
fn put_step(out: &mut impl Write, k: usize, x: f64, y: f64) -> io::Result<()> {
    let letter = if k == 0 { 'M' } else { 'L' };
    let x = Length(x);
    let y = Length(y);
    write!(out, "{letter}{x} {y}")
}

// The ring of a part of the points.
fn put_ring(out: &mut impl Write, points: &Points, start: u32, count: u32) -> io::Result<()> {
    for i in 0..count {
        if let Some((x, y)) = points.at(start as usize + i as usize) {
            put_step(out, i as usize, x, y)?;
        }
    }
    Ok(())
}

// The outline of a solid, not yet closed.
fn put_footprint(out: &mut impl Write, points: &Points, solid: Solid) -> io::Result<()> {
    match solid {
        Solid::Box {
            min_x,
            min_y,
            max_x,
            max_y,
            z_bottom: _,
            z_top: _,
        } => {
            put_step(out, 0, min_x, min_y)?;
            put_step(out, 1, max_x, min_y)?;
            put_step(out, 2, max_x, max_y)?;
            put_step(out, 3, min_x, max_y)
        }
        Solid::Prism {
            z_bottom: _,
            z_top: _,
            start,
            count,
        } => put_ring(out, points, start, count),
    }
}

// The plan of an element: a hex's four lower nodes, or a prism's three.
fn put_element(out: &mut impl Write, mesh: &Mesh, element: Element<'_>) -> io::Result<()> {
    let n = match element.kind {
        ElementType::Hex => 4,
        _ => 3,
    };
    let places = element.places;
    for (j, place) in places[..n].iter().enumerate() {
        if let Some(node) = mesh.node(*place as usize) {
            put_step(out, j, node.x, node.y)?;
        }
    }
    out.write_all(b"Z")
}

// The plan of a region's elements that stand at height z.
fn put_elements(out: &mut impl Write, mesh: &Mesh, region: usize, z: f64) -> io::Result<()> {
    for k in 0..mesh.counts.elements {
        if let Some(element) = mesh.element(k)
            && let Some(first) = mesh.node(element.places[0] as usize)
            && element.region as usize == region
            && first.z == z
        {
            put_element(out, mesh, element)?;
        }
    }
    Ok(())
}

// Region i's group: its outline and the plan of its elements.
fn put_region(
    out: &mut impl Write,
    points: &Points,
    mesh: &Mesh,
    layer: Layer,
    i: usize,
    solid: Solid,
) -> io::Result<()>
    requires { i < 12 }
{
    let paint = Paint((mesh.diagnostics[i] == 0).then_some(layer.colour));
    write!(
        out,
        "<g id='region-{i}' {paint}><path stroke-width='45' d='"
    )?;
    put_footprint(out, points, solid)?;
    write!(out, "Z'/>\n<path fill='none' d='")?;
    put_elements(out, mesh, i, solid.z_bottom())?;
    writeln!(out, "'/></g>")
}

// The whole file: the regions of every layer, from the bottom to the top.
pub fn put_plan(
    out: &mut impl Write,
    points: &Points,
    regions: &Regions,
    mesh: &Mesh,
) -> io::Result<()> {
    put_head(out)?;
    for layer in layers() {
        for i in 0..REGIONS {
            if regions.materials[i] == layer.material
                && let Some(solid) = regions.solid(i)
            {
                put_region(out, points, mesh, layer, i, solid)?;
            }
        }
    }
    writeln!(out, "</g>")?;
    put_legend(out)?;
    writeln!(out, "</svg>")
}

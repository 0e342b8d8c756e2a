// The mesh as a legacy VTK file, binary and big-endian: the bits of every coordinate, the nodes of every element, and its material and region.
ghost use Rattle.std.specs.Prelude.{◌≤◌, length};

use crate::mesh::{Element, Mesh};
use crate::regions::Regions;
use openrdson_core::ElementType;
use records::Entry;
use std::io;
use std::io::Write;

// VTK's number of a kind of element.
#[derive(Clone, Copy)]
struct CellType(u32);

impl From<ElementType> for CellType {
    fn from(kind: ElementType) -> Self {
        Self(match kind {
            ElementType::Tet => 10,
            ElementType::Hex => 12,
            ElementType::Prism => 13,
            ElementType::Pyramid => 14,
        })
    }
}

// The places of an element's nodes in VTK's order. In a mesh the lower nodes stand first, counterclockwise seen from above, then the upper ones.
// A VTK hexahedron has the same order; a VTK wedge has both triangles clockwise, and in the mesh's order its volume would be negative.
fn order(kind: ElementType) -> &'static [usize]
    ensures { length result.now ≤ 8 }
{
    match kind {
        ElementType::Tet => &[0, 1, 2, 3],
        ElementType::Hex => &[0, 1, 2, 3, 4, 5, 6, 7],
        ElementType::Prism => &[0, 2, 1, 3, 5, 4],
        ElementType::Pyramid => &[0, 1, 2, 3, 4],
    }
}

fn put_int(out: &mut impl Write, n: u32) -> io::Result<()> {
    out.write_all(&n.to_be_bytes())
}

fn put_double(out: &mut impl Write, x: f64) -> io::Result<()> {
    out.write_all(&x.word().to_be_bytes())
}

fn put_points(out: &mut impl Write, mesh: &Mesh) -> io::Result<()> {
    for i in 0..mesh.counts.nodes {
        if let Some(node) = mesh.node(i) {
            put_double(out, node.x)?;
            put_double(out, node.y)?;
            put_double(out, node.z)?;
        }
    }
    Ok(())
}

// How many numbers the cells take: for each the number of its nodes, and the nodes.
fn cell_numbers(mesh: &Mesh) -> usize {
    (0..mesh.counts.elements)
        .filter_map(|k| mesh.element(k))
        .fold(0usize, |n, element| {
            n.saturating_add(element.kind.node_count() + 1)
        })
}

fn put_cell(out: &mut impl Write, element: Element<'_>) -> io::Result<()> {
    let order = order(element.kind);
    let places = element.places;
    put_int(out, order.len() as u32)?;
    for j in order {
        if let Some(place) = places.get(*j) {
            put_int(out, *place)?;
        }
    }
    Ok(())
}

// What `put` puts of each element.
fn put_elements<W: Write, Put: Fn(&mut W, Element<'_>) -> io::Result<()>>(
    out: &mut W,
    mesh: &Mesh,
    put: Put,
) -> io::Result<()>
    requires { Put.IsAlwaysCallable put }
{
    for k in 0..mesh.counts.elements {
        if let Some(element) = mesh.element(k) {
            put(out, element)?;
        }
    }
    Ok(())
}

// The whole file.
pub fn put_mesh(out: &mut impl Write, regions: &Regions, mesh: &Mesh) -> io::Result<()> {
    let nodes = mesh.counts.nodes;
    let elements = mesh.counts.elements;
    let numbers = cell_numbers(mesh);
    write!(
        out,
        "# vtk DataFile Version 3.0\nembedded power switch, metres\n"
    )?;
    write!(
        out,
        "BINARY\nDATASET UNSTRUCTURED_GRID\nPOINTS {nodes} double\n"
    )?;
    put_points(out, mesh)?;
    write!(out, "\nCELLS {elements} {numbers}\n")?;
    put_elements(out, mesh, |out, element| put_cell(out, element))?;
    write!(out, "\nCELL_TYPES {elements}\n")?;
    put_elements(out, mesh, |out, element| {
        put_int(out, CellType::from(element.kind).0)
    })?;
    write!(
        out,
        "\nCELL_DATA {elements}\nSCALARS material int 1\nLOOKUP_TABLE default\n"
    )?;
    put_elements(out, mesh, |out, element| {
        // 0 would stand for no material: the file has a number for each element.
        put_int(out, regions.material(element.region).unwrap_or(0))
    })?;
    write!(out, "\nSCALARS region int 1\nLOOKUP_TABLE default\n")?;
    put_elements(out, mesh, |out, element| put_int(out, element.region))?;
    writeln!(out)
}

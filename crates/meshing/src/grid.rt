// The nodes and hexes of a box, written into lent lists. Each function asks for room, and for node numbers that a mesh may have, for what it writes: a row,
// a plane or all.
ghost use Rattle.std.specs.Prelude.{◌≡◌, ◌+◌, ◌*◌, ◌≤◌, length};
ghost use Rattle.lists.specs.Lists.{put, runs, elems};
ghost use Rattle.openrdson_core.specs.Mesh.{held, Same};
ghost use Rattle.meshing.specs.Cells.{axis_at};
ghost use Rattle.meshing.specs.Grid.{plane, grid, grid_nodes, grid_cells, hex_at, hex_places, NodesFit, with_nodes};

use crate::cells::{Axis, Cells};
use crate::writes::write_eight;
use openrdson_core::MeshLists;

// Writes the nodes of a box from place `at` on, x fastest, then y, then z. For callers that have found room in the three lists.
pub fn write_nodes(lists: &mut MeshLists<'_>, at: usize, x: Axis, y: Axis, z: Axis)
    requires { NodesFit (held lists.old) (at + grid_nodes x.cells y.cells z.cells) }
    ensures nodes { held lists.new ≡ with_nodes (held lists.old) at (grid x.cells y.cells z.cells (λ i j k. axis_at x.low x.high x.cells i))
        (grid x.cells y.cells z.cells (λ i j k. axis_at y.low y.high y.cells j)) (grid x.cells y.cells z.cells (λ i j k. axis_at z.low z.high z.cells k)) }
    ensures same { Same lists.old lists.new }
{
    let w = (x.cells + 1) * (y.cells + 1);
    for k in 0..z.cells + 1 {
        node_plane(lists, at + k * w, x, y, z.at(k));
    }
}

// A plane of nodes, all at height z: a row for each place along y.
fn node_plane(lists: &mut MeshLists<'_>, at: usize, x: Axis, y: Axis, z: f64)
    requires { NodesFit (held lists.old) (at + (x.cells + 1) * (y.cells + 1)) }
    ensures nodes { held lists.new ≡ with_nodes (held lists.old) at (plane x.cells y.cells (λ i j. axis_at x.low x.high x.cells i))
        (plane x.cells y.cells (λ i j. axis_at y.low y.high y.cells j)) (plane x.cells y.cells (λ i j. z)) }
    ensures same { Same lists.old lists.new }
{
    let w = x.cells + 1;
    for j in 0..y.cells + 1 {
        node_row(lists, at + j * w, x, y.at(j), z);
    }
}

// A row of nodes, all at y and z, one for each place along x.
fn node_row(lists: &mut MeshLists<'_>, at: usize, x: Axis, y: f64, z: f64)
    requires { NodesFit (held lists.old) (at + (x.cells + 1)) }
    ensures nodes { held lists.new ≡ with_nodes (held lists.old) at (elems (x.cells + 1) (λ i. axis_at x.low x.high x.cells i))
        (elems (x.cells + 1) (λ i. y)) (elems (x.cells + 1) (λ i. z)) }
    ensures same { Same lists.old lists.new }
{
    let xs = &mut *lists.xs;
    let ys = &mut *lists.ys;
    let zs = &mut *lists.zs;
    for i in 0..x.cells {
        let p = at + i;
        xs[p] = x.before_end(i);
        ys[p] = y;
        zs[p] = z;
    }
    let last = at + x.cells;
    xs[last] = x.high;
    ys[last] = y;
    zs[last] = z;
}

// Writes the node places of a box's hexes from place `at` on; its first node has the number `base`. For callers that have found room for
// the places, and for the nodes in a mesh.
pub fn write_hexes(places: &mut [u32], at: usize, base: usize, cells: Cells)
    requires room { at + 8 * grid_cells cells.nx cells.ny cells.nz ≤ length places.old }
    requires numbers { base + grid_nodes cells.nx cells.ny cells.nz ≤ 1048576 }
    ensures { places.new ≡ put places.old at (hex_places base cells.nx cells.ny cells.nz) }
{
    let up = (cells.nx + 1) * (cells.ny + 1);
    let w = cells.ny * (cells.nx * 8);
    for k in 0..cells.nz {
        hex_plane(places, at + k * w, base + k * up, cells);
    }
}

// A plane of hexes, ny rows; their first node has the number a.
fn hex_plane(places: &mut [u32], at: usize, a: usize, cells: Cells)
    requires room { at + cells.ny * (cells.nx * 8) ≤ length places.old }
    requires numbers { a + ((cells.nx + 1) * (cells.ny + 1) + (cells.nx + 1) * (cells.ny + 1)) ≤ 1048576 }
    ensures { places.new ≡ put places.old at (runs cells.ny (λ j. runs cells.nx (λ i. hex_at a cells.nx cells.ny i j 0))) }
{
    let back = cells.nx + 1;
    let w = cells.nx * 8;
    for j in 0..cells.ny {
        hex_row(places, at + j * w, a + j * back, cells);
    }
}

// A row of nx hexes; their first node has the number `first`.
fn hex_row(places: &mut [u32], at: usize, first: usize, cells: Cells)
    requires room { at + cells.nx * 8 ≤ length places.old }
    requires numbers { first + ((cells.nx + 1) + (cells.nx + 1) + (cells.nx + 1) * (cells.ny + 1)) ≤ 1048576 }
    ensures { places.new ≡ put places.old at (runs cells.nx (λ i. hex_at first cells.nx cells.ny i 0 0)) }
{
    let back = (cells.nx + 1) as u32;
    let up = ((cells.nx + 1) * (cells.ny + 1)) as u32;
    for i in 0..cells.nx {
        let a = (first + i) as u32;
        let b = a + 1;
        let c = b + back;
        let d = a + back;
        let e = a + up;
        let f = b + up;
        let g = c + up;
        let h = d + up;
        write_eight(places, at + 8 * i, [a, b, c, d, e, f, g, h]);
    }
}

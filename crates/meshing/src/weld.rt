// Welding: nodes with one key become one node.
ghost use Rattle.std.specs.Prelude.{◌≡◌, ◌≤◌, ◌<◌, true, length, map, take};
ghost use Rattle.lists.specs.Lists.{first};
ghost use Rattle.openrdson_core.specs.Mesh.{read, held, parallel, Same};
ghost use Rattle.meshing.specs.Welds as spec;

use crate::whole::{EvenMesh, Nodes};
use crate::writes::copy;
use openrdson_core::{Counts, Mesh, MeshLists, Refusal};

// What nodes that become one have in common: each coordinate over the tolerance, as a whole number.
#[derive(Clone, Copy)]
struct Key {
    x: i64,
    y: i64,
    z: i64,
}

// Nodes, and the tolerance that gives each its key.
#[derive(Clone, Copy)]
struct Keyed<'a> {
    nodes: Nodes<'a>,
    tolerance: f64,
}

impl Keyed<'_> {
    // The key of node i.
    fn key(self, i: usize) -> Key
        requires { i < length self.nodes.xs.now }
        ensures { result ≡ spec.key_at self.entry.tolerance self.entry.nodes.xs.now self.entry.nodes.ys.now self.entry.nodes.zs.now i }
    {
        let nodes = self.nodes;
        Key {
            x: binary64::nearest_capped(nodes.xs[i] / self.tolerance),
            y: binary64::nearest_capped(nodes.ys[i] / self.tolerance),
            z: binary64::nearest_capped(nodes.zs[i] / self.tolerance),
        }
    }

    // Whether node i has this key. Not by `key`: most nodes differ in x, and then y and z are not worked out.
    fn has_key(self, i: usize, key: Key) -> bool
        requires { i < length self.nodes.xs.now }
        ensures { result ≡ spec.same_key (spec.key_at self.entry.tolerance self.entry.nodes.xs.now self.entry.nodes.ys.now self.entry.nodes.zs.now i) key }
    {
        let nodes = self.nodes;
        binary64::nearest_capped(nodes.xs[i] / self.tolerance) == key.x
            && binary64::nearest_capped(nodes.ys[i] / self.tolerance) == key.y
            && binary64::nearest_capped(nodes.zs[i] / self.tolerance) == key.z
    }

    // The first node with this key.
    fn find(self, key: Key) -> Option<usize>
        ensures { result ≡ first (λ j. spec.same_key (spec.key_at self.entry.tolerance self.entry.nodes.xs.now self.entry.nodes.ys.now self.entry.nodes.zs.now j) key) (length self.entry.nodes.xs.now) 0 }
    {
        (0..self.nodes.xs.len()).find(|j| self.has_key(*j, key))
    }

    // Whether node i is the first with its key.
    fn is_first(self, i: usize) -> bool
        requires { i < length self.nodes.xs.now }
        ensures { result ≡ spec.is_first self.entry.tolerance self.entry.nodes.xs.now self.entry.nodes.ys.now self.entry.nodes.zs.now i }
    {
        self.find(self.key(i)) == Some(i)
    }

    // How many nodes are kept.
    fn count_kept(self) -> usize
        ensures { result ≡ length (spec.kept self.entry.tolerance self.entry.nodes.xs.now self.entry.nodes.ys.now self.entry.nodes.zs.now) }
    {
        (0..self.nodes.xs.len())
            .filter(|i| self.is_first(*i))
            .count()
    }

    // Writes the nodes that are kept over the start of the lists, and counts them. For callers that have found room for them. It is asked that the lists are
    // equally long, and the result is how many are written: a struct of `&mut` lists that keeps either fact cannot be lent on. Not a loop over the filtered
    // range, as in `count_kept`: its proof would need a law of the nodes that the filter passes over.
    fn write_kept(self, out: &mut MeshLists<'_>) -> usize
        requires { (length (spec.kept self.tolerance self.nodes.xs.now self.nodes.ys.now self.nodes.zs.now) ≤ length out.old.xs.now) × (length out.old.ys.now ≡ length out.old.xs.now) × (length out.old.zs.now ≡ length out.old.xs.now) }
        ensures count { result ≡ length (spec.kept self.entry.tolerance self.entry.nodes.xs.now self.entry.nodes.ys.now self.entry.nodes.zs.now) }
        ensures mesh { held out.new ≡ spec.with_kept (spec.kept self.entry.tolerance self.entry.nodes.xs.now self.entry.nodes.ys.now self.entry.nodes.zs.now) self.entry.nodes.xs.now self.entry.nodes.ys.now self.entry.nodes.zs.now (held out.old) }
        ensures same { Same out.old out.new }
    {
        let nodes = self.nodes;
        let xs = &mut *out.xs;
        let ys = &mut *out.ys;
        let zs = &mut *out.zs;
        let mut count = 0;
        for i in 0..nodes.xs.len() {
            if self.is_first(i) {
                xs[count] = nodes.xs[i];
                ys[count] = nodes.ys[i];
                zs[count] = nodes.zs[i];
                count += 1;
            }
        }
        count
    }

    // What stands in a node place after welding: the new number of its node, looked up among the nodes kept, or what stood there where it is unused.
    // The nodes kept are the first `kept` of `out`: its places are being written, and a struct of `&mut` lists that keeps how many cannot be lent on.
    fn renumbered(self, place: u32, kept: usize, out: &MeshLists<'_>) -> u32
        requires few { length self.nodes.xs.now ≤ 1048576 }
        requires within { (kept ≤ length out.now.xs.now) × (kept ≤ length out.now.ys.now) × (kept ≤ length out.now.zs.now) }
        requires kept { spec.KeptNodes self.tolerance self.nodes.xs.now self.nodes.ys.now self.nodes.zs.now (take kept out.now.xs.now) (take kept out.now.ys.now) (take kept out.now.zs.now) }
        ensures { result ≡ spec.renumbered self.entry.tolerance self.entry.nodes.xs.now self.entry.nodes.ys.now self.entry.nodes.zs.now place }
    {
        let i = place as usize;
        if i >= self.nodes.xs.len() {
            return place;
        }
        let nodes = Nodes {
            xs: &out.xs[..kept],
            ys: &out.ys[..kept],
            zs: &out.zs[..kept],
        };
        let Some(number) = (Keyed { nodes, ..self }).find(self.key(i)) else {
            unreachable!()
        };
        number as u32
    }

    // Writes node places, renumbered. For callers that have found room for them. `kept` is that of `renumbered`.
    // `renumbered` is lent the lists at each turn: no proof is generated for a function that writes one field of them while others are lent.
    fn write_places(self, places: &[u32], kept: usize, out: &mut MeshLists<'_>)
        requires few { length self.nodes.xs.now ≤ 1048576 }
        requires room { length places.now ≤ length out.old.places.now }
        requires within { (kept ≤ length out.old.xs.now) × (kept ≤ length out.old.ys.now) × (kept ≤ length out.old.zs.now) }
        requires kept { spec.KeptNodes self.tolerance self.nodes.xs.now self.nodes.ys.now self.nodes.zs.now (take kept out.old.xs.now) (take kept out.old.ys.now) (take kept out.old.zs.now) }
        ensures mesh { held out.new ≡ spec.with_places (map (spec.renumbered self.entry.tolerance self.entry.nodes.xs.now self.entry.nodes.ys.now self.entry.nodes.zs.now) places.now) (held out.old) }
        ensures same { Same out.old out.new }
    {
        for t in 0..places.len() {
            let number = self.renumbered(places[t], kept, out);
            out.places[t] = number;
        }
    }
}

// Welds a mesh that has been checked, into parallel lists; 12.
fn weld_checked(
    mesh: EvenMesh<'_>,
    tolerance: f64,
    out: &mut MeshLists<'_>,
) -> Result<Counts, Refusal>
    requires { parallel (held out.old) ≡ true }
    ensures welded { spec.WeldedAs (spec.fit_welded (held out.old) (spec.welded tolerance (read mesh.entry.lists))) (held out.old) result (held out.new) }
    ensures same { Same out.old out.new }
{
    let Mesh {
        xs,
        ys,
        zs,
        kinds,
        places,
        regions,
    } = mesh.lists;
    let keyed = Keyed {
        nodes: Nodes { xs, ys, zs },
        tolerance,
    };
    if kinds.len() > out.kinds.len() {
        return Err(Refusal::OutputTooShort);
    }
    if keyed.count_kept() > out.xs.len() {
        return Err(Refusal::OutputTooShort);
    }
    let nodes = keyed.write_kept(out);
    keyed.write_places(places, nodes, out);
    copy(kinds, out.kinds, 0);
    copy(regions, out.regions, 0);
    Ok(Counts {
        nodes,
        elements: kinds.len(),
    })
}

// Writes the mesh with one node for each key, the first that has it, into other lists; 16, 2, 1, 15, 13, 12.
pub fn weld_nodes(
    mesh: Mesh<'_>,
    tolerance: f64,
    out: &mut MeshLists<'_>,
) -> Result<Counts, Refusal>
    ensures welded { spec.WeldedAs (spec.weld_nodes (read mesh.entry) tolerance (held out.old)) (held out.old) result (held out.new) }
    ensures same { Same out.old out.new }
{
    if !out.is_parallel() {
        return Err(Refusal::UnequalLists);
    }
    let mesh = EvenMesh::new(mesh)?;
    if !binary64::coordinate_in_range(tolerance) {
        return Err(Refusal::NumberOutOfRange);
    }
    let mesh = mesh.checked()?;
    weld_checked(mesh.mesh, tolerance, out)
}

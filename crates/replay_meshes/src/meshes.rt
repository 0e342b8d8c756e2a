// Calls that append to a mesh: the nodes and elements that they add are the record's, and every other entry is as before.
use crate::places::{POINTS, elements, elements_place, nodes, nodes_place};
use arrayvec::ArrayVec;
use meshing::{MeshConfig, mesh_box, mesh_prism};
use openrdson_core::{Bbox, Counts, Heights, Material, MeshLists, Refusal};
use records::{Answer, Lent, Record};

// A mesh's lists. A call is lent as many entries of each as the record says.
#[derive(Drop)]
pub struct Mesh {
    xs: [f64; 64],
    ys: [f64; 64],
    zs: [f64; 64],
    kinds: [u8; 32],
    places: [u32; 256],
    regions: [u32; 32],
}

// The first n entries, or all where there are fewer.
fn first<T, const N: usize>(list: &mut [T; N], n: usize) -> &mut [T] {
    let all = list.as_mut_slice();
    let n = n.min(all.len());
    &mut all[..n]
}

impl Mesh {
    // The lists before a call.
    const BEFORE: Self = Self {
        xs: [f64::BEFORE; 64],
        ys: [f64::BEFORE; 64],
        zs: [f64::BEFORE; 64],
        kinds: [u8::BEFORE; 32],
        places: [u32::BEFORE; 256],
        regions: [u32::BEFORE; 32],
    };

    // The lists as a call is lent them.
    fn lent(&mut self, record: Record<'_>) -> MeshLists<'_> {
        MeshLists {
            xs: first(&mut self.xs, record.at(3)),
            ys: first(&mut self.ys, record.at(4)),
            zs: first(&mut self.zs, record.at(5)),
            kinds: first(&mut self.kinds, record.at(6)),
            places: first(&mut self.places, record.at(7)),
            regions: first(&mut self.regions, record.at(8)),
        }
    }

    // Whether the nodes are the recorded ones.
    fn are_nodes_recorded(&self, record: Record<'_>) -> bool {
        let at = nodes_place(record);
        let n = nodes(record).len();
        record.is_left(at, &self.xs, nodes(record))
            && record.is_left(at + n, &self.ys, nodes(record))
            && record.is_left(at + 2 * n, &self.zs, nodes(record))
    }

    // Whether the elements are the recorded ones.
    fn are_elements_recorded(&self, record: Record<'_>) -> bool {
        let at = elements_place(record);
        let new = elements(record);
        let places = 8 * new.start..8 * new.end;
        let n = new.len();
        record.is_left(at, &self.kinds, elements(record))
            && record.is_left(at + n, &self.places, places)
            && record.is_left(at + 9 * n, &self.regions, new)
    }
}

// How many nodes and elements the mesh has before the call.
fn counts(record: Record<'_>) -> Counts {
    Counts {
        nodes: record.at(9),
        elements: record.at(10),
    }
}

fn bounds(record: Record<'_>) -> Bbox {
    Bbox {
        min_x: record.at(11),
        min_y: record.at(12),
        max_x: record.at(13),
        max_y: record.at(14),
    }
}

fn heights(record: Record<'_>) -> Heights {
    Heights {
        bottom: record.at(15),
        top: record.at(16),
    }
}

// The record's box, meshed.
pub fn meshed_box(record: Record<'_>) -> (Result<Counts, Refusal>, Mesh) {
    let mut mesh = Mesh::BEFORE;
    let config = MeshConfig {
        lateral_cell: record.at(17),
        z_cell: record.at(18),
    };
    let meshed = mesh_box(
        bounds(record),
        heights(record),
        Material(record.at(19)),
        record.at(20),
        config,
        counts(record),
        &mut mesh.lent(record),
    );
    (meshed, mesh)
}

// The record's prism, meshed.
pub fn meshed_prism(record: Record<'_>) -> (Result<Counts, Refusal>, Mesh) {
    let m = record.length(1);
    let mut xs = ArrayVec::<f64, 1024>::new();
    let mut ys = ArrayVec::<f64, 1024>::new();
    record.list_into(POINTS, m, &mut xs);
    record.list_into(POINTS + m, record.length(2), &mut ys);
    let mut mesh = Mesh::BEFORE;
    let meshed = mesh_prism(
        &xs,
        &ys,
        heights(record),
        record.at(21),
        record.at(22),
        Material(record.at(19)),
        record.at(20),
        counts(record),
        &mut mesh.lent(record),
    );
    (meshed, mesh)
}

// Whether a call answers what the record says, and leaves the mesh as it says. The answer's last four words
// are past the end of the head, which is 0.
pub fn is_recorded(record: Record<'_>, (meshed, mesh): (Result<Counts, Refusal>, Mesh)) -> bool {
    let head = Record(record.bytes(0..8 * POINTS));
    mesh.are_nodes_recorded(record)
        && mesh.are_elements_recorded(record)
        && Answer::from(meshed).is_recorded(head.after(23))
}

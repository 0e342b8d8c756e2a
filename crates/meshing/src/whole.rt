// What is asked of a mesh before it is welded or measured: its lists hold it and nothing past it.
ghost use Rattle.std.specs.Prelude.{◌≡◌, ◌*◌, ◌<◌, ◌≤◌, ℕ, Some, true, length, get_or, take, IfOk};
ghost use Rattle.lists.specs.Answer.{map_answer};
ghost use Rattle.lists.specs.Lists.{part};
ghost use Rattle.openrdson_core.specs.Answers.{answer};
ghost use Rattle.openrdson_core.specs.Mesh.{read, known, kind_of, node_count, used_places};
ghost use Rattle.meshing.specs.Volumes.{node_at};
ghost use Rattle.meshing.specs.Whole as spec;

use openrdson_core::{ElementType, Mesh, NodeNumber, Point3, Refusal};

// Coordinates of nodes in three equally long lists.
#[derive(Clone, Copy)]
pub struct Nodes<'a> {
    pub xs: &'a [f64],
    pub ys: &'a [f64],
    pub zs: &'a [f64],
    ghost even: { (length ys.now ≡ length xs.now) × (length zs.now ≡ length xs.now) },
}

impl Nodes<'_> {
    // The node with this number.
    pub fn node(self, number: NodeNumber) -> Point3
        requires { number.0 < length self.xs.now }
        ensures { result ≡ node_at self.entry.xs.now self.entry.ys.now self.entry.zs.now number.0 }
    {
        let i = number.0 as usize;
        Point3::new(self.xs[i], self.ys[i], self.zs[i])
    }

    // Whether every coordinate is finite and at most 2^20 in size.
    pub fn is_in_range(self) -> bool
        ensures { result ≡ spec.nodes_in self.entry.xs.now self.entry.ys.now self.entry.zs.now }
    {
        (0..self.xs.len()).all(|i| {
            binary64::coordinate_in_range(self.xs[i])
                && binary64::coordinate_in_range(self.ys[i])
                && binary64::coordinate_in_range(self.zs[i])
        })
    }
}

// A mesh in parallel lists of at most 2^20 nodes and elements.
#[derive(Clone, Copy)]
pub struct EvenMesh<'a> {
    pub lists: Mesh<'a>,
    ghost even: { (length lists.ys.now ≡ length lists.xs.now) × (length lists.zs.now ≡ length lists.xs.now) },
    ghost same_regions: { length lists.regions.now ≡ length lists.kinds.now },
    ghost eight_places: { length lists.places.now ≡ 8 * length lists.kinds.now },
    ghost few_nodes: { length lists.xs.now ≤ 1048576 },
    ghost few_elements: { length lists.kinds.now ≤ 1048576 },
}

// A mesh whose elements are sound and name its nodes.
#[derive(Clone, Copy)]
pub struct SoundMesh<'a> {
    pub mesh: EvenMesh<'a>,
    ghost known: { (e : ℕ) → e < length mesh.lists.kinds.now → known (kind_of (get_or mesh.lists.kinds.now e 0)) ≡ true },
    ghost inside: { (e k : ℕ) → e < length mesh.lists.kinds.now → k < used_places (kind_of (get_or mesh.lists.kinds.now e 0)) → get_or (part (8 * e) 8 mesh.lists.places.now) k 0 < length mesh.lists.xs.now },
}

// An element of a mesh: its kind and the places that it uses, each of them a node's.
#[derive(Clone, Copy)]
pub struct SoundElement<'a> {
    pub nodes: Nodes<'a>,
    pub kind: ElementType,
    pub used: &'a [u32],
    ghost many: { length used.now ≡ node_count kind },
    ghost inside: { (k : ℕ) → k < length used.now → get_or used.now k 0 < length nodes.xs.now },
}

impl<'a> EvenMesh<'a> {
    // The mesh in these lists; 16, 2.
    #[tactic(auto, using(openrdson_core::proofs::MeshLaws::equal_lengths))]
    pub fn new(lists: Mesh<'a>) -> Result<Self, Refusal>
        ensures size { map_answer (λ _. tt {0}) (answer result) ≡ spec.mesh_size (read lists.entry) }
        ensures lists { IfOk result (λ m. read m.lists ≡ read lists.entry) }
    {
        if !lists.is_parallel() {
            return Err(Refusal::UnequalLists);
        }
        if !((lists.xs.len() <= 1048576) & (lists.kinds.len() <= 1048576)) {
            return Err(Refusal::ListTooLong);
        }
        Ok(EvenMesh { lists })
    }

    // Its nodes.
    pub fn nodes(self) -> Nodes<'a>
        ensures { (result.xs.now ≡ self.entry.lists.xs.now) × (result.ys.now ≡ self.entry.lists.ys.now) × (result.zs.now ≡ self.entry.lists.zs.now) }
    {
        let Mesh { xs, ys, zs, .. } = self.lists;
        Nodes { xs, ys, zs }
    }

    // The mesh, its coordinates in range and its elements sound; 1, 15, 13.
    pub fn checked(self) -> Result<SoundMesh<'a>, Refusal>
        ensures fault { map_answer (λ _. tt {0}) (answer result) ≡ spec.contents_fault (read self.entry.lists) }
        ensures lists { IfOk result (λ m. read m.mesh.lists ≡ read self.entry.lists) }
    {
        if !self.nodes().is_in_range() {
            return Err(Refusal::NumberOutOfRange);
        }
        self.elements_check()?;
        Ok(SoundMesh { mesh: self })
    }

    // 15 for an element whose kind is none of the four or that fills an unused place, then 13 for one whose place is no node's.
    #[tactic(auto, using(lists::proofs::Scans::all_start, lists::proofs::Scans::all_more, lists::proofs::Scans::all_noted, crate::proofs::WholeLaws::not_sound, crate::proofs::WholeLaws::some_outside, crate::proofs::WholeLaws::all_inside))]
    fn elements_check(self) -> Result<(), Refusal>
        ensures { answer result ≡ spec.elements_fault (length self.entry.lists.xs.now) self.entry.lists.kinds.now self.entry.lists.places.now }
    {
        let nodes = self.lists.xs.len();
        let mut inside = true;
        for e in 0..self.lists.kinds.len() {
            let element = self.lists.element(e);
            if !element.is_sound() {
                return Err(Refusal::OutsideList);
            }
            inside = inside & element.is_inside(nodes);
        }
        if !inside {
            return Err(Refusal::NodeOutsideMesh);
        }
        Ok(())
    }
}

impl<'a> SoundMesh<'a> {
    // Element e.
    pub fn element(self, e: usize) -> SoundElement<'a>
        requires { e < length self.mesh.lists.kinds.now }
        ensures kind { Some result.kind ≡ kind_of (get_or self.entry.mesh.lists.kinds.now e 0) }
        ensures used { result.used.now ≡ take (node_count result.kind) (part (8 * e) 8 self.entry.mesh.lists.places.now) }
        ensures nodes { (result.nodes.xs.now ≡ self.entry.mesh.lists.xs.now) × (result.nodes.ys.now ≡ self.entry.mesh.lists.ys.now) × (result.nodes.zs.now ≡ self.entry.mesh.lists.zs.now) }
    {
        let element = self.mesh.lists.element(e);
        let Ok(kind) = ElementType::try_from(element.kind) else {
            unreachable!()
        };
        SoundElement {
            nodes: self.mesh.nodes(),
            kind,
            used: &element.places[..kind.node_count()],
        }
    }
}

impl SoundElement<'_> {
    // The node that place k names.
    pub fn node(self, k: usize) -> Point3
        requires { k < length self.used.now }
        ensures { result ≡ node_at self.entry.nodes.xs.now self.entry.nodes.ys.now self.entry.nodes.zs.now (get_or self.entry.used.now k 0) }
    {
        self.nodes.node(NodeNumber(self.used[k]))
    }
}

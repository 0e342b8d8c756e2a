// Meshes: kinds of elements, nodes, counts, and when the lists of a mesh are as they must be.
ghost use Rattle.std.specs.Prelude.{◌≡◌, ◌+◌, ◌*◌, ◌<◌, ◌≤◌, length, option_map, IfSome};
ghost use Rattle.openrdson_core.specs.Mesh as spec;

// The kinds of elements, in the order of their numbers from 0.
#[derive(Clone, Copy, Debug, PartialEq, Eq)]
pub enum ElementType {
    Tet,
    Hex,
    Prism,
    Pyramid,
}

// A number that stands for no kind.
#[derive(Clone, Copy, Debug, PartialEq, Eq)]
pub struct UnknownKind(pub u8);

// A node's number, from 0.
#[derive(Clone, Copy, Debug, PartialEq, Eq)]
pub struct NodeNumber(pub u32);

// What stands in a node place that is not used.
pub const UNUSED: u32 = 4294967295;

// A point in space, or a vector.
#[repr(C)]
#[derive(Clone, Copy, Debug)]
pub struct Point3 {
    pub x: f64,
    pub y: f64,
    pub z: f64,
}

// How many nodes and elements a mesh has.
#[derive(Clone, Copy, Debug, PartialEq, Eq)]
pub struct Counts {
    pub nodes: usize,
    pub elements: usize,
}

impl ElementType {
    // How many nodes an element of the kind has.
    pub fn node_count(self) -> usize
        ensures { result ≡ spec.node_count self }
    {
        match self {
            ElementType::Tet => 4,
            ElementType::Hex => 8,
            ElementType::Prism => 6,
            ElementType::Pyramid => 5,
        }
    }
}

impl From<ElementType> for u8 {
    ghost from_gives = { λ kind n. n ≡ spec.kind_number kind };

    // The number that stands for the kind.
    fn from(kind: ElementType) -> u8 {
        match kind {
            ElementType::Tet => 0,
            ElementType::Hex => 1,
            ElementType::Prism => 2,
            ElementType::Pyramid => 3,
        }
    }
}

impl TryFrom<u8> for ElementType {
    type Error = UnknownKind;

    ghost try_from_gives = { spec.StandsFor };

    // The kind that a number stands for.
    #[tactic(auto, unfolding(crate::specs::Mesh::kind_of))]
    fn try_from(number: u8) -> Result<Self, UnknownKind> {
        match number {
            0 => Ok(ElementType::Tet),
            1 => Ok(ElementType::Hex),
            2 => Ok(ElementType::Prism),
            3 => Ok(ElementType::Pyramid),
            _ => Err(UnknownKind(number)),
        }
    }
}

impl Point3 {
    // The point (x, y, z).
    pub fn new(x: f64, y: f64, z: f64) -> Self
        ensures { result ≡ spec.the_point3 x y z }
    {
        Self { x, y, z }
    }
}

// Whether a mesh's lists, by their lengths, are parallel, with eight node places a kind.
#[tactic(auto, using(crate::proofs::MeshLaws::eight_each, crate::proofs::MeshLaws::not_eight), unfolding(crate::specs::Mesh::parallel_lengths))]
pub fn lists_parallel(
    xs: usize,
    ys: usize,
    zs: usize,
    kinds: usize,
    places: usize,
    regions: usize,
) -> bool
    ensures { result ≡ spec.parallel_lengths xs ys zs kinds places regions }
{
    xs == ys && xs == zs && kinds == regions && places % 8 == 0 && places / 8 == kinds
}

// The six lists of a mesh: three of node coordinates, three of elements.
#[derive(Clone, Copy)]
pub struct Mesh<'a> {
    pub xs: &'a [f64],
    pub ys: &'a [f64],
    pub zs: &'a [f64],
    pub kinds: &'a [u8],
    pub places: &'a [u32],
    pub regions: &'a [u32],
}

impl<'a> Mesh<'a> {
    // Element e. For a caller that has found e below the kinds, and eight places of it.
    #[tactic(auto, using(lists::proofs::Parts::part_lent, lists::proofs::Parts::part_length))]
    pub fn element(self, e: usize) -> Element<'a>
        requires kind { e < length self.kinds.now }
        requires places { 8 * e + 8 ≤ length self.places.now }
        ensures kind { result.kind ≡ spec.kind_at (spec.read self.entry) e }
        ensures places { result.places.now ≡ spec.places_of (spec.read self.entry) e }
    {
        let first = 8 * e;
        Element {
            kind: self.kinds[e],
            places: &self.places[first..first + 8],
        }
    }

    // Whether the lists are parallel (16).
    pub fn is_parallel(self) -> bool
        ensures { result ≡ spec.parallel (spec.read self.entry) }
    {
        lists_parallel(
            self.xs.len(),
            self.ys.len(),
            self.zs.len(),
            self.kinds.len(),
            self.places.len(),
            self.regions.len(),
        )
    }
}

// The six lists that a mesh is written into.
#[derive(Drop)]
pub struct MeshLists<'a> {
    pub xs: &'a mut [f64],
    pub ys: &'a mut [f64],
    pub zs: &'a mut [f64],
    pub kinds: &'a mut [u8],
    pub places: &'a mut [u32],
    pub regions: &'a mut [u32],
}

impl MeshLists<'_> {
    // What they hold, to be read.
    pub fn lent(&self) -> Mesh<'_>
        ensures { spec.read result ≡ spec.held self.now }
    {
        Mesh {
            xs: self.xs,
            ys: self.ys,
            zs: self.zs,
            kinds: self.kinds,
            places: self.places,
            regions: self.regions,
        }
    }

    // Whether the lists are parallel (16).
    pub fn is_parallel(&self) -> bool
        ensures { result ≡ spec.parallel (spec.held self.now) }
    {
        self.lent().is_parallel()
    }

    // Whether the counts are within the lists (15).
    pub fn holds(&self, counts: Counts) -> bool
        ensures { result ≡ spec.within counts (spec.held self.now) }
    {
        counts_within(counts, self.xs.len(), self.kinds.len())
    }
}

// Whether the counts are within lists of so many nodes and kinds.
#[tactic(auto, unfolding(crate::specs::Mesh::within_lengths))]
pub fn counts_within(counts: Counts, nodes: usize, kinds: usize) -> bool
    ensures { result ≡ spec.within_lengths counts nodes kinds }
{
    counts.nodes <= nodes && counts.elements <= kinds
}

// Whether n more entries after the first `at` fit in a list of len entries and in the largest mesh.
#[tactic(auto, unfolding(crate::specs::Mesh::fits))]
pub fn has_room(n: usize, at: usize, len: usize) -> bool
    ensures { result ≡ spec.fits n at len }
{
    n <= 1048576 && at <= 1048576 - n && at + n <= len
}

// How many of its places an element of a kind uses, and 0 where there is no such kind.
pub fn used_places(kind: u8) -> usize
    ensures used { result ≡ spec.used_places (spec.kind_of kind) }
    ensures within { result ≤ 8 }
{
    node_count_of(kind).unwrap_or(0)
}

// How many nodes an element of a kind has; none where there is no such kind.
pub fn node_count_of(kind: u8) -> Option<usize>
    ensures used { result ≡ option_map spec.node_count (spec.kind_of kind) }
    ensures within { IfSome result (λ n. n ≤ 8) }
{
    let kind = ElementType::try_from(kind).ok()?;
    Some(kind.node_count())
}

// An element of a mesh: the number of its kind, and its eight node places.
#[derive(Clone, Copy)]
pub struct Element<'a> {
    pub kind: u8,
    pub places: &'a [u32],
    ghost eight: { length places.now ≡ 8 },
}

impl Element<'_> {
    // Whether the places from N on are unused. The number of places is a constant here and below: the code for a kind then has no loop.
    fn is_unused_from<const N: usize>(self) -> bool
        requires { N ≤ 8 }
        ensures { result ≡ spec.rest_unused N self.entry.places.now }
    {
        self.places[N..].iter().all(|place| *place == UNUSED)
    }

    // Whether the first N places are below the number of nodes.
    fn is_below<const N: usize>(self, nodes: usize) -> bool
        requires { N ≤ 8 }
        ensures { result ≡ spec.first_below N nodes self.entry.places.now }
    {
        self.places[..N]
            .iter()
            .all(|place| (*place as usize) < nodes)
    }

    // Whether its kind is one of the four, and the places past that kind's node count are unused (15). The counts stand here and in `is_inside` as they do in
    // `node_count`: with its answer the loop has no constant length, and the elements of a million hexes take 8.4 ms in place of 6.
    #[tactic(auto, using(crate::proofs::MeshLaws::sound_by, crate::proofs::MeshLaws::none_sound))]
    pub fn is_sound(self) -> bool
        ensures { result ≡ spec.sound_element self.entry.kind self.entry.places.now }
    {
        match ElementType::try_from(self.kind) {
            Ok(ElementType::Tet) => self.is_unused_from::<4>(),
            Ok(ElementType::Hex) => self.is_unused_from::<8>(),
            Ok(ElementType::Prism) => self.is_unused_from::<6>(),
            Ok(ElementType::Pyramid) => self.is_unused_from::<5>(),
            Err(_) => false,
        }
    }

    // Whether the places that it uses are below the number of nodes (13).
    #[tactic(auto, using(crate::proofs::MeshLaws::inside_by, crate::proofs::MeshLaws::none_inside))]
    pub fn is_inside(self, nodes: usize) -> bool
        ensures { result ≡ spec.inside_element nodes self.entry.kind self.entry.places.now }
    {
        match ElementType::try_from(self.kind) {
            Ok(ElementType::Tet) => self.is_below::<4>(nodes),
            Ok(ElementType::Hex) => self.is_below::<8>(nodes),
            Ok(ElementType::Prism) => self.is_below::<6>(nodes),
            Ok(ElementType::Pyramid) => self.is_below::<5>(nodes),
            Err(_) => true,
        }
    }

    // Whether it is valid in a mesh of so many nodes.
    pub fn is_ok(self, nodes: usize) -> bool
        ensures { result ≡ spec.valid_element nodes self.entry.kind self.entry.places.now }
    {
        self.is_sound() && self.is_inside(nodes)
    }
}

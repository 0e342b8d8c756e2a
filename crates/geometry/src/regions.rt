// The region list: twelve parallel lists, a row a region.
ghost use Rattle.std.specs.Prelude.{◌≡◌, ◌<◌, length, IfOk};
ghost use Rattle.lists.specs.Answer.{map_answer, unless, given};
ghost use Rattle.openrdson_core.specs.Answers.{answer};
ghost use Rattle.geometry.specs.Regions.{listed, held_regions, all_equal, even_regions, Even, kind_number, StandsFor, row_kind, solid_at, region_at};

use openrdson_core::{Material, PolygonNumber, Refusal, Solid, SolidRegion};

// The kinds of rows of a region list.
#[derive(Clone, Copy, Debug, PartialEq, Eq)]
pub enum RowKind {
    Box,
    Prism,
}

impl From<RowKind> for u8 {
    ghost from_gives = { λ kind n. n ≡ kind_number kind };

    // The number that stands for a kind.
    fn from(kind: RowKind) -> u8 {
        match kind {
            RowKind::Box => 0,
            RowKind::Prism => 1,
        }
    }
}

impl From<Solid> for RowKind {
    ghost from_gives = { λ solid kind. kind ≡ row_kind solid };

    // The kind of a solid's row.
    fn from(solid: Solid) -> RowKind {
        match solid {
            Solid::Box { .. } => RowKind::Box,
            Solid::Prism { .. } => RowKind::Prism,
        }
    }
}

impl TryFrom<u8> for RowKind {
    type Error = Refusal;

    ghost try_from_gives = { StandsFor };

    // The kind that a number stands for; 15.
    fn try_from(number: u8) -> Result<Self, Refusal> {
        match number {
            0 => Ok(RowKind::Box),
            1 => Ok(RowKind::Prism),
            _ => Err(Refusal::OutsideList),
        }
    }
}

// The polygon number of a region that came from no polygon.
pub const NO_POLYGON: u32 = 4294967295;

// The largest material number.
pub const LARGEST_MATERIAL: u32 = 768;

// Whether each of these lengths is n.
pub fn all_equal(n: usize, lengths: &[usize]) -> bool
    ensures { result ≡ all_equal n lengths.now }
{
    lengths.iter().all(|m| *m == n)
}

// A part of the point lists: so many points from a start on.
#[derive(Clone, Copy)]
pub struct Part {
    pub start: u32,
    pub count: u32,
}

// The twelve lists of a region list that is read.
#[derive(Clone, Copy)]
pub struct Regions<'a> {
    pub kinds: &'a [u8],
    pub min_x: &'a [f64],
    pub min_y: &'a [f64],
    pub max_x: &'a [f64],
    pub max_y: &'a [f64],
    pub z_bottom: &'a [f64],
    pub z_top: &'a [f64],
    pub starts: &'a [u32],
    pub counts: &'a [u32],
    pub materials: &'a [u32],
    pub nets: &'a [u32],
    pub polygons: &'a [u32],
}

// A region list of equally long lists.
#[derive(Clone, Copy)]
pub struct EvenRegions<'a> {
    pub lists: Regions<'a>,
    ghost even: { Even (listed lists) },
}

// The twelve lists that a region list is written into.
#[derive(Drop)]
pub struct RegionLists<'a> {
    pub kinds: &'a mut [u8],
    pub min_x: &'a mut [f64],
    pub min_y: &'a mut [f64],
    pub max_x: &'a mut [f64],
    pub max_y: &'a mut [f64],
    pub z_bottom: &'a mut [f64],
    pub z_top: &'a mut [f64],
    pub starts: &'a mut [u32],
    pub counts: &'a mut [u32],
    pub materials: &'a mut [u32],
    pub nets: &'a mut [u32],
    pub polygons: &'a mut [u32],
}

impl<'a> Regions<'a> {
    // Whether the lists are equally long (16).
    #[tactic(auto, unfolding(crate::specs::Regions::even_regions))]
    pub fn is_even(self) -> bool
        ensures { result ≡ even_regions (listed self.entry) }
    {
        all_equal(
            self.kinds.len(),
            &[
                self.min_x.len(),
                self.min_y.len(),
                self.max_x.len(),
                self.max_y.len(),
                self.z_bottom.len(),
                self.z_top.len(),
                self.starts.len(),
                self.counts.len(),
                self.materials.len(),
                self.nets.len(),
                self.polygons.len(),
            ],
        )
    }

    // The list, if its lists are equally long; 16.
    #[tactic(auto, using(crate::proofs::RegionLaws::even_of))]
    pub fn checked(self) -> Result<EvenRegions<'a>, Refusal>
        ensures fault { map_answer (λ _. tt {0}) (answer result) ≡ unless (even_regions (listed self.entry)) 16 (given tt) }
        ensures lists { IfOk result (λ r. listed r.lists ≡ listed self.entry) }
    {
        if !self.is_even() {
            return Err(Refusal::UnequalLists);
        }
        Ok(EvenRegions { lists: self })
    }
}

impl EvenRegions<'_> {
    // How many rows there are.
    pub fn rows(self) -> usize
        ensures { result ≡ length self.entry.lists.kinds.now }
    {
        self.lists.kinds.len()
    }

    // The solid of row i, beside point lists of so many entries; 15.
    #[tactic(auto, unfolding(crate::specs::Regions::solid_at))]
    fn solid(self, points: usize, i: usize) -> Result<Solid, Refusal>
        requires { i < length self.lists.kinds.now }
        ensures { answer result ≡ solid_at (listed self.entry.lists) points i }
    {
        let z_bottom = self.lists.z_bottom[i];
        let z_top = self.lists.z_top[i];
        let kind = RowKind::try_from(self.lists.kinds[i])?;
        if kind == RowKind::Box {
            return Ok(Solid::Box {
                min_x: self.lists.min_x[i],
                min_y: self.lists.min_y[i],
                max_x: self.lists.max_x[i],
                max_y: self.lists.max_y[i],
                z_bottom,
                z_top,
            });
        }
        let start = self.lists.starts[i];
        let count = self.lists.counts[i];
        if start as usize + count as usize > points {
            return Err(Refusal::OutsideList);
        }
        Ok(Solid::Prism {
            z_bottom,
            z_top,
            start,
            count,
        })
    }

    // The region of row i, beside point lists of so many entries; 15. For a caller that has found row i in the lists.
    #[tactic(auto, unfolding(crate::specs::Regions::region_at))]
    pub fn region(self, points: usize, i: usize) -> Result<SolidRegion, Refusal>
        requires { i < length self.lists.kinds.now }
        ensures { answer result ≡ region_at (listed self.entry.lists) points i }
    {
        let material = self.lists.materials[i];
        if material > LARGEST_MATERIAL {
            return Err(Refusal::OutsideList);
        }
        let solid = self.solid(points, i)?;
        Ok(SolidRegion {
            material_id: Material(material),
            net: self.lists.nets[i],
            source_polygon: PolygonNumber(self.lists.polygons[i]),
            solid,
        })
    }
}

impl RegionLists<'_> {
    // What they hold, to be read.
    pub fn lent(&self) -> Regions<'_>
        ensures { listed result ≡ held_regions self.now }
    {
        Regions {
            kinds: self.kinds,
            min_x: self.min_x,
            min_y: self.min_y,
            max_x: self.max_x,
            max_y: self.max_y,
            z_bottom: self.z_bottom,
            z_top: self.z_top,
            starts: self.starts,
            counts: self.counts,
            materials: self.materials,
            nets: self.nets,
            polygons: self.polygons,
        }
    }

    // Whether the lists are equally long (16).
    pub fn is_even(&self) -> bool
        ensures { result ≡ even_regions (held_regions self.now) }
    {
        self.lent().is_even()
    }
}

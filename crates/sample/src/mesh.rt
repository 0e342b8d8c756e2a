// Meshing the switch's regions.
use crate::layout::{Points, REGIONS};
use crate::regions::Regions;
use crate::stack::CONTACT;
use meshing::{MeshConfig, Overrides, mesh_model_with_options};
use openrdson_core::{Counts, ElementType, MeshLists, Point3, Refusal};

// How many nodes the mesh has: a box of a by b by c cells has (a + 1)(b + 1)(c + 1), a clipped prism two a point, one by the scanline eight a quad.
const NODES: usize = 5 * 5 * 2 // active area
    + 2 * 8 // gate
    + 2 * (3 * 13 * 3) // contacts
    + 2 * (2 * 5 * 2) // fingers
    + 2 * (2 * 4 * 2) // vias
    + 8 * 2 // pad
    + 3 * 4 * 3; // plate

// How many elements: a box has as many as cells, a clipped prism two fewer than points, one by the scanline two a quad.
const ELEMENTS: usize = 4 * 4 * 1 // active area
    + 2 * 2 // gate
    + 2 * (2 * 12 * 2) // contacts
    + 2 * (1 * 4 * 1) // fingers
    + 2 * (1 * 3 * 1) // vias
    + (8 - 2) // pad
    + 2 * 3 * 2; // plate

// How many node places: eight an element.
const PLACES: usize = 8 * ELEMENTS;

// The mesh, and a diagnostic for each region.
#[derive(Drop)]
pub struct Mesh {
    xs: [f64; NODES],
    ys: [f64; NODES],
    zs: [f64; NODES],
    kinds: [u8; ELEMENTS],
    places: [u32; PLACES],
    regions: [u32; ELEMENTS],
    pub diagnostics: [u32; REGIONS],
    pub counts: Counts,
}

// An element: its kind, its eight node places, and its region.
#[derive(Clone, Copy)]
pub struct Element<'a> {
    pub kind: ElementType,
    pub places: &'a [u32; 8],
    pub region: u32,
}

const CONFIG: MeshConfig = MeshConfig {
    lateral_cell: 2e-6,
    z_cell: 0.5e-6,
};

impl Mesh {
    const EMPTY: Self = Self {
        xs: [0.0; NODES],
        ys: [0.0; NODES],
        zs: [0.0; NODES],
        kinds: [0; ELEMENTS],
        places: [0; PLACES],
        regions: [0; ELEMENTS],
        diagnostics: [0; REGIONS],
        counts: Counts {
            nodes: 0,
            elements: 0,
        },
    };

    // Meshes the regions in cells of 2 by 2 by 0.5 micrometres, the contacts in finer ones.
    pub fn of(points: &Points, regions: &Regions) -> Result<Self, Refusal> {
        let mut to = Self::EMPTY;
        let overrides = Overrides {
            materials: &[CONTACT],
            laterals: &[0.5e-6],
            verticals: &[0.25e-6],
        };
        let mut lists = MeshLists {
            xs: &mut to.xs,
            ys: &mut to.ys,
            zs: &mut to.zs,
            kinds: &mut to.kinds,
            places: &mut to.places,
            regions: &mut to.regions,
        };
        let counts = mesh_model_with_options(
            regions.lent(),
            &points.xs,
            &points.ys,
            overrides,
            CONFIG,
            to.counts,
            &mut lists,
            &mut to.diagnostics,
        )?;
        Ok(Self { counts, ..to })
    }

    // Node i, if there is one.
    pub fn node(&self, i: usize) -> Option<Point3> {
        let x = *self.xs.get(i)?;
        let y = *self.ys.get(i)?;
        let z = *self.zs.get(i)?;
        Some(Point3 { x, y, z })
    }

    // Element k, if there is one.
    pub fn element(&self, k: usize) -> Option<Element<'_>> {
        let kind = ElementType::try_from(*self.kinds.get(k)?).ok()?;
        let places = self.places.get(k.saturating_mul(8)..)?.first_chunk()?;
        let region = *self.regions.get(k)?;
        Some(Element {
            kind,
            places,
            region,
        })
    }

    // How many elements a region has.
    pub fn elements_of(&self, region: usize) -> usize {
        self.regions
            .iter()
            .take(self.counts.elements)
            .filter(|r| **r as usize == region)
            .count()
    }
}

// The switch's regions: stacking them, and reading each by its number. The lists are as long as there are regions, and are lent whole.
ghost use Rattle.std.specs.Prelude.{◌<◌, ◌≡◌, length};

use crate::layout::{Layout, POINTS, POLYGONS, Points, REGIONS};
use crate::stack::Stack;
use geometry::{RegionLists, Regions as Lists, assemble_stack, total_volume};
use openrdson_core::{Refusal, Solid};

#[derive(Drop)]
pub struct Regions {
    pub kinds: [u8; REGIONS],
    pub min_x: [f64; REGIONS],
    pub min_y: [f64; REGIONS],
    pub max_x: [f64; REGIONS],
    pub max_y: [f64; REGIONS],
    pub z_bottom: [f64; REGIONS],
    pub z_top: [f64; REGIONS],
    pub starts: [u32; REGIONS],
    pub counts: [u32; REGIONS],
    pub materials: [u32; REGIONS],
    pub nets: [u32; REGIONS],
    pub polygons: [u32; REGIONS],
    // What became of each polygon.
    pub outcomes: [u8; POLYGONS],
}

impl Regions {
    const NONE: Self = Self {
        kinds: [0; REGIONS],
        min_x: [0.0; REGIONS],
        min_y: [0.0; REGIONS],
        max_x: [0.0; REGIONS],
        max_y: [0.0; REGIONS],
        z_bottom: [0.0; REGIONS],
        z_top: [0.0; REGIONS],
        starts: [0; REGIONS],
        counts: [0; REGIONS],
        materials: [0; REGIONS],
        nets: [0; REGIONS],
        polygons: [0; REGIONS],
        outcomes: [0; POLYGONS],
    };

    // Stacks the switch.
    pub fn of_switch(points: &Points) -> Result<Self, Refusal> {
        let stack = Stack::of_switch();
        let layout = Layout::of_switch();
        let mut to = Self::NONE;
        let mut lists = RegionLists {
            kinds: &mut to.kinds,
            min_x: &mut to.min_x,
            min_y: &mut to.min_y,
            max_x: &mut to.max_x,
            max_y: &mut to.max_y,
            z_bottom: &mut to.z_bottom,
            z_top: &mut to.z_top,
            starts: &mut to.starts,
            counts: &mut to.counts,
            materials: &mut to.materials,
            nets: &mut to.nets,
            polygons: &mut to.polygons,
        };
        let stacked = assemble_stack(
            stack.blocks(),
            layout.polygons(points),
            &mut lists,
            &mut to.outcomes,
        );
        stacked.map(|_| to)
    }

    // The lists, lent to be read.
    pub fn lent(&self) -> Lists<'_>
        ensures { length result.kinds.now ≡ 12 }
    {
        Lists {
            kinds: &self.kinds,
            min_x: &self.min_x,
            min_y: &self.min_y,
            max_x: &self.max_x,
            max_y: &self.max_y,
            z_bottom: &self.z_bottom,
            z_top: &self.z_top,
            starts: &self.starts,
            counts: &self.counts,
            materials: &self.materials,
            nets: &self.nets,
            polygons: &self.polygons,
        }
    }

    // The solid of region i, if the lists have one there.
    pub fn solid(&self, i: usize) -> Option<Solid>
        requires { i < 12 }
    {
        let region = self.lent().checked().ok()?.region(POINTS, i).ok()?;
        Some(region.solid)
    }

    // A region's material, if there is such a region.
    pub fn material(&self, region: u32) -> Option<u32> {
        self.materials.get(region as usize).copied()
    }

    // The volume of all regions.
    pub fn volume(&self, points: &Points) -> Result<f64, Refusal> {
        total_volume(self.lent(), &points.xs, &points.ys)
    }
}

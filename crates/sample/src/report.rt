// The lines that the program prints.
use crate::layout::{Points, REGIONS};
use crate::mesh::Mesh;
use crate::outcome::Outcome;
use crate::regions::Regions;
use openrdson_core::{Refusal, Solid};
use std::{fmt, io};

// A volume, shown in cubic micrometres to the nearest thousandth.
#[derive(Clone, Copy)]
struct Volume(f64);

impl fmt::Display for Volume {
    fn fmt<W: fmt::Write>(&self, f: &mut fmt::Formatter<W>) -> fmt::Result {
        let n = binary64::ceil_capped(self.0 * 1e21 - 0.5);
        write!(f, "{}.{:03} um^3", n / 1000, n % 1000)
    }
}

// Why a step was turned down.
#[derive(Clone, Copy)]
pub struct Refused(pub Refusal);

impl fmt::Display for Refused {
    fn fmt<W: fmt::Write>(&self, f: &mut fmt::Formatter<W>) -> fmt::Result {
        let number = u32::from(self.0);
        write!(f, "refused with {number}")
    }
}

// A volume after its label, or why there is none.
#[derive(Clone, Copy)]
struct Measured(&'static str, Result<f64, Refusal>);

impl fmt::Display for Measured {
    fn fmt<W: fmt::Write>(&self, f: &mut fmt::Formatter<W>) -> fmt::Result {
        match self.1 {
            Ok(volume) => write!(f, "{}{}", self.0, Volume(volume)),
            Err(why) => write!(f, "volume {}", Refused(why)),
        }
    }
}

// The volume of all regions.
pub fn print_total(rt: &impl Print, points: &Points, regions: &Regions) -> io::Result<()> {
    let total = Measured("total volume: ", regions.volume(points));
    println!(rt; "{total}")
}

// What became of each polygon.
pub fn print_outcomes(rt: &impl Print, regions: &Regions) -> io::Result<()> {
    for (i, number) in regions.outcomes.iter().enumerate() {
        if let Ok(outcome) = Outcome::try_from(*number) {
            println!(rt; "polygon {i}: {outcome}")?;
        }
    }
    Ok(())
}

// The line of region i; none past the lists.
fn print_region(
    rt: &impl Print,
    points: &Points,
    regions: &Regions,
    mesh: &Mesh,
    i: usize,
    solid: Solid,
) -> io::Result<()> {
    let (Some(polygon), Some(material), Some(diagnostic)) = (
        regions.polygons.get(i),
        regions.materials.get(i),
        mesh.diagnostics.get(i),
    ) else {
        return Ok(());
    };
    let shape = match solid {
        Solid::Box { .. } => "box",
        Solid::Prism { .. } => "prism",
    };
    let elements = mesh.elements_of(i);
    print!(rt; "region {i} of polygon {polygon}: {shape}, material {material}")?;
    print!(rt; ", diagnostic {diagnostic}, elements {elements}")?;
    let volume = Measured(", volume ", solid.volume(&points.xs, &points.ys));
    println!(rt; "{volume}")
}

// A line for each region, and one for the mesh.
pub fn print_mesh(
    rt: &impl Print,
    points: &Points,
    regions: &Regions,
    mesh: &Mesh,
) -> io::Result<()> {
    for i in 0..REGIONS {
        if let Some(solid) = regions.solid(i) {
            print_region(rt, points, regions, mesh, i, solid)?;
        }
    }
    println!(rt;
        "mesh: {} nodes, {} elements",
        mesh.counts.nodes, mesh.counts.elements
    )
}

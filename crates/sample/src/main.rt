// Stacks and meshes an embedded power switch, and prints what the calls answer. Two arguments name the files that the mesh and its plan are written to.
#![tactic(auto)]

mod blocks;
mod files;
mod layout;
mod legend;
mod mesh;
mod out;
mod outcome;
mod regions;
mod report;
mod stack;
mod svg;
mod vtk;

use files::{are_two_or_none, write_files};
use layout::Points;
use mesh::Mesh;
use regions::Regions;
use report::{Refused, print_mesh, print_outcomes, print_total};
use std::io;

fn main(rt: HostRuntime) -> io::Result<()> {
    if !are_two_or_none(&rt) {
        return Ok(());
    }
    let points = Points::of_switch();
    let regions = match Regions::of_switch(&points) {
        Ok(regions) => regions,
        Err(why) => return println!(&rt; "stacking {}", Refused(why)),
    };
    print_outcomes(&rt, &regions)?;
    match Mesh::of(&points, &regions) {
        Ok(mesh) => {
            print_mesh(&rt, &points, &regions, &mesh)?;
            write_files(&rt, &points, &regions, &mesh);
        }
        Err(why) => println!(&rt; "meshing {}", Refused(why))?,
    }
    print_total(&rt, &points, &regions)
}

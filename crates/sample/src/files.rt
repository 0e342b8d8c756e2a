// The two files that arguments name: the mesh, and the picture of the plan.
use crate::layout::Points;
use crate::mesh::Mesh;
use crate::out::write_file;
use crate::regions::Regions;
use crate::svg::put_plan;
use crate::vtk::put_mesh;
use std::env::FillError;
use std::rt::{Env, Files};

// Whether the program was started with an argument of number i.
fn has_argument(rt: &impl Env, i: usize) -> bool {
    !matches!(rt.arg(i, &mut []), Err(FillError::NotPresent))
}

// Whether it was started with two arguments.
fn are_two(rt: &impl Env) -> bool {
    has_argument(rt, 2) && !has_argument(rt, 3)
}

// Whether the program was started with no file name or with two; a line says if not.
pub fn are_two_or_none(rt: &(impl Env + Eprint)) -> bool {
    if !has_argument(rt, 1) || are_two(rt) {
        return true;
    }
    let _ = eprintln!(rt; "sample: give two file names, of the VTK and of the SVG, or none");
    false
}

// Writes both files, if they are asked for.
pub fn write_files(
    rt: &(impl Env + Eprint + Files),
    points: &Points,
    regions: &Regions,
    mesh: &Mesh,
) {
    if are_two(rt) {
        write_file(rt, 1, |out| put_mesh(out, regions, mesh));
        write_file(rt, 2, |out| put_plan(out, points, regions, mesh));
    }
}

// Solids: the box 0..2 by 0..1 by 0..3, and a prism of height 2 over a triangle that is a part of the point lists.
#![tactic(auto, unfolding(worked::proofs::OnShapes::on_shapes))]

use check::expect;
use openrdson_core::{Material, PolygonNumber, Refusal, Solid, SolidRegion};
use worked::box_of;

fn boxes() {
    let solid = Solid::Box {
        min_x: 0.0,
        min_y: 0.0,
        max_x: 2.0,
        max_y: 1.0,
        z_bottom: 0.0,
        z_top: 3.0,
    };
    let xs = [7.0];
    let wild = [0.0, 0.0];
    expect(solid.volume(&xs, &xs) == Ok(6.0));
    expect(solid.volume(&xs, &wild) == Err(Refusal::UnequalLists));
    expect(solid.footprint_bbox(&xs, &xs) == Ok(box_of(0.0, 0.0, 2.0, 1.0)));
    expect(solid.z_bottom() == 0.0);
    expect(solid.z_top() == 3.0);
    expect(u32::from(Refusal::NumberOutOfRange) == 1);
    expect(u32::from(Refusal::ListTooLong) == 2);
    expect(u32::from(Refusal::ClippingStalled) == 4);
    expect(u32::from(Refusal::DegenerateBox) == 5);
    expect(u32::from(Refusal::TooManyCells) == 7);
    expect(u32::from(Refusal::NoTrapezoid) == 11);
    expect(u32::from(Refusal::OutputTooShort) == 12);
    expect(u32::from(Refusal::NodeOutsideMesh) == 13);
    expect(u32::from(Refusal::BlockDamaged) == 14);
    expect(u32::from(Refusal::OutsideList) == 15);
    expect(u32::from(Refusal::UnequalLists) == 16);
}

fn prisms() {
    let xs = [9.0, 0.0, 1.0, 0.0];
    let ys = [9.0, 0.0, 0.0, 1.0];
    let solid = Solid::Prism {
        z_bottom: 0.0,
        z_top: 2.0,
        start: 1,
        count: 3,
    };
    expect(solid.volume(&xs, &ys) == Ok(1.0));
    expect(solid.footprint_bbox(&xs, &ys) == Ok(box_of(0.0, 0.0, 1.0, 1.0)));
    let region = SolidRegion {
        material_id: Material(1),
        net: 0,
        source_polygon: PolygonNumber(0),
        solid,
    };
    expect(region.volume(&xs, &ys) == Ok(1.0));
    let short = [0.0, 1.0, 0.0];
    expect(region.volume(&short, &short) == Err(Refusal::OutsideList));
    expect(solid.footprint_bbox(&xs, &short) == Err(Refusal::UnequalLists));
    let endless = Solid::Prism {
        z_bottom: 0.0,
        z_top: 0.0 / 0.0,
        start: 1,
        count: 3,
    };
    expect(endless.volume(&xs, &ys) == Err(Refusal::NumberOutOfRange));
    expect(endless.z_bottom() == 0.0);
}

fn main() {
    boxes();
    prisms();
}

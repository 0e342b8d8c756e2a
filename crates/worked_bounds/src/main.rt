// Bounding boxes: of the triangle (0,0), (2,0), (1,4), the empty box, and a box that is extended.
#![tactic(auto, unfolding(worked::proofs::OnShapes::on_shapes))]

use check::expect;
use openrdson_core::{Bbox, Point, Refusal};
use worked::box_of;

fn points() {
    let xs = [0.0, 2.0, 1.0];
    let ys = [0.0, 0.0, 4.0];
    expect(Bbox::from_points(&xs, &ys) == Ok(box_of(0.0, 0.0, 2.0, 4.0)));
    let nan = 0.0 / 0.0;
    let wild = [nan, 0.0];
    expect(Bbox::from_points(&xs, &wild) == Err(Refusal::UnequalLists));
    expect(Bbox::from_points(&wild, &wild) == Err(Refusal::NumberOutOfRange));
    let p = Point::new(3.0, -1.0);
    expect(p == Point { x: 3.0, y: -1.0 });
    expect(p.is_in_range());
    let far = Point::new(0.0, 1048577.0);
    expect(!far.is_in_range());
}

fn boxes() {
    let none = Bbox::empty();
    expect(none.is_empty());
    expect(none.width() == 0.0);
    expect(none.height() == 0.0);
    let whole = Bbox {
        min_x: 0.0,
        min_y: 0.0,
        max_x: 2.0,
        max_y: 4.0,
    };
    expect(!whole.is_empty());
    expect(whole.width() == 2.0);
    expect(whole.height() == 4.0);
    expect(whole.center() == Point { x: 1.0, y: 2.0 });
    let wider = whole.extend_point(Point::new(3.0, 1.0));
    expect(wider == box_of(0.0, 0.0, 3.0, 4.0));
    expect(whole.extend(none) == box_of(0.0, 0.0, 2.0, 4.0));
    let low = Bbox {
        min_x: 1.0,
        min_y: -1.0,
        max_x: 3.0,
        max_y: 1.0,
    };
    expect(none.union(low) == box_of(1.0, -1.0, 3.0, 1.0));
    expect(whole.union(low) == box_of(0.0, -1.0, 3.0, 4.0));
}

fn main() {
    points();
    boxes();
}

// The switch's polygons, over an active area of 8 by 8 micrometres. Each is a part of the point lists, and two may be the same part: a via is
// drawn as the contact below it.

use geometry::Polygons;

// The points of six rectangles, the gate, the sliver, the pad and the shield.
pub const POINTS: usize = 6 * 4 + 6 + 3 + 8 + 12;

pub const POLYGONS: usize = 16;

// Each polygon gives a region but for four: a marker, a text, one on a layer without a name, and one on a layer without a z range.
pub const REGIONS: usize = POLYGONS - 4;

#[derive(Clone, Copy)]
struct Polygon {
    layer: i16,
    net: u32,
    start: u32,
    count: u32,
}

impl Polygon {
    fn new(layer: i16, net: u32, start: u32, count: u32) -> Self {
        Self {
            layer,
            net,
            start,
            count,
        }
    }
}

// Net 1 is the source, 2 the drain, 3 the gate.
fn polygons() -> [Polygon; POLYGONS] {
    [
        // The active area, the gate, and a marker on it.
        Polygon::new(1, 0, 0, 4),
        Polygon::new(4, 3, 4, 6),
        Polygon::new(60, 3, 4, 6),
        // Two contacts, and their fingers of metal 1.
        Polygon::new(6, 1, 10, 4),
        Polygon::new(6, 2, 14, 4),
        Polygon::new(8, 1, 18, 4),
        Polygon::new(8, 2, 22, 4),
        // A sliver of metal 2, two vias, a pad of metal 2, a text on it, and a plate of metal 2.
        Polygon::new(10, 0, 26, 3),
        Polygon::new(17, 1, 10, 4),
        Polygon::new(17, 2, 14, 4),
        Polygon::new(10, 1, 29, 8),
        Polygon::new(63, 1, 29, 8),
        Polygon::new(10, 2, 37, 4),
        // One on a layer without a name, one on metal 3, and a shield of metal 2.
        Polygon::new(99, 0, 0, 4),
        Polygon::new(30, 0, 0, 4),
        Polygon::new(10, 0, 41, 12),
    ]
}

// What stacking takes of the polygons.
#[derive(Drop)]
pub struct Layout {
    layers: [i16; POLYGONS],
    nets: [u32; POLYGONS],
    starts: [u32; POLYGONS],
    counts: [u32; POLYGONS],
}

impl Layout {
    // The polygons of the switch.
    pub fn of_switch() -> Self {
        Layout {
            layers: polygons().map(|p| p.layer),
            nets: polygons().map(|p| p.net),
            starts: polygons().map(|p| p.start),
            counts: polygons().map(|p| p.count),
        }
    }

    // The polygons, lent beside the points that they are parts of.
    pub fn polygons<'a>(&'a self, points: &'a Points) -> Polygons<'a> {
        Polygons {
            layers: &self.layers,
            nets: &self.nets,
            starts: &self.starts,
            counts: &self.counts,
            xs: &points.xs,
            ys: &points.ys,
        }
    }
}

const PLAN: [(f64, f64); POINTS] = [
    // The active area.
    (1e-6, 1e-6),
    (9e-6, 1e-6),
    (9e-6, 9e-6),
    (1e-6, 9e-6),
    // The gate, an L.
    (4.4e-6, 0.0),
    (5e-6, 0.0),
    (5e-6, 10e-6),
    (7.4e-6, 10e-6),
    (7.4e-6, 11e-6),
    (4.4e-6, 11e-6),
    // The contacts of source and drain.
    (2e-6, 2e-6),
    (3e-6, 2e-6),
    (3e-6, 8e-6),
    (2e-6, 8e-6),
    (6.5e-6, 2e-6),
    (7.5e-6, 2e-6),
    (7.5e-6, 8e-6),
    (6.5e-6, 8e-6),
    // Their fingers.
    (1.5e-6, 1e-6),
    (3.5e-6, 1e-6),
    (3.5e-6, 9e-6),
    (1.5e-6, 9e-6),
    (6e-6, 1e-6),
    (8e-6, 1e-6),
    (8e-6, 9e-6),
    (6e-6, 9e-6),
    // The sliver, three points on one line, of which no mesh is made.
    (5e-6, 1e-6),
    (5e-6, 5e-6),
    (5e-6, 9e-6),
    // The pad, an octagon.
    (1.5e-6, 2e-6),
    (3.5e-6, 2e-6),
    (4.5e-6, 3e-6),
    (4.5e-6, 7e-6),
    (3.5e-6, 8e-6),
    (1.5e-6, 8e-6),
    (0.5e-6, 7e-6),
    (0.5e-6, 3e-6),
    // The plate.
    (5.5e-6, 2e-6),
    (8.5e-6, 2e-6),
    (8.5e-6, 8e-6),
    (5.5e-6, 8e-6),
    // The shield, an L. It was drawn round twice: by the even-odd rule nothing is inside, and no mesh is made.
    (0.5e-6, 9.4e-6),
    (3.8e-6, 9.4e-6),
    (3.8e-6, 10e-6),
    (1.5e-6, 10e-6),
    (1.5e-6, 11e-6),
    (0.5e-6, 11e-6),
    (0.5e-6, 9.4e-6),
    (3.8e-6, 9.4e-6),
    (3.8e-6, 10e-6),
    (1.5e-6, 10e-6),
    (1.5e-6, 11e-6),
    (0.5e-6, 11e-6),
];

// The points of all polygons.
#[derive(Drop)]
pub struct Points {
    pub xs: [f64; POINTS],
    pub ys: [f64; POINTS],
}

impl Points {
    // The points of the switch.
    pub fn of_switch() -> Self {
        Points {
            xs: PLAN.map(|(x, _)| x),
            ys: PLAN.map(|(_, y)| y),
        }
    }

    // Point i, if there is one.
    pub fn at(&self, i: usize) -> Option<(f64, f64)> {
        Some((*self.xs.get(i)?, *self.ys.get(i)?))
    }
}

// The switch's layer names, maps and stack. A block has 2 bytes for its count, and then 34 a layer name, 64 a row of a map, 49 a conductor or a
// diffusion, 96 a via.
use crate::blocks;
use openrdson_core::Blocks;

#[derive(Drop)]
pub struct Stack {
    names: [u8; 2 + 9 * 34],
    conducting: [u8; 2 + 5 * 64],
    via: [u8; 2 + 2 * 64],
    conductors: [u8; 2 + 4 * 49],
    diffusions: [u8; 2 + 49],
    vias: [u8; 2 + 2 * 96],
}

impl Stack {
    // The stack that the switch is made in.
    pub fn of_switch() -> Self {
        Self {
            // Layer 60 is a marker, and layer 63 is in neither map.
            names: blocks::layers(&[
                (1, "active"),
                (4, "poly"),
                (6, "contact"),
                (8, "metal1"),
                (17, "via1"),
                (10, "metal2"),
                (30, "metal3"),
                (60, "seed_gate"),
                (63, "pad_text"),
            ]),
            conducting: blocks::names(&[
                ("active", "ndiff"),
                ("poly", "poly1"),
                ("metal1", "M1"),
                ("metal2", "M2"),
                ("metal3", "M3"),
            ]),
            via: blocks::names(&[("contact", "cont"), ("via1", "V1")]),
            // Materials 1 to 4. M3 has no thickness, so what is drawn on it has no z range.
            conductors: blocks::stack(&[
                ("poly1", 0.25e-6, Some(0.18e-6)),
                ("M1", 0.7e-6, Some(0.5e-6)),
                ("M2", 1.7e-6, Some(0.9e-6)),
                ("M3", 3.2e-6, None),
            ]),
            // Material 5.
            diffusions: blocks::stack(&[("ndiff", 0.0, Some(0.2e-6))]),
            // Materials 6 and 7.
            vias: blocks::vias(&[("cont", "ndiff", "M1"), ("V1", "M1", "M2")]),
        }
    }

    // The six blocks, to be read.
    pub fn blocks(&self) -> Blocks<'_> {
        Blocks {
            names: &self.names,
            conducting: &self.conducting,
            via: &self.via,
            conductors: &self.conductors,
            diffusions: &self.diffusions,
            vias: &self.vias,
        }
    }
}

// The contacts' material.
pub const CONTACT: u32 = 6;

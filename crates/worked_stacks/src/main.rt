// Stacks: one layer m of height 1, the same with an infinite height or another flag, a diffusion n and a via v.
#![tactic(auto, unfolding(worked::proofs::OnShapes::on_names))]

use check::expect;
use openrdson_core::{
    Blocks, Figures, Material, Refusal, Stack, Vias, check_blocks, material_number, stack_layer,
};
use worked::stack_of;

fn stacks() {
    let empty = [0, 0];
    let damaged = [1, 0];
    let stack = stack_of!(b'm', 1, 240, 63);
    let endless = stack_of!(b'm', 1, 240, 127);
    let flagged = stack_of!(b'm', 4, 0, 0);
    expect(material_number(&stack, &empty, &empty, b"m") == Ok(Material(1)));
    expect(material_number(&stack, &empty, &empty, b"x") == Ok(Material(0)));
    expect(material_number(&stack, &empty, &damaged, b"m") == Err(Refusal::BlockDamaged));
    let high = Figures {
        height: Some(1.0),
        thickness: None,
    };
    expect(stack_layer(&stack, b"m") == Ok(Some(high)));
    expect(stack_layer(&endless, b"m") == Err(Refusal::NumberOutOfRange));
    expect(stack_layer(&flagged, b"m") == Err(Refusal::BlockDamaged));
}

fn materials() {
    let conductors = stack_of!(b'm', 0, 0, 0);
    let diffusions = stack_of!(b'n', 0, 0, 0);
    let mut vias = [0; 98];
    vias[0] = 1;
    vias[2] = 118;
    expect(material_number(&conductors, &diffusions, &vias, b"n") == Ok(Material(2)));
    expect(material_number(&conductors, &diffusions, &vias, b"v") == Ok(Material(3)));
}

fn figures() {
    let empty = [0, 0];
    let damaged = [1, 0];
    let endless = stack_of!(b'm', 1, 240, 127);
    expect(
        check_blocks(&empty, &empty, &empty, &empty, &endless, &empty)
            == Err(Refusal::NumberOutOfRange),
    );
    expect(
        check_blocks(&empty, &empty, &empty, &endless, &empty, &damaged)
            == Err(Refusal::BlockDamaged),
    );
}

// Lookups in blocks that have been checked.
fn checked_stack() {
    let damaged = [1, 0];
    expect(Stack::checked(&damaged).is_err());
    let stack = stack_of!(b'm', 1, 240, 63);
    if let Ok(layers) = Stack::checked(&stack) {
        expect(layers.rows() == 1);
        expect(layers.find(b"m").is_some());
        expect(layers.find(b"n").is_none());
    }
}

fn checked_vias() {
    let damaged = [1, 0];
    expect(Vias::checked(&damaged).is_err());
    let mut vias = [0; 98];
    vias[0] = 1;
    vias[2] = 118;
    if let Ok(list) = Vias::checked(&vias) {
        expect(list.rows() == 1);
        expect(list.find(b"v").is_some());
        expect(list.find(b"m").is_none());
    }
}

fn checked_blocks() {
    let empty = [0, 0];
    let damaged = [1, 0];
    let mut vias = [0; 98];
    vias[0] = 1;
    vias[2] = 118;
    let blocks = Blocks {
        names: &empty,
        conducting: &empty,
        via: &empty,
        conductors: &empty,
        diffusions: &empty,
        vias: &vias,
    };
    if let Ok(sound) = blocks.checked() {
        expect(sound.find_material(b"v") == Material(1));
    }
    let wrong = Blocks {
        names: &empty,
        conducting: &empty,
        via: &empty,
        conductors: &empty,
        diffusions: &empty,
        vias: &damaged,
    };
    expect(wrong.checked().is_err());
}

fn main() {
    stacks();
    materials();
    figures();
    checked_stack();
    checked_vias();
    checked_blocks();
}

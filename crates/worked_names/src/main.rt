// Names in blocks: layer -2 is named a; the via v goes up from m and has no top layer; maps of one row lead from a to b and from a to cc; a map of two rows
// leads from a and b to c.
#![tactic(auto, unfolding(worked::proofs::OnShapes::on_names))]

use check::expect;
use openrdson_core::{LayerMap, LayerNames, Refusal, layer_name, physical_name, via_layers};
use worked::{layer_name_is, map_of, place_is, place_starts, via_is};

fn layers() {
    let damaged = [1, 0];
    let mut names = [0; 36];
    names[0] = 1;
    names[2] = 254;
    names[3] = 255;
    names[4] = 97;
    expect(layer_name_is(&names, -2, b"a"));
    expect(layer_name(&damaged, -2) == Err(Refusal::BlockDamaged));
}

fn vias() {
    let mut vias = [0; 98];
    vias[0] = 1;
    vias[2] = 118;
    vias[34] = 109;
    expect(via_is(&vias, b"v", b"m", b""));
    expect(via_layers(&vias, b"m") == Ok(None));
}

fn places() {
    let empty = [0, 0];
    let first = map_of!(b'a', b'b', 0);
    let second = map_of!(b'a', b'c', b'c');
    expect(place_is(&first, &second, b"a", b"b"));
    expect(place_is(&empty, &second, b"a", b"cc"));
    expect(physical_name(&first, &second, b"a") == b"b".as_slice());
    expect(physical_name(&second, &first, b"a") == b"cc".as_slice());
}

// The same physical name in two rows: the name that is found is that of the row asked for.
fn starts() {
    let empty = [0, 0];
    let mut twice = [0; 130];
    twice[0] = 2;
    twice[2] = 97;
    twice[34] = 98;
    twice[66] = 99;
    twice[98] = 99;
    expect(place_starts(&twice, &empty, b"b", 98));
    expect(place_starts(&empty, &twice, b"a", 66));
}

// Lookups in blocks that have been checked.
fn checked() {
    let damaged = [1, 0];
    expect(LayerNames::checked(&damaged).is_err());
    expect(LayerMap::checked(&damaged).is_err());
    let mut names = [0; 36];
    names[0] = 1;
    names[2] = 254;
    names[3] = 255;
    names[4] = 97;
    if let Ok(layers) = LayerNames::checked(&names) {
        expect(layers.rows() == 1);
        expect(layers.find(-2) == Some(0));
        expect(layers.find(-3) == None);
    }
    let mut twice = [0; 130];
    twice[0] = 2;
    twice[2] = 97;
    twice[34] = 98;
    twice[66] = 99;
    twice[98] = 99;
    if let Ok(map) = LayerMap::checked(&twice) {
        expect(map.find(b"b").is_some());
        expect(map.find(b"c").is_none());
    }
}

fn main() {
    layers();
    vias();
    places();
    starts();
    checked();
}

// Name blocks: markers, empty blocks, a block of one row that has none, and maps of one row, a to b and a to cc.
#![tactic(auto, unfolding(worked::proofs::OnShapes::on_names))]

use check::expect;
use openrdson_core::{Refusal, check_blocks, is_marker, look_up};
use worked::map_of;

fn markers() {
    expect(is_marker(b"seed_x"));
    expect(!is_marker(b"xseed_"));
    expect(is_marker(b"a_propb"));
    expect(!is_marker(b"prop"));
}

fn empties() {
    let empty = [0, 0];
    let damaged = [1, 0];
    expect(check_blocks(&empty, &empty, &empty, &empty, &empty, &empty) == Ok(()));
    expect(
        check_blocks(&empty, &empty, &empty, &empty, &empty, &damaged)
            == Err(Refusal::BlockDamaged),
    );
    expect(
        check_blocks(&damaged, &empty, &empty, &empty, &empty, &empty)
            == Err(Refusal::BlockDamaged),
    );
}

fn lookups() {
    let empty = [0, 0];
    let damaged = [1, 0];
    let first = map_of!(b'a', b'b', 0);
    let second = map_of!(b'a', b'c', b'c');
    expect(look_up(&first, &empty, b"a") == Ok(true));
    expect(look_up(&empty, &second, b"a") == Ok(true));
    expect(look_up(&first, &empty, b"b") == Ok(false));
    expect(look_up(&first, &damaged, b"a") == Err(Refusal::BlockDamaged));
}

fn main() {
    markers();
    empties();
    lookups();
}

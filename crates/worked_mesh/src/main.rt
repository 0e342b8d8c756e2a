// Meshes: the four kinds, lists of a tet and a hex, the room in a list of eight, a tet beside a pyramid that has one node place too many, and entries of lists.
#![tactic(auto, unfolding(worked::proofs::OnShapes::on_meshes))]

use check::expect;
use openrdson_core::{
    Counts, ElementType, Mesh, MeshLists, Point3, UNUSED, UnknownKind, counts_within, has_room,
    lists_parallel, node_count_of, used_places,
};

fn kinds() {
    expect(u8::from(ElementType::Tet) == 0);
    expect(u8::from(ElementType::Hex) == 1);
    expect(u8::from(ElementType::Prism) == 2);
    expect(u8::from(ElementType::Pyramid) == 3);
    expect(ElementType::Tet.node_count() == 4);
    expect(ElementType::Hex.node_count() == 8);
    expect(ElementType::Prism.node_count() == 6);
    expect(ElementType::Pyramid.node_count() == 5);
    expect(ElementType::try_from(2) == Ok(ElementType::Prism));
    expect(ElementType::try_from(3) == Ok(ElementType::Pyramid));
    expect(ElementType::try_from(4) == Err(UnknownKind(4)));
}

fn lengths() {
    expect(lists_parallel(9, 9, 9, 2, 16, 2));
    expect(!lists_parallel(9, 9, 8, 2, 16, 2));
    expect(!lists_parallel(9, 9, 9, 2, 12, 2));
    let counts = Counts {
        nodes: 9,
        elements: 2,
    };
    expect(counts_within(counts, 9, 2));
    expect(!counts_within(counts, 9, 1));
    expect(has_room(3, 5, 8));
    expect(!has_room(4, 5, 8));
    expect(has_room(1048576, 0, 2000000));
    expect(!has_room(1048576, 1, 2000000));
}

fn points() {
    let p = Point3::new(1.0, 2.0, 3.0);
    expect(p.x == 1.0);
    expect(p.y == 2.0);
    expect(p.z == 3.0);
}

fn elements() {
    let mesh = Mesh {
        xs: &[0.0; 4],
        ys: &[0.0; 4],
        zs: &[0.0; 4],
        kinds: &[0, 3],
        places: &[
            0, 1, 2, 3, UNUSED, UNUSED, UNUSED, UNUSED, 0, 1, 2, 3, 4, 5, UNUSED, UNUSED,
        ],
        regions: &[7, 7],
    };
    expect(mesh.is_parallel());
    let tet = mesh.element(0);
    expect(tet.is_sound());
    expect(tet.is_inside(4));
    expect(!tet.is_inside(3));
    expect(tet.is_ok(4));
    let pyramid = mesh.element(1);
    expect(!pyramid.is_sound());
    expect(pyramid.is_inside(5));
    expect(!pyramid.is_ok(5));
    expect(node_count_of(3) == Some(5));
    expect(node_count_of(4) == None);
    expect(used_places(3) == 5);
    expect(used_places(4) == 0);
}

fn written() {
    let lists = MeshLists {
        xs: &mut [0.0; 4],
        ys: &mut [0.0; 4],
        zs: &mut [0.0; 4],
        kinds: &mut [0; 2],
        places: &mut [0; 16],
        regions: &mut [0; 2],
    };
    expect(lists.is_parallel());
    let full = Counts {
        nodes: 4,
        elements: 2,
    };
    expect(lists.holds(full));
    let past = Counts {
        nodes: 4,
        elements: 3,
    };
    expect(!lists.holds(past));
}

fn main() {
    kinds();
    lengths();
    points();
    elements();
    written();
}

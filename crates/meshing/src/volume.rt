// The volume of a mesh: a prism's by its first triangle and its mean height, another element's by its bounding box.
ghost use Rattle.std.specs.Prelude.{◌≡◌, true, false, length};
ghost use Rattle.std.specs.Float.{inf};
ghost use Rattle.binary64.specs.Numbers.{◌⊖◌};
ghost use Rattle.openrdson_core.specs.Bounds.{lesser, greater};
ghost use Rattle.openrdson_core.specs.Answers.{answer};
ghost use Rattle.openrdson_core.specs.Mesh.{kind_number, read};
ghost use Rattle.meshing.specs.Volumes as spec;

use crate::whole::{EvenMesh, SoundElement, SoundMesh};
use openrdson_core::{ElementType, Mesh, Point3, Refusal};

// From a to b.
fn minus(b: Point3, a: Point3) -> Point3
    ensures { result ≡ spec.minus b a }
{
    Point3::new(b.x - a.x, b.y - a.y, b.z - a.z)
}

// From 2^-500 to 2^500 in size.
fn is_plain(x: f64) -> bool
    ensures { result ≡ spec.is_plain x }
{
    let size = binary64::abs(x);
    (3.054936363499605e-151 <= size) & (size <= 3.273390607896142e150)
}

// The size of a vector. Along z, as the cross product of a level triangle is, it needs no root: the root of a rounded square is the size.
#[tactic(auto, using(crate::proofs::VolumeLaws::norm_along), unfolding(crate::specs::Volumes::norm))]
fn norm(c: Point3) -> f64
    ensures { result ≡ spec.norm c }
{
    if (c.x == 0.0) & (c.y == 0.0) & is_plain(c.z) {
        return binary64::abs(c.z);
    }
    binary64::sqrt(c.x * c.x + c.y * c.y + c.z * c.z)
}

fn cross_product(u: Point3, v: Point3) -> Point3
    ensures { result ≡ spec.cross_product u v }
{
    Point3::new(
        u.y * v.z - u.z * v.y,
        u.z * v.x - u.x * v.z,
        u.x * v.y - u.y * v.x,
    )
}

#[tactic(auto, unfolding(crate::specs::Volumes::triangle_area))]
fn triangle_area(a: Point3, b: Point3, c: Point3) -> f64
    ensures { result ≡ spec.triangle_area a b c }
{
    0.5 * norm(cross_product(minus(b, a), minus(c, a)))
}

// The mean of the sizes of three heights.
#[tactic(auto, unfolding(crate::specs::Volumes::mean_height))]
fn mean_height(p: f64, q: f64, r: f64) -> f64
    ensures { result ≡ spec.mean_height p q r }
{
    (binary64::abs(p) + binary64::abs(q) + binary64::abs(r)) / 3.0
}

// The volume of a prism.
#[tactic(auto, unfolding(crate::specs::Volumes::prism_volume))]
fn prism_volume(prism: SoundElement<'_>) -> f64
    requires { length prism.used.now ≡ 6 }
    ensures { result ≡ spec.prism_volume prism.entry.nodes.xs.now prism.entry.nodes.ys.now prism.entry.nodes.zs.now prism.entry.used.now }
{
    let a = prism.node(0);
    let b = prism.node(1);
    let c = prism.node(2);
    let d = prism.node(3);
    let e = prism.node(4);
    let f = prism.node(5);
    triangle_area(a, b, c) * mean_height(d.z - a.z, e.z - b.z, f.z - c.z)
}

// How far numbers reach: the least and the greatest so far. One of each for every axis goes through one loop over an element's nodes, which takes less than a
// loop for every axis.
#[derive(Clone, Copy)]
struct Reach {
    least: f64,
    most: f64,
}

impl Reach {
    // Of no number.
    fn new() -> Self
        ensures { (result.least ≡ inf false) × (result.most ≡ inf true) }
    {
        Reach {
            least: binary64::infinity(),
            most: binary64::minus_infinity(),
        }
    }

    // With one more number. Not std's min and max: of two zeros they may take the other one. The least is written out: binary64 has `larger` alone.
    fn with(self, v: f64) -> Self
        ensures { (result.least ≡ lesser v self.least) × (result.most ≡ greater v self.most) }
    {
        Reach {
            least: if v < self.least { v } else { self.least },
            most: binary64::larger(self.most, v),
        }
    }

    // From the least to the greatest.
    fn length(self) -> f64
        ensures { result ≡ self.most ⊖ self.least }
    {
        self.most - self.least
    }
}

// The volume of the box round the nodes of an element.
fn box_volume(element: SoundElement<'_>) -> f64
    ensures { result ≡ spec.box_volume element.entry.nodes.xs.now element.entry.nodes.ys.now element.entry.nodes.zs.now (length element.entry.used.now) element.entry.used.now }
{
    let mut x = Reach::new();
    let mut y = Reach::new();
    let mut z = Reach::new();
    for k in 0..element.used.len() {
        let node = element.node(k);
        x = x.with(node.x);
        y = y.with(node.y);
        z = z.with(node.z);
    }
    x.length() * y.length() * z.length()
}

// The volume of an element.
#[tactic(auto, using(crate::proofs::VolumeLaws::element_prism, crate::proofs::VolumeLaws::element_box))]
fn element_volume(element: SoundElement<'_>) -> f64
    ensures { result ≡ spec.element_volume element.entry.nodes.xs.now element.entry.nodes.ys.now element.entry.nodes.zs.now (kind_number element.entry.kind) element.entry.used.now }
{
    match element.kind {
        ElementType::Prism => prism_volume(element),
        _ => box_volume(element),
    }
}

// The volumes of the elements, one after the other.
#[tactic(auto, using(lists::proofs::Folds::fold_start, lists::proofs::Folds::fold_more, lists::proofs::Folds::fold_end, crate::proofs::VolumeLaws::element_added), unfolding(crate::specs::Volumes::volume_below))]
fn volume_of_elements(mesh: SoundMesh<'_>) -> f64
    ensures { result ≡ spec.volume_below mesh.entry.mesh.lists.xs.now mesh.entry.mesh.lists.ys.now mesh.entry.mesh.lists.zs.now mesh.entry.mesh.lists.kinds.now mesh.entry.mesh.lists.places.now (length mesh.entry.mesh.lists.kinds.now) }
{
    let mut sum = 0.0;
    for e in 0..mesh.mesh.lists.kinds.len() {
        sum = sum + element_volume(mesh.element(e));
    }
    sum
}

// The volume of a mesh, whose lists hold it and nothing past it; 16, 2, 1, 15, 13.
#[tactic(auto, unfolding(crate::specs::Volumes::mesh_volume, crate::specs::Whole::mesh_fault))]
pub fn mesh_volume(mesh: Mesh<'_>) -> Result<f64, Refusal>
    ensures { answer result ≡ spec.mesh_volume (read mesh.entry) }
{
    let mesh = EvenMesh::new(mesh)?.checked()?;
    Ok(volume_of_elements(mesh))
}

// What the programs of meshes share: counts, cells of 1, and the lists of a mesh.
#![tactic(auto)]

mod meshed;

ghost use Rattle.std.specs.Prelude.{◌≡◌};
ghost use Rattle.openrdson_core.specs.Mesh.{the_counts};

use meshing::MeshConfig;
use openrdson_core::Counts;

// No nodes and no elements.
pub const EMPTY: Counts = Counts {
    nodes: 0,
    elements: 0,
};

// Cells of 1, across and in height.
pub const UNIT_CELLS: MeshConfig = MeshConfig {
    lateral_cell: 1.0,
    z_cell: 1.0,
};

// The counts of so many nodes and elements.
pub fn counts_of(nodes: usize, elements: usize) -> Counts
    ensures { result ≡ the_counts nodes elements }
{
    Counts { nodes, elements }
}

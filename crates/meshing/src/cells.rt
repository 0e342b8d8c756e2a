// Cells and coordinates on an axis.
ghost use Rattle.std.specs.Prelude.{◌≡◌, ◌≤◌, ◌<◌, ◌+◌, ◌*◌};
ghost use Rattle.binary64.specs.Numbers.{◌⊖◌, ◌⊘◌};
ghost use Rattle.openrdson_core.specs.Answers.{answer};
ghost use Rattle.meshing.specs.Grid.{grid_nodes, grid_cells};
ghost use Rattle.meshing.specs.Cells as spec;

use openrdson_core::Refusal;

// The two cell sizes: along x and y, and in height.
#[derive(Clone, Copy)]
pub struct MeshConfig {
    pub lateral_cell: f64,
    pub z_cell: f64,
}

impl MeshConfig {
    // The original's default.
    pub const DEFAULT: MeshConfig = MeshConfig {
        lateral_cell: 1e-6,
        z_cell: 0.1e-6,
    };
}

impl Default for MeshConfig {
    ghost is_default = { λ config. config ≡ spec.default_config };

    fn default() -> MeshConfig {
        MeshConfig::DEFAULT
    }
}

// 1 - 1e-12
const ALMOST_ONE: f64 = 0.999999999999;

// How many cells an extent has; 1, 5, 6, 7.
#[tactic(auto, unfolding(crate::specs::Cells::cell_count))]
pub fn cell_count(extent: f64, cell: f64) -> Result<usize, Refusal>
    ensures { answer result ≡ spec.cell_count extent cell }
{
    if !(binary64::extent_in_range(extent) & binary64::coordinate_in_range(cell)) {
        return Err(Refusal::NumberOutOfRange);
    }
    cells_of(extent, cell)
}

// The coordinate at a place of the axis from min to max, of cells of this size; 1, 5, 6, 7, 15.
#[tactic(auto, using(crate::proofs::CellLaws::count_most), unfolding(crate::specs::Cells::axis_coordinate))]
pub fn axis_coordinate(min: f64, max: f64, cell: f64, place: usize) -> Result<f64, Refusal>
    ensures { answer result ≡ spec.axis_coordinate min max cell place }
{
    if !(binary64::coordinate_in_range(min)
        & binary64::coordinate_in_range(max)
        & binary64::coordinate_in_range(cell))
    {
        return Err(Refusal::NumberOutOfRange);
    }
    let n = cells_of(max - min, cell)?;
    if place > n {
        return Err(Refusal::OutsideList);
    }
    Ok(Axis::new(min, max, n).at(place))
}

// How many cells an extent has, where it and the cell size are in range; 5, 6, 7.
#[tactic(auto, unfolding(crate::specs::Cells::cells_of))]
fn cells_of(extent: f64, cell: f64) -> Result<usize, Refusal>
    ensures { answer result ≡ spec.cells_of extent cell }
{
    if !(extent > 0.0) {
        return Err(Refusal::DegenerateBox);
    }
    if !(cell > 0.0) {
        return Err(Refusal::CellSizeNotPositive);
    }
    let n = cells_for(extent, cell);
    if n > 4096 {
        return Err(Refusal::TooManyCells);
    }
    Ok(n)
}

// How many cells of a size cover an extent; a quotient that is a whole number but for its rounding is not rounded up.
#[tactic(auto, unfolding(crate::specs::Cells::cells_for))]
pub fn cells_for(extent: f64, cell: f64) -> usize
    ensures { result ≡ spec.cells_for extent cell }
{
    binary64::ceil_capped(extent / cell * ALMOST_ONE).max(1) as usize
}

// How many cells a box has along x, y and z.
#[derive(Clone, Copy)]
pub struct Cells {
    pub nx: usize,
    pub ny: usize,
    pub nz: usize,
    ghost few: { (nx ≤ 4096) × (ny ≤ 4096) × (nz ≤ 4096) },
}

impl Cells {
    // How many nodes the box has.
    #[tactic(auto, using(crate::proofs::BoxLaws::cube_fits))]
    pub fn nodes(self) -> usize
        ensures { result ≡ grid_nodes self.nx self.ny self.nz }
    {
        (self.nx + 1) * (self.ny + 1) * (self.nz + 1)
    }

    // How many elements it has.
    #[tactic(auto, using(crate::proofs::BoxLaws::cube_fits))]
    pub fn elements(self) -> usize
        ensures { result ≡ grid_cells self.nx self.ny self.nz }
    {
        self.nx * self.ny * self.nz
    }
}

// An axis in cells, each a step long.
#[derive(Clone, Copy)]
pub struct Axis {
    pub low: f64,
    pub high: f64,
    step: f64,
    pub cells: usize,
    ghost few: { cells ≤ 4096 },
    ghost even: { step ≡ (high ⊖ low) ⊘ spec.real cells },
}

impl Axis {
    // The axis from low to high.
    pub fn new(low: f64, high: f64, cells: usize) -> Self
        requires { cells ≤ 4096 }
        ensures low { result.low ≡ low }
        ensures high { result.high ≡ high }
        ensures cells { result.cells ≡ cells }
    {
        let n = cells as u32;
        let step = (high - low) / (n as f64);
        Axis {
            low,
            high,
            step,
            cells,
        }
    }

    // The coordinate at a place before the last. A u32 is turned into a float more quickly than a usize.
    #[tactic(auto, using(crate::proofs::GridLaws::axis_inner))]
    pub fn before_end(self, i: usize) -> f64
        requires { i < self.cells }
        ensures { result ≡ spec.axis_at self.low self.high self.cells i }
    {
        let place = i as u32;
        self.low + self.step * (place as f64)
    }

    // The coordinate at place i; the last is exactly high.
    #[tactic(auto, using(crate::proofs::GridLaws::axis_last))]
    pub fn at(self, i: usize) -> f64
        requires { i ≤ self.cells }
        ensures { result ≡ spec.axis_at self.low self.high self.cells i }
    {
        if i == self.cells {
            return self.high;
        }
        self.before_end(i)
    }
}

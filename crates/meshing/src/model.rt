// Meshing a model: every region of a region list, with cell sizes by material. The calls take the two lists of points by themselves, as they are lent, and
// the functions take the counts beside the lists: a struct of counts and `&mut` lists that keeps what is known of both cannot be lent on.
ghost use Rattle.std.specs.Prelude.{◌≡◌, ◌≤◌, ◌<◌, length, IfOk};
ghost use Rattle.lists.specs.Answer.{map_answer};
ghost use Rattle.lists.specs.Lists.{all_of};
ghost use Rattle.openrdson_core.specs.Mesh.{held, Same};
ghost use Rattle.openrdson_core.specs.Answers.{answer};
ghost use Rattle.geometry.specs.Regions.{listed};
ghost use Rattle.meshing.specs.Added.{Adds};
ghost use Rattle.meshing.specs.Models as spec;

use crate::cells::MeshConfig;
use crate::region::mesh_region;
use geometry::{EvenRegions, LARGEST_MATERIAL, Regions};
use openrdson_core::{Counts, Material, MeshLists, Points, Refusal};

// The cell sizes of some materials.
#[derive(Clone, Copy)]
pub struct Overrides<'a> {
    pub materials: &'a [u32],
    pub laterals: &'a [f64],
    pub verticals: &'a [f64],
}

// Overrides in equally long lists.
#[derive(Clone, Copy)]
struct EvenOverrides<'a> {
    lists: Overrides<'a>,
    ghost even: { (length lists.laterals.now ≡ length lists.materials.now) × (length lists.verticals.now ≡ length lists.materials.now) },
}

// What a model is meshed from.
#[derive(Clone, Copy)]
struct Job<'a> {
    regions: EvenRegions<'a>,
    points: Points<'a>,
    overrides: EvenOverrides<'a>,
    config: MeshConfig,
    ghost few: { length regions.lists.kinds.now ≤ 4096 },
}

impl Overrides<'_> {
    // Whether the lists are equally long (16).
    fn is_even(self) -> bool
        ensures { result ≡ spec.even_overrides (spec.overrides_of self.entry) }
    {
        (self.laterals.len() == self.materials.len())
            & (self.verticals.len() == self.materials.len())
    }

    // Whether each names a material, from 1 to the largest (15).
    fn are_named(self) -> bool
        ensures { result ≡ all_of spec.named self.entry.materials.now }
    {
        self.materials.iter().all(|material| (1 <= *material) & (*material <= LARGEST_MATERIAL))
    }
}

impl EvenOverrides<'_> {
    // The cell sizes of a material: those of the last override that names it, or else the default ones.
    fn config_for(self, material: Material, default: MeshConfig) -> MeshConfig
        ensures { result ≡ spec.config_for (spec.overrides_of self.entry.lists) default material.0 }
    {
        let Overrides {
            materials,
            laterals,
            verticals,
        } = self.lists;
        let Some(i) = materials.iter().rposition(|named| *named == material.0) else {
            return default;
        };
        MeshConfig {
            lateral_cell: laterals[i],
            z_cell: verticals[i],
        }
    }
}

impl Job<'_> {
    // Meshes region i; its elements carry its place in the list.
    fn mesh_row(
        self,
        i: usize,
        counts: Counts,
        lists: &mut MeshLists<'_>,
    ) -> Result<Counts, Refusal>
        requires { i < length self.regions.lists.kinds.now }
        ensures mesh { Adds (spec.row_part (listed self.entry.regions.lists) self.entry.points.xs.now self.entry.points.ys.now (spec.overrides_of self.entry.overrides.lists) self.entry.config i counts (held lists.old)) counts i (held lists.old) (held lists.new) result }
        ensures same { Same lists.old lists.new }
    {
        let Points { xs, ys, .. } = self.points;
        let region = self.regions.region(xs.len(), i)?;
        let config = self.overrides.config_for(region.material_id, self.config);
        mesh_region(region, xs, ys, i as u32, config, counts, lists)
    }

    // Meshes every region, writes a diagnostic for each, and gives the counts.
    fn mesh_rows(self, counts: Counts, lists: &mut MeshLists<'_>, diagnostics: &mut [u32]) -> Counts
        requires { length self.regions.lists.kinds.now ≤ length diagnostics.old }
        ensures rows { spec.RunAs (spec.run_to (listed self.entry.regions.lists) self.entry.points.xs.now self.entry.points.ys.now (spec.overrides_of self.entry.overrides.lists) self.entry.config counts (held lists.old) (length self.entry.regions.lists.kinds.now)) result (held lists.new) diagnostics.old diagnostics.new }
        ensures same { Same lists.old lists.new }
    {
        let mut so_far = counts;
        for i in 0..self.regions.rows() {
            let meshed = self.mesh_row(i, so_far, lists);
            so_far = meshed.unwrap_or(so_far);
            diagnostics[i] = match meshed {
                Ok(_) => 0,
                Err(why) => u32::from(why),
            };
        }
        so_far
    }
}

// What is meshed, or why not: 16 for the region lists, the point lists, the overrides and the mesh; 2 for so many regions,
// points and overrides; 15 for the counts, then for an override's material; 12 for the diagnostics.
#[tactic(auto, using(crate::proofs::ModelLaws::even_lists), unfolding(crate::specs::Models::model_judged))]
fn model_check<'a>(
    regions: Regions<'a>,
    xs: &'a [f64],
    ys: &'a [f64],
    overrides: Overrides<'a>,
    config: MeshConfig,
    counts: Counts,
    lists: &MeshLists<'_>,
    diagnostics: usize,
) -> Result<Job<'a>, Refusal>
    ensures fault { map_answer (λ _. tt {0}) (answer result) ≡ spec.job_judged (listed regions.entry) xs.now ys.now (spec.overrides_of overrides.entry) counts (held lists.now) diagnostics }
    ensures job { IfOk result (λ j. (listed j.regions.lists ≡ listed regions.entry) × (j.points.xs.now ≡ xs.now) × (j.points.ys.now ≡ ys.now) × (spec.overrides_of j.overrides.lists ≡ spec.overrides_of overrides.entry) × (j.config ≡ config)) }
    ensures room { IfOk result (λ j. length j.regions.lists.kinds.now ≤ diagnostics) }
{
    if !(regions.is_even() & (xs.len() == ys.len()) & overrides.is_even() & lists.is_parallel()) {
        return Err(Refusal::UnequalLists);
    }
    let rows = regions.kinds.len();
    if !((rows <= 4096) & (xs.len() <= 2097152) & (overrides.materials.len() <= 4096)) {
        return Err(Refusal::ListTooLong);
    }
    if !(lists.holds(counts) & overrides.are_named()) {
        return Err(Refusal::OutsideList);
    }
    if !(rows <= diagnostics) {
        return Err(Refusal::OutputTooShort);
    }
    Ok(Job {
        regions: EvenRegions { lists: regions },
        points: Points { xs, ys },
        overrides: EvenOverrides { lists: overrides },
        config,
    })
}

// Meshes every region of a region list, with the cell sizes of the overrides, or else the default ones; a diagnostic for each region says 0 or its refusal.
// 16, 2, 15, 12.
pub fn mesh_model_with_options(
    regions: Regions<'_>,
    xs: &[f64],
    ys: &[f64],
    overrides: Overrides<'_>,
    config: MeshConfig,
    counts: Counts,
    lists: &mut MeshLists<'_>,
    diagnostics: &mut [u32],
) -> Result<Counts, Refusal>
    ensures model { spec.ModelAs (spec.mesh_model (listed regions.entry) xs.now ys.now (spec.overrides_of overrides.entry) config counts (held lists.old) (length diagnostics.old)) (held lists.old) diagnostics.old result (held lists.new) diagnostics.new }
    ensures same { Same lists.old lists.new }
{
    let room = diagnostics.len();
    let job = model_check(regions, xs, ys, overrides, config, counts, lists, room)?;
    Ok(job.mesh_rows(counts, lists, diagnostics))
}

// The same with no override; 16, 2, 15, 12. The original has both calls.
pub fn mesh_model(
    regions: Regions<'_>,
    xs: &[f64],
    ys: &[f64],
    config: MeshConfig,
    counts: Counts,
    lists: &mut MeshLists<'_>,
    diagnostics: &mut [u32],
) -> Result<Counts, Refusal>
    ensures model { spec.ModelAs (spec.mesh_model (listed regions.entry) xs.now ys.now spec.no_overrides config counts (held lists.old) (length diagnostics.old)) (held lists.old) diagnostics.old result (held lists.new) diagnostics.new }
    ensures same { Same lists.old lists.new }
{
    let none = Overrides {
        materials: &[],
        laterals: &[],
        verticals: &[],
    };
    mesh_model_with_options(regions, xs, ys, none, config, counts, lists, diagnostics)
}

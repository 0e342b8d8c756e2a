// The stack: conductors, diffusions and vias by name, and material numbers.
ghost use Rattle.std.specs.Prelude.{◌≡◌, true, ◌+◌, ◌≤◌, length, Some, option_map, IfSome, IfOk};
ghost use Rattle.lists.specs.Answer.{map_answer, unless, given};
ghost use Rattle.lists.specs.Lists.{part};
ghost use Rattle.openrdson_core.specs.Blocks.{count, stack_ok, vias_ok, row_of, entry_of};
ghost use Rattle.openrdson_core.specs.Maps.{spanned, span_within, span_from};
ghost use Rattle.openrdson_core.specs.Tech as spec;
ghost use Rattle.openrdson_core.specs.Answers.{answer};

use crate::blocks::{Cell, Keys, block_check, rows};
use crate::bytes::is_zero;
use crate::layout::LayerNames;
use crate::maps::{LayerMap, Span};
use crate::refusals::Refusal;
use crate::solids::Material;

// A conductor's or a diffusion's figures, each if it is present.
#[derive(Clone, Copy, Debug, PartialEq)]
pub struct Figures {
    pub height: Option<f64>,
    pub thickness: Option<f64>,
}

// A via's layers, as parts of the block, each if it has a name.
#[derive(Clone, Copy, Debug, PartialEq, Eq)]
pub struct ViaLayers {
    pub bottom: Option<Span>,
    pub top: Option<Span>,
}

// A block of conductors or of diffusions.
#[derive(Clone, Copy)]
pub struct Stack<'a> {
    pub bytes: &'a [u8],
    ghost sound: { stack_ok bytes.now ≡ true },
}

// A block of vias.
#[derive(Clone, Copy)]
pub struct Vias<'a> {
    pub bytes: &'a [u8],
    ghost sound: { vias_ok bytes.now ≡ true },
}

// The binary64 that eight bytes stand for, little-endian.
#[tactic(auto, using(crate::proofs::ByteLaws::eight_bytes))]
fn float_at(c: &[u8]) -> f64
    requires { length c.now ≡ 8 }
    ensures { result ≡ spec.float_of c.now }
{
    let bytes = [c[0], c[1], c[2], c[3], c[4], c[5], c[6], c[7]];
    binary64::from_bits(u64::from_le_bytes(bytes))
}

// The figures of a stack entry: 17 bytes, as `width` (blocks.rt) says, a flag and two numbers of eight.
fn entry_at(c: &[u8]) -> Figures
    requires { length c.now ≡ 17 }
    ensures { result ≡ spec.figures_of c.now }
{
    let flag = c[0];
    Figures {
        height: (flag % 2 == 1).then(|| float_at(&c[1..9])),
        thickness: (flag >= 2).then(|| float_at(&c[9..17])),
    }
}

// Whether the present figures of an entry are in range.
#[tactic(auto, unfolding(crate::specs::Tech::figures_in))]
fn are_figures_in(c: &[u8]) -> bool
    requires { length c.now ≡ 17 }
    ensures { result ≡ spec.figures_in c.now }
{
    let figures = entry_at(c);
    figures.height.is_none_or(|x| binary64::figure_in_range(x))
        && figures
            .thickness
            .is_none_or(|x| binary64::figure_in_range(x))
}

impl<'a> Stack<'a> {
    // The block, if nothing is against it; 14.
    pub fn checked(bytes: &'a [u8]) -> Result<Self, Refusal>
        ensures fault { map_answer (λ _. tt {0}) (answer result) ≡ unless (stack_ok bytes.now) 14 (given tt) }
        ensures bytes { IfOk result (λ b. b.bytes.now ≡ bytes.now) }
    {
        block_check(bytes, Cell::Name, Cell::Figures, false)?;
        Ok(Stack { bytes })
    }

    // How many entries it has.
    #[tactic(auto, using(crate::proofs::BlockLaws::block_counts))]
    pub fn rows(self) -> usize
        ensures { result ≡ count self.entry.bytes.now }
    {
        rows(self.bytes)
    }

    // Whether its present figures are finite and at most 2^19 in size.
    pub fn is_in_range(self) -> bool
        ensures { result ≡ spec.stack_in self.entry.bytes.now }
    {
        let n = self.rows();
        (0..n).all(|i| {
            let at = 2 + n * 32 + i * 17;
            are_figures_in(&self.bytes[at..at + 17])
        })
    }

    // The first row of a name. `Vias` has `rows` and `find_row` too: each is one call, which rests on what is known of its own type.
    #[tactic(auto, using(crate::proofs::BlockLaws::block_counts))]
    fn find_row(self, name: &[u8]) -> Option<usize>
        ensures { result ≡ row_of self.entry.bytes.now name.now }
    {
        let keys = Keys { bytes: self.bytes };
        keys.find(name)
    }

    // The figures of a name, of the first of equal names.
    #[tactic(auto, using(crate::proofs::BlockLaws::block_counts, crate::proofs::BlockLaws::row_found))]
    pub fn find(self, name: &[u8]) -> Option<Figures>
        ensures { result ≡ option_map spec.figures_of (entry_of Cell.Figures self.entry.bytes.now name.now) }
    {
        let i = self.find_row(name)?;
        let start = 2 + self.rows() * 32 + i * 17;
        Some(entry_at(&self.bytes[start..start + 17]))
    }
}

// The conductor or the diffusion of a name, the first of equal names; 14, 1.
#[tactic(auto, unfolding(crate::specs::Tech::stack_layer))]
pub fn stack_layer(s: &[u8], name: &[u8]) -> Result<Option<Figures>, Refusal>
    ensures { answer result ≡ spec.stack_layer s.now name.now }
{
    let stack = Stack::checked(s)?;
    if !stack.is_in_range() {
        return Err(Refusal::NumberOutOfRange);
    }
    Ok(stack.find(name))
}

// The name in 32 bytes of a block from a place on, if they are not all zero.
fn end_at(s: &[u8], at: usize) -> Option<Span>
    requires { at + 32 ≤ length s.now }
    ensures value { option_map (spanned s.now) result ≡ spec.end_name (part at 32 s.now) }
    ensures within { IfSome result (span_within s.now) }
    ensures start { IfSome result (span_from (Some at)) }
{
    if is_zero(&s[at..at + 32]) {
        return None;
    }
    Some(Span::name_at(s, at))
}

impl<'a> Vias<'a> {
    // The block, if nothing is against it; 14.
    pub fn checked(bytes: &'a [u8]) -> Result<Self, Refusal>
        ensures fault { map_answer (λ _. tt {0}) (answer result) ≡ unless (vias_ok bytes.now) 14 (given tt) }
        ensures bytes { IfOk result (λ b. b.bytes.now ≡ bytes.now) }
    {
        block_check(bytes, Cell::Name, Cell::Ends, false)?;
        Ok(Vias { bytes })
    }

    // How many vias it has.
    #[tactic(auto, using(crate::proofs::BlockLaws::block_counts))]
    pub fn rows(self) -> usize
        ensures { result ≡ count self.entry.bytes.now }
    {
        rows(self.bytes)
    }

    // The first row of a name.
    #[tactic(auto, using(crate::proofs::BlockLaws::block_counts))]
    fn find_row(self, name: &[u8]) -> Option<usize>
        ensures { result ≡ row_of self.entry.bytes.now name.now }
    {
        let keys = Keys { bytes: self.bytes };
        keys.find(name)
    }

    // The layers of the via of a name, the first of equal names.
    #[tactic(auto, using(crate::proofs::BlockLaws::block_counts, crate::proofs::BlockLaws::row_found))]
    pub fn find(self, name: &[u8]) -> Option<ViaLayers>
        ensures value { option_map (spec.via_names self.entry.bytes.now) result ≡ option_map spec.via_names_of (entry_of Cell.Ends self.entry.bytes.now name.now) }
        ensures within { IfSome result (spec.via_layers_within self.entry.bytes.now) }
        ensures start { IfSome result (spec.via_layers_from (spec.start_of_ends self.entry.bytes.now name.now)) }
    {
        let i = self.find_row(name)?;
        let start = 2 + self.rows() * 32 + i * 64;
        Some(ViaLayers {
            bottom: end_at(self.bytes, start),
            top: end_at(self.bytes, start + 32),
        })
    }
}

// The layers of the via of a name, the first of equal names; 14.
#[tactic(auto, unfolding(crate::specs::Tech::via_layers))]
pub fn via_layers(s: &[u8], name: &[u8]) -> Result<Option<ViaLayers>, Refusal>
    ensures value { map_answer (option_map (spec.via_names s.now)) (answer result) ≡ spec.via_layers s.now name.now }
    ensures within { IfOk result (λ v. IfSome v (spec.via_layers_within s.now)) }
    ensures start { IfOk result (λ v. IfSome v (spec.via_layers_from (spec.start_of_ends s.now name.now))) }
{
    let vias = Vias::checked(s)?;
    Ok(vias.find(name))
}

// The material number of a name in three blocks that have been checked, 0 where it has none.
#[tactic(auto, using(crate::proofs::BlockLaws::block_counts, crate::proofs::BlockLaws::row_found), unfolding(crate::specs::Tech::material_of))]
pub fn find_material(conductors: Stack, diffusions: Stack, vias: Vias, name: &[u8]) -> Material
    ensures { result.0 ≡ spec.material_of conductors.entry.bytes.now diffusions.entry.bytes.now vias.entry.bytes.now name.now }
{
    if let Some(i) = conductors.find_row(name) {
        return Material((i + 1) as u32);
    }
    if let Some(i) = diffusions.find_row(name) {
        return Material((conductors.rows() + i + 1) as u32);
    }
    if let Some(i) = vias.find_row(name) {
        return Material((conductors.rows() + diffusions.rows() + i + 1) as u32);
    }
    Material(0)
}

// The material number of a name, 0 where it has none; 14.
#[tactic(auto, unfolding(crate::specs::Tech::material_number))]
pub fn material_number(
    conductors: &[u8],
    diffusions: &[u8],
    vias: &[u8],
    name: &[u8],
) -> Result<Material, Refusal>
    ensures { map_answer (λ m. m.0) (answer result) ≡ spec.material_number conductors.now diffusions.now vias.now name.now }
{
    let conductors = Stack::checked(conductors)?;
    let diffusions = Stack::checked(diffusions)?;
    let vias = Vias::checked(vias)?;
    Ok(find_material(conductors, diffusions, vias, name))
}

// The six name blocks, as they are lent.
#[derive(Clone, Copy)]
pub struct Blocks<'a> {
    pub names: &'a [u8],
    pub conducting: &'a [u8],
    pub via: &'a [u8],
    pub conductors: &'a [u8],
    pub diffusions: &'a [u8],
    pub vias: &'a [u8],
}

// Six name blocks of which none is damaged.
#[derive(Clone, Copy)]
pub struct SoundBlocks<'a> {
    pub names: LayerNames<'a>,
    pub conducting: LayerMap<'a>,
    pub via: LayerMap<'a>,
    pub conductors: Stack<'a>,
    pub diffusions: Stack<'a>,
    pub vias: Vias<'a>,
}

impl<'a> Blocks<'a> {
    ghost use Rattle.openrdson_core.specs.SoundBlocks.{sound_bytes};

    // The blocks, if nothing is against them: 14 in their order, then 1 for stack figures.
    #[tactic(auto, unfolding(crate::specs::Tech::blocks_fault))]
    pub fn checked(self) -> Result<SoundBlocks<'a>, Refusal>
        ensures fault { map_answer (λ _. tt {0}) (answer result) ≡ spec.fault_of (spec.bytes_of self.entry) }
        ensures bytes { IfOk result (λ b. sound_bytes b ≡ spec.bytes_of self.entry) }
    {
        let names = LayerNames::checked(self.names)?;
        let conducting = LayerMap::checked(self.conducting)?;
        let via = LayerMap::checked(self.via)?;
        let conductors = Stack::checked(self.conductors)?;
        let diffusions = Stack::checked(self.diffusions)?;
        let vias = Vias::checked(self.vias)?;
        if !conductors.is_in_range() || !diffusions.is_in_range() {
            return Err(Refusal::NumberOutOfRange);
        }
        Ok(SoundBlocks {
            names,
            conducting,
            via,
            conductors,
            diffusions,
            vias,
        })
    }
}

impl SoundBlocks<'_> {
    // The material number of a name, 0 where it has none.
    pub fn find_material(self, name: &[u8]) -> Material
        ensures { result.0 ≡ spec.material_of self.entry.conductors.bytes.now self.entry.diffusions.bytes.now self.entry.vias.bytes.now name.now }
    {
        find_material(self.conductors, self.diffusions, self.vias, name)
    }
}

// Whether anything is against the six blocks: 14 in their order, then 1 for stack figures.
pub fn check_blocks(
    names: &[u8],
    conducting: &[u8],
    via: &[u8],
    conductors: &[u8],
    diffusions: &[u8],
    vias: &[u8],
) -> Result<(), Refusal>
    ensures { answer result ≡ spec.blocks_fault names.now conducting.now via.now conductors.now diffusions.now vias.now }
{
    let blocks = Blocks {
        names,
        conducting,
        via,
        conductors,
        diffusions,
        vias,
    };
    blocks.checked()?;
    Ok(())
}

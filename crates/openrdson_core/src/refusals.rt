// Why a call is refused.
ghost use Rattle.std.specs.Prelude.{◌≡◌};
ghost use Rattle.openrdson_core.specs.Refusals.{refusal_number};

// The refusals in the order of their numbers, from 1 to 16. include/openrdson.h says what each number means.
#[derive(Clone, Copy, Debug, PartialEq, Eq)]
pub enum Refusal {
    NumberOutOfRange,
    ListTooLong,
    TooFewVertices,
    ClippingStalled,
    DegenerateBox,
    CellSizeNotPositive,
    TooManyCells,
    DegeneratePrism,
    DegenerateYExtent,
    OddCrossings,
    NoTrapezoid,
    OutputTooShort,
    NodeOutsideMesh,
    BlockDamaged,
    OutsideList,
    UnequalLists,
}

impl From<Refusal> for u32 {
    ghost from_gives = { λ why n. n ≡ refusal_number why };

    // The refusal's number.
    fn from(why: Refusal) -> u32 {
        match why {
            Refusal::NumberOutOfRange => 1,
            Refusal::ListTooLong => 2,
            Refusal::TooFewVertices => 3,
            Refusal::ClippingStalled => 4,
            Refusal::DegenerateBox => 5,
            Refusal::CellSizeNotPositive => 6,
            Refusal::TooManyCells => 7,
            Refusal::DegeneratePrism => 8,
            Refusal::DegenerateYExtent => 9,
            Refusal::OddCrossings => 10,
            Refusal::NoTrapezoid => 11,
            Refusal::OutputTooShort => 12,
            Refusal::NodeOutsideMesh => 13,
            Refusal::BlockDamaged => 14,
            Refusal::OutsideList => 15,
            Refusal::UnequalLists => 16,
        }
    }
}

// An answer in the words of a record.
ghost use Rattle.std.specs.Prelude.{◌≡◌, MatchOption, MatchResult};
ghost use Rattle.openrdson_core.specs.Refusals.{refusal_number};
ghost use Rattle.records.specs.Answers as spec;
ghost use Rattle.records.specs.Words.{begins, bits_of};

use crate::entry::Entry;
use crate::record::Record;
use openrdson_core::{Bbox, Counts, Figures, Material, NamePlace, Refusal, Span, ViaLayers};

// 0 or the refusal's number; five values, 0 where unused; two zeros.
#[derive(Clone, Copy)]
pub struct Answer(pub [u64; 8]);

impl Answer {
    // The answer of an accepted call with these values.
    fn given(a: u64, b: u64, c: u64, d: u64, e: u64) -> Self
        ensures { result.0 ≡ spec.given a b c d e }
    {
        Self([0, a, b, c, d, e, 0, 0])
    }

    // The answer of an accepted call with one whole number.
    fn whole(a: u64) -> Self
        ensures { result.0 ≡ spec.given a 0 0 0 0 }
    {
        Self::given(a, 0, 0, 0, 0)
    }

    fn refused(why: Refusal) -> Self
        ensures { result.0 ≡ spec.refused (refusal_number why) }
    {
        Self([u64::from(u32::from(why)), 0, 0, 0, 0, 0, 0, 0])
    }

    // Whether the record begins with this answer; the words past a record's end are 0.
    pub fn is_recorded(self, record: Record<'_>) -> bool
        ensures { result ≡ begins (λ w. w) «record».entry.0.now self.0 }
    {
        record.begins(&self.0)
    }
}

impl From<Refusal> for Answer {
    ghost from_gives = { λ why a. a.0 ≡ spec.refused (refusal_number why) };

    fn from(why: Refusal) -> Self {
        Self::refused(why)
    }
}

// The value, or the refusal.
impl<T: Into<Answer>> From<Result<T, Refusal>> for Answer {
    ghost from_gives = { λ given a. MatchResult given (λ x. T.converts x a) (λ why. a.0 ≡ spec.refused (refusal_number why)) };

    fn from(given: Result<T, Refusal>) -> Self {
        match given {
            Ok(x) => x.into(),
            Err(why) => Self::refused(why),
        }
    }
}

// The value, or 0 in every word where there is none.
impl<T: Into<Answer>> From<Option<T>> for Answer {
    ghost from_gives = { λ given a. MatchOption given (a.0 ≡ spec.given 0 0 0 0 0) (λ x. T.converts x a) };

    fn from(given: Option<T>) -> Self {
        match given {
            Some(x) => x.into(),
            None => Self::whole(0),
        }
    }
}

impl From<()> for Answer {
    ghost from_gives = { λ _ a. a.0 ≡ spec.given 0 0 0 0 0 };

    fn from(_: ()) -> Self {
        Self::whole(0)
    }
}

impl From<u64> for Answer {
    ghost from_gives = { λ n a. a.0 ≡ spec.given n 0 0 0 0 };

    fn from(n: u64) -> Self {
        Self::whole(n)
    }
}

impl From<usize> for Answer {
    ghost from_gives = { λ n a. a.0 ≡ spec.given n 0 0 0 0 };

    fn from(n: usize) -> Self {
        Self::whole(n.word())
    }
}

impl From<f64> for Answer {
    ghost from_gives = { λ x a. a.0 ≡ spec.given (bits_of x) 0 0 0 0 };

    fn from(x: f64) -> Self {
        Self::whole(x.word())
    }
}

// 1 for true, 0 for false.
impl From<bool> for Answer {
    ghost from_gives = { λ b a. a.0 ≡ spec.given (spec.bit b) 0 0 0 0 };

    fn from(yes: bool) -> Self {
        Self::whole(u64::from(yes))
    }
}

impl From<Material> for Answer {
    ghost from_gives = { λ m a. a.0 ≡ spec.given m.0 0 0 0 0 };

    fn from(Material(number): Material) -> Self {
        Self::whole(number.word())
    }
}

impl From<Bbox> for Answer {
    ghost from_gives = { λ b a. a.0 ≡ spec.given (bits_of b.min_x) (bits_of b.min_y) (bits_of b.max_x) (bits_of b.max_y) 0 };

    fn from(b: Bbox) -> Self {
        Self::given(
            b.min_x.word(),
            b.min_y.word(),
            b.max_x.word(),
            b.max_y.word(),
            0,
        )
    }
}

// The first value's word is not used.
impl From<Counts> for Answer {
    ghost from_gives = { λ n a. a.0 ≡ spec.given 0 n.nodes n.elements 0 0 };

    fn from(counts: Counts) -> Self {
        Self::given(0, counts.nodes.word(), counts.elements.word(), 0, 0)
    }
}

// A part's start and count.
impl From<Span> for Answer {
    ghost from_gives = { λ p a. a.0 ≡ spec.given p.start p.count 0 0 0 };

    fn from(part: Span) -> Self {
        Self::given(part.start.word(), part.count.word(), 0, 0, 0)
    }
}

// The map's number, and the part's start and count. In c_api the numbers stand once more: there they are written through references.
impl From<NamePlace> for Answer {
    ghost from_gives = { λ place a. a.0 ≡ spec.of_name place };

    fn from(place: NamePlace) -> Self {
        match place {
            NamePlace::Conducting(p) => Self::given(1, p.start.word(), p.count.word(), 0, 0),
            NamePlace::Via(p) => Self::given(2, p.start.word(), p.count.word(), 0, 0),
        }
    }
}

// Whether a figure is present, and its bits.
fn shown(figure: Option<f64>) -> (u64, u64)
    ensures present { result.0 ≡ spec.present figure }
    ensures bits { result.1 ≡ spec.figure_bits figure }
{
    match figure {
        Some(x) => (1, x.word()),
        None => (0, 0),
    }
}

// 1, and each figure.
impl From<Figures> for Answer {
    ghost from_gives = { λ figures a. a.0 ≡ spec.of_figures figures };

    fn from(figures: Figures) -> Self {
        let (has_height, height) = shown(figures.height);
        let (has_thickness, thickness) = shown(figures.thickness);
        Self::given(1, has_height, height, has_thickness, thickness)
    }
}

// A part's start and count, 0 where there is none.
fn place(part: Option<Span>) -> (u64, u64)
    ensures start { result.0 ≡ spec.part_start part }
    ensures count { result.1 ≡ spec.part_count part }
{
    match part {
        Some(part) => (part.start.word(), part.count.word()),
        None => (0, 0),
    }
}

// 1, and each end's part.
impl From<ViaLayers> for Answer {
    ghost from_gives = { λ layers a. a.0 ≡ spec.of_layers layers };

    fn from(layers: ViaLayers) -> Self {
        let (bottom, below) = place(layers.bottom);
        let (top, above) = place(layers.top);
        Self::given(1, bottom, below, top, above)
    }
}

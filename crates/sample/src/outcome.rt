// What became of a polygon in stacking.
use std::fmt;

#[derive(Clone, Copy)]
pub enum Outcome {
    Box,
    Prism,
    Unnamed,
    Marker,
    Unmatched,
    NoRange,
}

// A number that stands for no outcome.
#[derive(Clone, Copy)]
pub struct UnknownOutcome;

impl TryFrom<u8> for Outcome {
    type Error = UnknownOutcome;

    fn try_from(number: u8) -> Result<Self, UnknownOutcome> {
        match number {
            0 => Ok(Outcome::Box),
            1 => Ok(Outcome::Prism),
            2 => Ok(Outcome::Unnamed),
            3 => Ok(Outcome::Marker),
            4 => Ok(Outcome::Unmatched),
            5 => Ok(Outcome::NoRange),
            _ => Err(UnknownOutcome),
        }
    }
}

// Its number and what it says.
impl fmt::Display for Outcome {
    fn fmt<W: fmt::Write>(&self, f: &mut fmt::Formatter<W>) -> fmt::Result {
        f.write_str(match self {
            Outcome::Box => "0 box",
            Outcome::Prism => "1 prism",
            Outcome::Unnamed => "2 unnamed layer",
            Outcome::Marker => "3 marker",
            Outcome::Unmatched => "4 unmatched",
            Outcome::NoRange => "5 no z range",
        })
    }
}

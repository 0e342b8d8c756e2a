// How many records of a call there are, and how many of them it answers otherwise.
ghost use Rattle.std.specs.Prelude.{◌≡◌, cond, nat_lt};
ghost use Rattle.records.specs.Words.{more};

use std::fmt;

#[derive(Clone, Copy, Default)]
pub struct Tally {
    pub cases: u64,
    pub mismatches: u64,
}

impl Tally {
    pub const NONE: Self = Self {
        cases: 0,
        mismatches: 0,
    };

    // One more case, and one more mismatch where the call answers otherwise.
    pub fn count(&mut self, is_answered: bool)
        ensures cases { self.new.cases ≡ more self.old.cases 1 }
        ensures mismatches { self.new.mismatches ≡ cond is_answered self.old.mismatches (more self.old.mismatches 1) }
    {
        self.cases = self.cases.saturating_add(1);
        if !is_answered {
            self.mismatches = self.mismatches.saturating_add(1);
        }
    }

    // Whether there is a case.
    pub fn is_any(self) -> bool
        ensures { result ≡ nat_lt 0 self.cases }
    {
        self.cases > 0
    }

    // The sum of both.
    pub fn plus(self, other: Self) -> Self
        ensures cases { result.cases ≡ more self.cases other.cases }
        ensures mismatches { result.mismatches ≡ more self.mismatches other.mismatches }
    {
        Self {
            cases: self.cases.saturating_add(other.cases),
            mismatches: self.mismatches.saturating_add(other.mismatches),
        }
    }
}

impl fmt::Display for Tally {
    fn fmt<W: fmt::Write>(&self, f: &mut fmt::Formatter<W>) -> fmt::Result {
        let cases = self.cases;
        let mismatches = self.mismatches;
        write!(f, "{cases} cases {mismatches} mismatches")
    }
}

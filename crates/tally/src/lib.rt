// What the benchmark's programs count, and how they tell it.
#![tactic(auto)]

ghost use Rattle.std.specs.Prelude.{◌≡◌};
ghost use Rattle.tally.specs.Count.{with_one};

use slots::Outcome;
use std::fmt;

#[derive(Clone, Copy, Default)]
pub struct Tally {
    pub refused: u64,
    pub records: u64,
}

impl Tally {
    pub fn count(&mut self, outcome: Outcome)
        ensures { self.new ≡ with_one self.old outcome }
    {
        match outcome {
            Err(_) => self.refused = self.refused.wrapping_add(1),
            Ok(n) => self.records = self.records.wrapping_add(n as u64),
        }
    }
}

impl fmt::Display for Tally {
    fn fmt<W: fmt::Write>(&self, f: &mut fmt::Formatter<W>) -> fmt::Result {
        write!(f, "{} refused, {} records", self.refused, self.records)
    }
}

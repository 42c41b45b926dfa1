ghost use Rattle.std.specs.Prelude.{◌≡◌, ◌+◌, ◌^◌, ◌<◌, true, List, [], ◌∷◌, ◌++◌, Some, codes, is_ok};

use crate::outcome::Outcome;
use automata::yes_no::YesNo;
use std::error::Error;
use std::fmt;

/// How many histories were followed to yes, how many to no, and how many lines were not readable.
#[derive(Clone, Copy, PartialEq, Eq, Debug)]
pub struct Tally {
    pub yes: u64,
    pub no: u64,
    pub unreadable: u64,
    ghost fits: { yes + no + unreadable < 2 ^ 64 },
}

/// One more history would not fit the tally.
#[derive(Clone, Copy, PartialEq, Eq, Debug)]
pub struct TallyFull;

impl fmt::Display for TallyFull {
    ghost output = { λ _. Some (codes "the tally is full") };

    fn fmt<W: fmt::Write>(&self, f: &mut fmt::Formatter<W>) -> fmt::Result {
        f.write_str("the tally is full")
    }
}

impl Error for TallyFull {}

impl Tally {
    ghost use Rattle.histories.specs.Tallies.{total, Counted, Tells};

    /// The tally of no line.
    pub fn new() -> Tally
        ensures { Tells result [] }
    {
        Tally {
            yes: 0,
            no: 0,
            unreadable: 0,
        }
    }

    /// How many histories were followed.
    pub fn followed(&self) -> u64
        ensures { result ≡ self.now.yes + self.now.no }
    {
        self.yes + self.no
    }

    /// How many lines there were.
    pub fn histories(&self) -> u64
        ensures { result ≡ total self.now }
    {
        self.followed() + self.unreadable
    }

    /// Counts one more line in, by what came of it. A full tally stays as it is.
    pub fn count(&mut self, outcome: &Outcome) -> Result<(), TallyFull>
        ensures counted { Counted self.old outcome.now result self.new }
        ensures tells { (os : List Outcome) → is_ok result ≡ true → Tells self.old os → Tells self.new (os ++ outcome.now ∷ []) }
    {
        if self.histories() == u64::MAX {
            return Err(TallyFull);
        }
        match outcome {
            Outcome::Followed {
                verdict: YesNo::Yes,
                ..
            } => self.yes += 1,
            Outcome::Followed {
                verdict: YesNo::No,
                ..
            } => self.no += 1,
            Outcome::Unreadable(_) => self.unreadable += 1,
        }
        Ok(())
    }
}

// What can be wrong with a rule file.
ghost use Rattle.std.specs.Prelude.{◌≡◌, ◌++◌, Some, codes, decimal};
ghost use Rattle.ruleformat.specs.declared.fault.FileFault.TheVariants as fault;
ghost use Rattle.ruleformat.specs.Numbers.{number_of, place_of};

use std::error::Error;
use std::fmt;

// Kept: the next two types are alike, and `?` turns each into its own refusal, with no tag to match.
/// The first wrong target or edge, by its byte place.
#[derive(Clone, Copy, PartialEq, Eq, Debug)]
pub struct EntryFault {
    pub place: usize,
}

/// The first byte that is no verdict, by its place.
#[derive(Clone, Copy, PartialEq, Eq, Debug)]
pub struct VerdictFault {
    pub place: usize,
}

/// Why a file is refused, with the byte place counted from the file's start.
#[derive(Clone, Copy, PartialEq, Eq, Debug)]
pub enum FileFault {
    /// 1: under 16 bytes. The place is the length.
    Short { place: usize },
    /// 2: the kind is not known or not the wanted one, or the version is not 1.
    Kind { place: usize },
    /// 3: the states, the letters or the start are out of range.
    Figures { place: usize },
    /// 4: a distance does not fit the layout or passes the file's first byte.
    Distance { place: usize },
    /// 5: a target or an edge is against the rules.
    Entry { place: usize },
    /// 6: a byte is no verdict.
    Verdict { place: usize },
}

impl FileFault {
    // Kept: a case with its place is no number; clauses and tests name each case by its name.
    /// The refusal's number, from 1 to 6.
    pub fn number(&self) -> u8
        ensures { result ≡ number_of self.now }
    {
        match self {
            FileFault::Short { .. } => 1,
            FileFault::Kind { .. } => 2,
            FileFault::Figures { .. } => 3,
            FileFault::Distance { .. } => 4,
            FileFault::Entry { .. } => 5,
            FileFault::Verdict { .. } => 6,
        }
    }

    /// The refusal's byte place.
    pub fn place(&self) -> usize
        ensures { result ≡ place_of self.now }
    {
        match *self {
            FileFault::Short { place }
            | FileFault::Kind { place }
            | FileFault::Figures { place }
            | FileFault::Distance { place }
            | FileFault::Entry { place }
            | FileFault::Verdict { place } => place,
        }
    }
}

impl fmt::Display for FileFault {
    ghost output = { λ f. Some (codes "refused " ++ (decimal (number_of f) ++ (codes " at " ++ decimal (place_of f)))) };

    fn fmt<W: fmt::Write>(&self, f: &mut fmt::Formatter<W>) -> fmt::Result {
        write!(f, "refused {} at {}", self.number(), self.place())
    }
}

impl Error for FileFault {}

impl From<EntryFault> for FileFault {
    ghost from_gives = { λ e r. r ≡ fault.Entry e.place };

    fn from(e: EntryFault) -> FileFault {
        FileFault::Entry { place: e.place }
    }
}

impl From<VerdictFault> for FileFault {
    ghost from_gives = { λ e r. r ≡ fault.Verdict e.place };

    fn from(e: VerdictFault) -> FileFault {
        FileFault::Verdict { place: e.place }
    }
}

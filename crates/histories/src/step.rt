ghost use Rattle.std.specs.Prelude.{◌≡◌, List, [], ◌∷◌, ◌++◌, IfOk, Some};
ghost use Rattle.histories.specs.declared.step.StepFault.TheVariants.{Memory, Full};
ghost use Rattle.histories.specs.Steps.{Stepped, excuse};
ghost use Rattle.histories.specs.Tallies.{Tells};

use crate::outcome::{Outcome, follow_line};
use crate::report::LineReport;
use crate::tally::{Tally, TallyFull};
use automata::automaton::Automaton;
use automata::yes_no::YesNo;
use std::alloc::{AllocError, Global};
use std::error::Error;
use std::fmt;

/// Why a line is left out.
#[derive(Clone, Copy, PartialEq, Eq, Debug)]
pub enum StepFault {
    /// There is no memory for its history.
    Memory,
    /// There is no room for it in the tally.
    Full,
}

impl From<AllocError> for StepFault {
    ghost from_gives = { λ _ r. r ≡ Memory };

    fn from(_e: AllocError) -> StepFault {
        Self::Memory
    }
}

impl From<TallyFull> for StepFault {
    ghost from_gives = { λ _ r. r ≡ Full };

    fn from(_e: TallyFull) -> StepFault {
        Self::Full
    }
}

impl fmt::Display for StepFault {
    ghost output = { λ e. Some (excuse e) };

    fn fmt<W: fmt::Write>(&self, f: &mut fmt::Formatter<W>) -> fmt::Result {
        match self {
            StepFault::Memory => f.write_str("out of memory"),
            StepFault::Full => f.write_str("tally is full"),
        }
    }
}

impl Error for StepFault {}

/// Follows the history of one more line and counts it in. A line that is left out leaves the
/// tally as it is.
pub fn next_report<'a, A: Automaton<V = YesNo>>(
    heap: Global,
    rule: &A,
    line: &'a [u8],
    tally: &mut Tally,
) -> Result<LineReport<'a>, StepFault>
    ensures stepped { Stepped (A.meaning rule.now) line.now tally.old result tally.new }
    ensures tells { IfOk result (λ l. (os : List Outcome) → Tells tally.old os → Tells tally.new (os ++ l.outcome ∷ [])) }
{
    let outcome = follow_line(heap, rule, line)?;
    tally.count(&outcome)?;
    Ok(LineReport {
        number: tally.histories(),
        below: rule.letters(),
        outcome,
    })
}

ghost use Rattle.std.specs.Prelude.{◌≡◌, Result as Outcome};
ghost use Rattle.ruleformat.specs.Faults.{Answers};

use crate::parts::Parts;
use crate::tail::Tail;
use automata::verdict::Verdict;
use ruleformat::fault::FileFault;
use ruleformat::format::{Header, Kind};

// The tests in the order of their numbers.
fn examine<V: Verdict>(file: &[u8], wanted: Option<Kind>) -> Result<Header, FileFault>
    ensures { Answers V.Verdict.reads wanted file.now result }
{
    let tail = Tail::read(file)?;
    let kind = tail.kind(wanted)?;
    tail.check_figures()?;
    let header = tail.header(kind)?;
    let parts = Parts { file, header };
    parts.check_entries()?;
    parts.check_verdicts::<V>()?;
    Ok(header)
}

/// What a file says of itself, if all of it is good: of the wanted kind, or of either where none
/// is named, with verdicts of `V`. Else the fault of smallest number, with its place. There is
/// just one such answer to a file.
#[tactic(auto, using(ruleformat::proofs::Unique::answers_same))]
pub fn check<V: Verdict>(file: &[u8], wanted: Option<Kind>) -> Result<Header, FileFault>
    ensures answer { Answers V.Verdict.reads wanted file.now result }
    ensures only { (x : Outcome Header FileFault) → Answers V.Verdict.reads wanted file.now x → x ≡ result }
{
    examine::<V>(file, wanted)
}

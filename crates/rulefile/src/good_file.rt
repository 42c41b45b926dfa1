ghost use Rattle.std.specs.Prelude.{◌≡◌, length};
ghost use Rattle.std.specs.Coded.{Coded-set};
ghost use Rattle.ruleformat.specs.Layout.{Closes, header_of, entry_size, entry_bytes};
ghost use Rattle.ruleformat.specs.Faults.{AllRight};
ghost use Rattle.ruleformat.specs.Tables.{InRanges};
ghost use Rattle.ruleformat.specs.Once.{AllRight-prop};

use automata::verdict::Verdict;
use rulecheck::check::check;
use ruleformat::fault::FileFault;
use ruleformat::format::{Header, Kind};

/// A file and what it says of itself: its numbers are in their ranges, its parts follow one another,
/// and its entries are right. `read` makes one of each file that the check passes.
#[derive(Clone, Copy)]
pub struct GoodFile<'a> {
    pub file: &'a [u8],
    pub header: Header,
    ghost said: { header ≡ header_of file.now header.kind } by { Coded-set header-code header (header_of file.now header.kind) },
    ghost ranged: { InRanges header },
    ghost closes: { Closes (length file.now) header.kind header },
    ghost right: { AllRight header.kind file.now header } by { AllRight-prop header.kind file.now header },
}

impl<'a> GoodFile<'a> {
    ghost use Rattle.std.specs.Prelude.{IfOk};
    ghost use Rattle.std.specs.Result.{result_map_both};
    ghost use Rattle.ruleformat.specs.Faults.{Answers};
    ghost use Rattle.ruleformat.specs.Tables.{verdict_at};

    /// The file, if all of it is good: of the wanted kind, or of either where none is named, with
    /// verdicts of `V`. Else the fault of smallest number, with its place.
    pub fn read<V: Verdict>(file: &'a [u8], wanted: Option<Kind>) -> Result<GoodFile<'a>, FileFault>
        ensures answer { Answers V.Verdict.reads wanted file.now (result_map_both (λ g. g.header) (λ e. e) result) }
        ensures file { IfOk result (λ g. g.file.now ≡ file.now) }
    {
        let header = check::<V>(file, wanted)?;
        Ok(GoodFile { file, header })
    }

    // The bytes of the entries, N each.
    // Kept: the check has the same; a public one would answer an option, to be unwrapped by each caller.
    pub(crate) fn entries<const N: usize>(&self) -> &'a [[u8; N]]
        requires { entry_size self.now.header.kind ≡ N }
        ensures { result.now ≡ entry_bytes self.now.header.kind self.now.file.now self.now.header }
    {
        let (entries, _) = self.file[self.header.transitions..self.header.verdicts].as_chunks();
        entries
    }

    // The verdict of a state, and the closing one where there is no such state.
    pub(crate) fn verdict<V: Verdict>(&self, state: usize) -> V
        ensures { result ≡ verdict_at V.Verdict.reads V.Verdict.closing self.now.file.now self.now.header state }
    {
        if state >= self.header.states {
            return V::closing();
        }
        V::read(self.file[self.header.verdicts + state]).unwrap_or(V::closing())
    }
}

// Goes through a file's entries and verdicts, and names the first that is wrong.
ghost use Rattle.std.specs.Prelude.{◌≡◌, ℕ, ◌<◌, ◌↔◌, IsTrue, length, MatchResult, MatchOption};
ghost use Rattle.ruleformat.specs.declared.format.Kind.TheVariants as kinds;
ghost use Rattle.ruleformat.specs.Layout.{Closes, entry_size, entry_place, entry_bytes, verdict_place};
ghost use Rattle.ruleformat.specs.Faults.{InTable, Rises, Right, AllRight, Reads, FirstWrong, FindsWrong, edge_of};

use automata::verdict::Verdict;
use ruleformat::fault::{EntryFault, VerdictFault};
use ruleformat::format::{Edge, Header, Kind};

// A file with what its trailer says of it. The entries, the verdicts and the trailer follow one another.
#[derive(Clone, Copy)]
pub(crate) struct Parts<'a> {
    pub(crate) file: &'a [u8],
    pub(crate) header: Header,
    ghost closes: { Closes (length file.now) header.kind header },
}

impl Parts<'_> {
    // The bytes of the entries, N each.
    fn entries<const N: usize>(&self) -> &[[u8; N]]
        requires { entry_size self.now.header.kind ≡ N }
        ensures { result.now ≡ entry_bytes self.now.header.kind self.now.file.now self.now.header }
    {
        let (entries, _) = self.file[self.header.transitions..self.header.verdicts].as_chunks();
        entries
    }

    // The first target that is no state.
    fn first_wrong_target(&self) -> Option<usize>
        requires { self.now.header.kind ≡ kinds.Dense }
        ensures { FindsWrong kinds.Dense self.now.file.now self.now.header result }
    {
        let states = self.header.states;
        self.entries()
            .iter()
            .position(|target| u16::from_le_bytes(*target) as usize >= states)
    }

    // Edge i.
    fn edge(&self, i: usize) -> Edge
        requires kind { self.now.header.kind ≡ kinds.Edges }
        requires within { i < self.now.header.entries }
        ensures { result ≡ edge_of self.now.file.now self.now.header i }
    {
        Edge::from(self.entries()[i])
    }

    // Whether edge i is one of the table's and comes behind the edge before it.
    fn edge_right(&self, i: usize) -> bool
        requires kind { self.now.header.kind ≡ kinds.Edges }
        requires within { i < self.now.header.entries }
        ensures { IsTrue result ↔ Right kinds.Edges self.now.file.now self.now.header i }
    {
        let e = self.edge(i);
        in_table(&self.header, &e) && (i == 0 || rises(&self.edge(i - 1), &e))
    }

    // The first entry that is not as the rules of its kind say.
    fn first_wrong(&self) -> Option<usize>
        ensures { FindsWrong self.now.header.kind self.now.file.now self.now.header result }
    {
        match self.header.kind {
            Kind::Dense => self.first_wrong_target(),
            // Kept: by its number; `windows(2)` has no window for the first edge, which is checked too.
            Kind::Edges => (0..self.header.entries).find(|&i| !self.edge_right(i)),
        }
    }

    // Whether each entry is as the rules of its kind say.
    pub(crate) fn check_entries(&self) -> Result<(), EntryFault>
        ensures { MatchResult result (λ _. AllRight self.now.header.kind self.now.file.now self.now.header) (λ e. (i : ℕ) × FirstWrong (Right self.now.header.kind self.now.file.now self.now.header) self.now.header.entries i × (e.place ≡ entry_place self.now.header.kind self.now.header i)) }
    {
        match self.first_wrong() {
            None => Ok(()),
            Some(i) => {
                let place = self.header.transitions + self.header.kind.entry_size() * i;
                Err(EntryFault { place })
            }
        }
    }

    // Whether each verdict byte is one.
    pub(crate) fn check_verdicts<V: Verdict>(&self) -> Result<(), VerdictFault>
        ensures { MatchResult result (λ _. (s : ℕ) → s < self.now.header.states → Reads V.Verdict.reads self.now.file.now self.now.header s) (λ e. (s : ℕ) × FirstWrong (Reads V.Verdict.reads self.now.file.now self.now.header) self.now.header.states s × (e.place ≡ verdict_place self.now.header s)) }
    {
        let begin = self.header.verdicts;
        let end = begin + self.header.states;
        match self.file[begin..end]
            .iter()
            .position(|byte| V::read(*byte).is_none())
        {
            None => Ok(()),
            Some(s) => Err(VerdictFault { place: begin + s }),
        }
    }
}

fn in_table(h: &Header, e: &Edge) -> bool
    ensures { IsTrue result ↔ InTable h.now e.now }
{
    e.state < h.states && e.target < h.states && e.first <= e.last && e.last < h.letters
}

fn rises(d: &Edge, e: &Edge) -> bool
    ensures { IsTrue result ↔ Rises d.now e.now }
{
    (d.state, d.last) < (e.state, e.first)
}

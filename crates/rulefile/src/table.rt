use crate::good_file::GoodFile;
use crate::transitions::Transitions;
use automata::automaton::Automaton;
use automata::closed::ClosedRule;
use automata::verdict::Verdict;
use std::marker::PhantomData;

/// The automaton of a file of the kind of the transitions `T`, with verdicts of `V`; the closed
/// rule where the check refused the file, and there are none.
#[derive(Drop)]
pub struct FileTable<'a, T, V> {
    transitions: Option<T>,
    says: PhantomData<V>,
    lent: PhantomData<&'a ()>,
}

impl<'a, T: Transitions<'a>, V: Verdict> FileTable<'a, T, V> {
    ghost use Rattle.std.specs.Prelude.{◌≡◌, Some, Decides};
    ghost use Rattle.ruleformat.specs.declared.format.Kind.TheVariants as kinds;
    ghost use Rattle.ruleformat.specs.Faults.{Good};
    ghost use Rattle.ruleformat.specs.Makes.{Makes, FollowsEdges};
    ghost use Rattle.rulefile.specs.Meanings.{table_meaning, is_made};

    /// The file's table, or the closed rule where the check refuses the file as one of the kind.
    pub fn make(file: &'a [u8]) -> FileTable<'a, T, V>
        ensures leads { T.kind ≡ kinds.Edges → FollowsEdges V.Verdict.reads file.now (table_meaning V.Verdict.reads V.Verdict.closing T.file_of result) }
        ensures there { Decides (is_made result) (Good V.Verdict.reads (Some T.kind) file.now T.kind) }
        ensures made { Makes T.kind V.Verdict.reads V.Verdict.closing file.now (table_meaning V.Verdict.reads V.Verdict.closing T.file_of result) }
    {
        // Kept: a closure for `map` would need clauses of its own, as `T::of` asks for the kind.
        let transitions = match GoodFile::read::<V>(file, Some(T::kind())) {
            Ok(good) => Some(T::of(good)),
            Err(_) => None,
        };
        FileTable::new(transitions)
    }

    // Whether it was made of a good file.
    pub(crate) fn is_made(&self) -> bool
        ensures { result ≡ is_made self.now }
    {
        self.transitions.is_some()
    }

    // The automaton of those transitions, or the closed rule.
    pub(crate) fn new(transitions: Option<T>) -> FileTable<'a, T, V>
        ensures { result.transitions ≡ transitions }
    {
        FileTable {
            transitions,
            says: PhantomData,
            lent: PhantomData,
        }
    }
}

impl<'a, T: Transitions<'a>, W: Verdict> Automaton for FileTable<'a, T, W> {
    ghost use Rattle.rulefile.specs.Meanings.{table_meaning};
    ghost use Rattle.rulefile.specs.Soundness.{table_meaning_sound};

    type V = W;

    ghost meaning = { table_meaning W.Verdict.reads W.Verdict.closing T.file_of };

    ghost sound = { table_meaning_sound W.Verdict.reads W.Verdict.closing T.file_of };

    fn states(&self) -> usize {
        match &self.transitions {
            Some(t) => t.good().header.states,
            None => ClosedRule::<W>::new().states(),
        }
    }

    fn letters(&self) -> usize {
        match &self.transitions {
            Some(t) => t.good().header.letters,
            None => ClosedRule::<W>::new().letters(),
        }
    }

    fn start(&self) -> usize {
        match &self.transitions {
            Some(t) => t.good().header.start,
            None => ClosedRule::<W>::new().start(),
        }
    }

    fn next(&self, state: usize, letter: usize) -> usize {
        match &self.transitions {
            Some(t) if state < t.good().header.states && letter < t.good().header.letters => {
                t.next(state, letter)
            }
            _ => 0,
        }
    }

    fn verdict(&self, state: usize) -> W {
        match &self.transitions {
            Some(t) => t.good().verdict(state),
            None => W::closing(),
        }
    }
}

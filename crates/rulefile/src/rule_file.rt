ghost use Rattle.std.specs.Prelude.{◌≡◌, None};
ghost use Rattle.ruleformat.specs.declared.format.Kind.{Kind as TableKind};
ghost use Rattle.ruleformat.specs.declared.format.Kind.TheVariants as kinds;
ghost use Rattle.ruleformat.specs.Faults.{Good};
ghost use Rattle.ruleformat.specs.Makes.{MakesEither};
ghost use Rattle.rulefile.specs.Meanings.{file_meaning, holds, kind_of, IsOf};
ghost use Rattle.rulefile.specs.Soundness.{file_meaning_sound};

use crate::dense::{Dense, DenseTable};
use crate::edges::{EdgeList, Edges};
use crate::good_file::GoodFile;
use crate::table::FileTable;
use crate::transitions::Transitions;
use automata::automaton::Automaton;
use automata::verdict::Verdict;
use ruleformat::format::Kind;

/// The automaton of a rule file, of the kind that the file is of, with verdicts of `V`.
#[derive(Drop)]
pub enum RuleFile<'a, V> {
    Dense(DenseTable<'a, V>),
    Edges(EdgeList<'a, V>),
}

impl<'a, V: Verdict> RuleFile<'a, V> {
    /// The file's automaton, whichever kind it is of, or the closed rule where the check refuses
    /// the file. The file is read through once.
    pub fn make(file: &'a [u8]) -> RuleFile<'a, V>
        ensures made { MakesEither V.Verdict.reads V.Verdict.closing file.now (file_meaning V.Verdict.reads V.Verdict.closing result) }
        ensures kind { (kd : TableKind) → Good V.Verdict.reads None file.now kd → kind_of result ≡ kd }
        ensures holds { (kd : TableKind) → Good V.Verdict.reads None file.now kd → holds result ≡ kd }
        ensures refused { ((kd : TableKind) → Good V.Verdict.reads None file.now kd → ⊥) → kind_of result ≡ kinds.Dense }
    {
        match GoodFile::read::<V>(file, None) {
            Ok(good) => RuleFile::from(good),
            Err(_) => RuleFile::Dense(FileTable::new(None)),
        }
    }

    /// The file's kind; dense where the file was refused.
    pub fn kind(&self) -> Kind
        ensures { result ≡ kind_of self.now }
    {
        match self {
            RuleFile::Edges(t) if t.is_made() => Kind::Edges,
            _ => Kind::Dense,
        }
    }
}

/// A file that is known to be good has its automaton without being read through once more.
impl<'a, V: Verdict> From<GoodFile<'a>> for RuleFile<'a, V> {
    ghost from_gives = { IsOf V.Verdict.reads V.Verdict.closing };

    fn from(good: GoodFile<'a>) -> RuleFile<'a, V> {
        match good.header.kind {
            Kind::Dense => RuleFile::Dense(FileTable::new(Some(Dense::of(good)))),
            Kind::Edges => RuleFile::Edges(FileTable::new(Some(Edges::of(good)))),
        }
    }
}

// Kept: one match a question; a `dyn` that is handed out would hide what it calls, and take a box.
impl<'a, W: Verdict> Automaton for RuleFile<'a, W> {
    type V = W;

    ghost meaning = { file_meaning W.Verdict.reads W.Verdict.closing };

    ghost sound = { file_meaning_sound W.Verdict.reads W.Verdict.closing };

    fn states(&self) -> usize {
        match self {
            RuleFile::Dense(t) => t.states(),
            RuleFile::Edges(t) => t.states(),
        }
    }

    fn letters(&self) -> usize {
        match self {
            RuleFile::Dense(t) => t.letters(),
            RuleFile::Edges(t) => t.letters(),
        }
    }

    fn start(&self) -> usize {
        match self {
            RuleFile::Dense(t) => t.start(),
            RuleFile::Edges(t) => t.start(),
        }
    }

    fn next(&self, state: usize, letter: usize) -> usize {
        match self {
            RuleFile::Dense(t) => t.next(state, letter),
            RuleFile::Edges(t) => t.next(state, letter),
        }
    }

    fn verdict(&self, state: usize) -> W {
        match self {
            RuleFile::Dense(t) => t.verdict(state),
            RuleFile::Edges(t) => t.verdict(state),
        }
    }
}

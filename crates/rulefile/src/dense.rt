ghost use Rattle.std.specs.Prelude.{◌≡◌};
ghost use Rattle.ruleformat.specs.declared.format.Kind.TheVariants as kinds;
ghost use Rattle.ruleformat.specs.Layout.{entry_bytes};

use crate::good_file::GoodFile;
use crate::table::FileTable;
use crate::transitions::Transitions;
use ruleformat::format::Kind;

/// The automaton of a file of the dense kind, with verdicts of `V`; the closed rule where the
/// check refused the file.
pub type DenseTable<'a, V> = FileTable<'a, Dense<'a>, V>;

/// The targets of a good file of the dense kind, two bytes each.
#[derive(Drop)]
pub struct Dense<'a> {
    good: GoodFile<'a>,
    targets: &'a [[u8; 2]],
    ghost kind: { good.header.kind ≡ kinds.Dense },
    ghost all: { targets.now ≡ entry_bytes kinds.Dense good.file.now good.header },
}

impl<'a> Transitions<'a> for Dense<'a> {
    ghost kind = { kinds.Dense };

    ghost file_of = { λ t. t.good };

    fn kind() -> Kind
        ensures { result ≡ kinds.Dense }
    {
        Kind::Dense
    }

    fn of(good: GoodFile<'a>) -> Dense<'a>
        requires { good.header.kind ≡ kinds.Dense }
        ensures { result.good ≡ good.entry }
    {
        let targets = good.entries();
        Dense { good, targets }
    }

    fn good(&self) -> GoodFile<'a> {
        self.good
    }

    #[tactic(auto, using(crate::proofs::DenseFiles::leads))]
    fn next(&self, state: usize, letter: usize) -> usize {
        u16::from_le_bytes(self.targets[state * self.good.header.letters + letter]) as usize
    }
}

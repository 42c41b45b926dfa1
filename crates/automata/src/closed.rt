ghost use Rattle.automata.specs.Meaning.{closed_rule};
ghost use Rattle.automata.specs.ClosedRule.{closed_sound};

use crate::automaton::Automaton;
use crate::verdict::Verdict;
use std::marker::PhantomData;

// It has one state and one letter, and both are number 0.
const COUNT: usize = 1;

const ONLY: usize = 0;

/// The closed rule: one state, one letter, and the closing verdict. It is what comes of a rule
/// that its check refuses.
#[derive(Drop)]
pub struct ClosedRule<V> {
    says: PhantomData<V>,
}

impl<V: Verdict> ClosedRule<V> {
    pub fn new() -> ClosedRule<V> {
        ClosedRule { says: PhantomData }
    }
}

impl<V: Verdict> Automaton for ClosedRule<V> {
    type V = V;

    ghost meaning = { λ _. closed_rule V.Verdict.closing };

    ghost sound = { λ _. closed_sound V.Verdict.closing };

    fn states(&self) -> usize {
        COUNT
    }

    fn letters(&self) -> usize {
        COUNT
    }

    fn start(&self) -> usize {
        ONLY
    }

    fn next(&self, _state: usize, _letter: usize) -> usize {
        ONLY
    }

    fn verdict(&self, _state: usize) -> V {
        V::closing()
    }
}

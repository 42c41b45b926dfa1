ghost use Rattle.std.specs.Prelude.{◌≡◌};
ghost use Rattle.automata.specs.Meaning.{Meaning, Sound};

use crate::verdict::Verdict;

/// A deterministic finite automaton: n states, k letters, a start state, a next state for each
/// state and letter, and a verdict for each state. Each question is answered from the meaning
/// alone and leaves the automaton as it is. Nothing is refused: out of range the next state is 0
/// and the verdict is the closing one.
pub trait Automaton {
    type V: Verdict;

    /// The five things that the automaton means.
    ghost meaning: { Self → Meaning Self.V };

    /// The number of states.
    fn states(&self) -> usize
        ensures { result ≡ (meaning self.now).n };

    /// The number of letters.
    fn letters(&self) -> usize
        ensures { result ≡ (meaning self.now).k };

    fn start(&self) -> usize
        ensures { result ≡ (meaning self.now).start };

    fn next(&self, state: usize, letter: usize) -> usize
        ensures { result ≡ (meaning self.now).next state letter };

    fn verdict(&self, state: usize) -> Self::V
        ensures { result ≡ (meaning self.now).verdict state };

    /// The meaning of every automaton is sound.
    ghost sound: { (rule : Self) → Sound Self.V.Verdict.closing (meaning rule) };
}

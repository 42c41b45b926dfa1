ghost use Rattle.std.specs.Prelude.{◌≡◌, ◌<◌, IfOk, MatchResult};
ghost use Rattle.automata.specs.Words.{Word, follow, verdict_of, Reachable, FirstForeign};

use crate::automaton::Automaton;
use crate::verdict::Verdict;

/// The first number of a list that is no letter of the automaton, and where it stands.
#[derive(Clone, Copy, PartialEq, Eq, Debug)]
pub struct NoLetter {
    pub index: usize,
    pub letter: u8,
}

/// The state where a word ends that is followed from the start state.
pub fn follow_word<A: Automaton>(rule: &A, word: &[u8]) -> Result<usize, NoLetter>
    ensures ends { MatchResult result (λ s. Word (A.meaning rule.now).k word.now × (s ≡ follow (A.meaning rule.now) (A.meaning rule.now).start word.now)) (λ e. FirstForeign (A.meaning rule.now).k word.now e.index e.letter) }
    ensures reached { IfOk result (λ s. Reachable (A.meaning rule.now) s × (s < (A.meaning rule.now).n)) }
{
    let letters = rule.letters();
    let mut state = rule.start();
    for (index, &letter) in word.iter().enumerate() {
        if letter as usize >= letters {
            return Err(NoLetter { index, letter });
        }
        state = rule.next(state, letter as usize);
    }
    Ok(state)
}

/// The verdict that an automaton gives to a word.
pub fn word_verdict<A: Automaton>(rule: &A, word: &[u8]) -> Result<A::V, NoLetter>
    ensures { MatchResult result (λ v. Word (A.meaning rule.now).k word.now × (v ≡ verdict_of (A.meaning rule.now) word.now)) (λ e. FirstForeign (A.meaning rule.now).k word.now e.index e.letter) }
{
    let state = follow_word(rule, word)?;
    Ok(rule.verdict(state))
}

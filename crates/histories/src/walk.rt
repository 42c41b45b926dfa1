ghost use Rattle.histories.specs.Histories.{history_of};
ghost use Rattle.histories.specs.Outcomes.{Walked};

use crate::letters::{Letters, letter_count};
use crate::line::WrongToken;
use automata::automaton::Automaton;

/// Where an automaton stands behind the letters of a line, and how many letters these are.
#[derive(Clone, Copy, PartialEq, Eq, Debug)]
pub struct Walk {
    pub state: usize,
    pub letters: usize,
}

/// Follows the letters of a line from the start state, up to the first wrong token. The history is
/// followed as it is read, and is not kept.
pub fn walk_line<'a, A: Automaton>(rule: &A, line: &'a [u8]) -> Result<Walk, WrongToken<'a>>
    ensures { Walked (A.meaning rule.now) (history_of (A.meaning rule.now).k line.now) result }
{
    let mut state = rule.start();
    // Kept: a count beside the loop; a fold over state and count would say no more.
    let mut letters = 0usize;
    for letter in Letters::new(line, letter_count(rule)) {
        state = rule.next(state, letter? as usize);
        letters += 1;
    }
    Ok(Walk { state, letters })
}

ghost use Rattle.std.specs.Result.{MatchResult};
ghost use Rattle.histories.specs.Histories.{history_of, Begins};
ghost use Rattle.histories.specs.Outcomes.{Came};
ghost use Rattle.histories.specs.Tokens.{tokens};

use crate::letters::letter_count;
use crate::line::{LineFault, WrongToken, read_line};
use automata::automaton::Automaton;
use automata::words::word_verdict;
use automata::yes_no::YesNo;
use std::alloc::{AllocError, Global};

/// What came of one line.
// Kept: no Result, since a line that is not readable is counted and printed too, and no `?` passes it up.
#[derive(Clone, Copy)]
pub enum Outcome<'a> {
    /// Its history was followed: how many letters that has, and what the automaton says of it.
    Followed { letters: usize, verdict: YesNo },
    /// It tells no history, by its first wrong token.
    Unreadable(WrongToken<'a>),
}

/// Reads a line as a history over the letters of an automaton, and follows it.
pub fn follow_line<'a, A: Automaton<V = YesNo>>(
    heap: Global,
    rule: &A,
    line: &'a [u8],
) -> Result<Outcome<'a>, AllocError>
    ensures { MatchResult result (λ o. Came (A.meaning rule.now) (history_of (A.meaning rule.now).k line.now) o) (λ _. Begins (A.meaning rule.now).k (tokens line.now)) }
{
    match read_line(heap, line, letter_count(rule)) {
        Ok(word) => {
            let verdict = word_verdict(rule, word.as_slice()).unwrap();
            Ok(Outcome::Followed {
                letters: word.len(),
                verdict,
            })
        }
        Err(LineFault::Token(wrong)) => Ok(Outcome::Unreadable(wrong)),
        Err(LineFault::Memory) => Err(AllocError),
    }
}

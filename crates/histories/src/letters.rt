ghost use Rattle.std.specs.Prelude.{◌≡◌, length};
ghost use Rattle.std.specs.Iterator.{at_most};
ghost use Rattle.histories.specs.Taking.{line_left, letters_over, TakesLetter};

use crate::line::WrongToken;
use crate::token::{next_token, read_letter};
use automata::automaton::Automaton;

/// The number of letters of an automaton, as a byte.
pub(crate) fn letter_count<A: Automaton>(rule: &A) -> u8
    ensures { result ≡ (A.meaning rule.now).k }
{
    rule.letters() as u8
}

/// The letters of a line, over a number of letters, one token after another.
#[derive(Drop)]
pub(crate) struct Letters<'a> {
    rest: &'a [u8],
    below: u8,
}

impl<'a> Letters<'a> {
    pub(crate) fn new(line: &'a [u8], below: u8) -> Letters<'a>
        ensures rest { line_left result ≡ line.now }
        ensures below { letters_over result ≡ below }
    {
        Letters { rest: line, below }
    }
}

impl<'a> Iterator for Letters<'a> {
    type Item = Result<u8, WrongToken<'a>>;

    ghost next_gives = { TakesLetter };

    ghost remaining = { λ s. at_most (length (line_left s)) };

    fn next(&mut self) -> Option<Self::Item> {
        let (text, after) = next_token(self.rest)?;
        let letter = read_letter(text, self.below).map_err(|fault| WrongToken { text, fault });
        self.rest = after;
        Some(letter)
    }
}

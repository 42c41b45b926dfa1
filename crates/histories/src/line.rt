ghost use Rattle.std.specs.Prelude.{◌≡◌, IfOk};
ghost use Rattle.histories.specs.declared.line.LineFault.TheVariants.{Token, Memory};
ghost use Rattle.automata.specs.Words.{Word};
ghost use Rattle.histories.specs.Histories.{Read};
ghost use Rattle.histories.specs.Pieces.{CutRight};
ghost use Rattle.histories.specs.Spelling.{ReadsBack};

use crate::letters::Letters;
use crate::token::TokenFault;
use std::alloc::{AllocFailed, Global};

/// The first wrong token of a line, as it is written there.
#[derive(Clone, Copy)]
pub struct WrongToken<'a> {
    pub text: &'a [u8],
    pub fault: TokenFault,
}

/// Why a line gives no history.
#[derive(Clone, Copy)]
pub enum LineFault<'a> {
    Token(WrongToken<'a>),
    Memory,
}

impl<'a> From<WrongToken<'a>> for LineFault<'a> {
    ghost from_gives = { λ wrong r. r ≡ Token wrong };

    fn from(wrong: WrongToken<'a>) -> LineFault<'a> {
        LineFault::Token(wrong)
    }
}

impl From<AllocFailed<u8>> for LineFault<'_> {
    ghost from_gives = { λ _ r. r ≡ Memory };

    fn from(_e: AllocFailed<u8>) -> Self {
        LineFault::Memory
    }
}

/// The history that a line tells, over a number of letters.
pub fn read_line(heap: Global, line: &[u8], letters: u8) -> Result<Vec<u8>, LineFault<'_>>
    ensures read { Read letters line.now result }
    ensures below { IfOk result (λ v. Word letters v.items) }
    ensures cut { CutRight line.now }
    ensures back { ReadsBack letters line.now result }
{
    read_tokens(heap, line, letters)
}

/// Reads a token after another, up to the first that is wrong. It stands apart from `read_line`, so
/// that what follows from `read` is proved once, and not at each return.
fn read_tokens(heap: Global, line: &[u8], letters: u8) -> Result<Vec<u8>, LineFault<'_>>
    ensures read { Read letters line.now result }
    ensures below { IfOk result (λ v. Word letters v.items) }
{
    let mut word = Vec::new(heap);
    for letter in Letters::new(line, letters) {
        word.push(letter?)?;
    }
    Ok(word)
}

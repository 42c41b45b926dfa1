ghost use Rattle.std.specs.Prelude.{◌≡◌, is_some, Some, nat_lt};
ghost use Rattle.automata.specs.Verdicts.{Converts};
ghost use Rattle.automata.specs.YesNo.{same_byte, says_no, byte_of, verdict_of_byte, spelt};
ghost use Rattle.automata.specs.YesNoLaws.{yes_no_laws};

use crate::number::UnknownNumber;
use crate::verdict::Verdict;
use std::fmt;

/// Whether a panel may be cut.
#[derive(Clone, Copy, PartialEq, Eq, Debug)]
pub enum YesNo {
    No,
    Yes,
}

impl Verdict for YesNo {
    ghost alike = { same_byte };

    ghost closing = { says_no };

    ghost code = { byte_of };

    ghost reads = { verdict_of_byte };

    ghost laws = { yes_no_laws };

    fn closing() -> YesNo {
        Self::No
    }

    fn byte(&self) -> u8 {
        *self as u8
    }

    // A byte is a verdict exactly if it is 0 or 1.
    fn read(byte: u8) -> Option<YesNo>
        ensures value { result ≡ verdict_of_byte byte }
        ensures exact { is_some result ≡ nat_lt byte 2 }
    {
        match byte {
            0 => Some(YesNo::No),
            1 => Some(YesNo::Yes),
            _ => None,
        }
    }
}

impl TryFrom<u8> for YesNo {
    type Error = UnknownNumber;

    ghost try_from_gives = { Converts verdict_of_byte };

    fn try_from(byte: u8) -> Result<YesNo, UnknownNumber> {
        YesNo::read(byte).ok_or(UnknownNumber(byte))
    }
}

impl fmt::Display for YesNo {
    ghost output = { λ v. Some (spelt v) };

    fn fmt<W: fmt::Write>(&self, f: &mut fmt::Formatter<W>) -> fmt::Result {
        match self {
            YesNo::No => f.write_str("no"),
            YesNo::Yes => f.write_str("yes"),
        }
    }
}

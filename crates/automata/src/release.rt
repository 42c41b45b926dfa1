ghost use Rattle.std.specs.Prelude.{◌≡◌, ◌%◌, ◌<◌, ◌≤◌, is_some, MatchOption, nat_lt};

use crate::number::UnknownNumber;
use crate::verdict::Verdict;

/// What is done with a panel.
#[derive(Clone, Copy, PartialEq, Eq, Debug)]
pub enum Decision {
    Refuse,
    Hold,
    Cut,
}

/// A decision with its reason, a number from 0 to 63.
#[derive(Clone, Copy, PartialEq, Eq, Debug)]
pub struct Release {
    pub decision: Decision,
    pub reason: u8,
    ghost small: { reason ≤ 63 },
}

impl TryFrom<u8> for Decision {
    ghost use Rattle.automata.specs.Release.{DecidesBy};

    type Error = UnknownNumber;

    ghost try_from_gives = { DecidesBy };

    fn try_from(number: u8) -> Result<Decision, UnknownNumber> {
        match number {
            0 => Ok(Decision::Refuse),
            1 => Ok(Decision::Hold),
            2 => Ok(Decision::Cut),
            _ => Err(UnknownNumber(number)),
        }
    }
}

impl Release {
    /// The verdict of a decision and a reason, or none where the reason is above 63.
    pub fn new(decision: Decision, reason: u8) -> Option<Release>
        ensures { MatchOption result (63 < reason) (λ v. (v.decision ≡ decision) × (v.reason ≡ reason)) }
    {
        if reason > 63 {
            return None;
        }
        Some(Release { decision, reason })
    }
}

impl Verdict for Release {
    ghost use Rattle.automata.specs.Release.{same_byte, refused, byte_of, verdict_of_byte};
    ghost use Rattle.automata.specs.ReleaseLaws.{release_laws};

    ghost alike = { same_byte };

    ghost closing = { refused };

    ghost code = { byte_of };

    ghost reads = { verdict_of_byte };

    ghost laws = { release_laws };

    fn closing() -> Release {
        Release {
            decision: Decision::Refuse,
            reason: 0,
        }
    }

    fn byte(&self) -> u8 {
        4 * self.reason + self.decision as u8
    }

    // A byte is a verdict exactly if its remainder by 4 is not 3.
    fn read(byte: u8) -> Option<Release>
        ensures value { result ≡ verdict_of_byte byte }
        ensures exact { is_some result ≡ nat_lt (byte % 4) 3 }
    {
        let decision = Decision::try_from(byte % 4).ok()?;
        let reason = byte / 4;
        Some(Release { decision, reason })
    }
}

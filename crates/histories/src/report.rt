ghost use Rattle.std.specs.Prelude.{◌≡◌, Some};
ghost use Rattle.std.specs.Fmt.{WritesOnOk};
ghost use Rattle.histories.specs.Reports.{visible, printed_byte, printed, complaint, report, counts, summary};

use crate::line::WrongToken;
use crate::outcome::Outcome;
use crate::tally::Tally;
use crate::token::TokenFault;
use std::fmt;

/// The bytes of a token, as they are printed.
#[derive(Clone, Copy)]
pub struct TokenText<'a>(pub &'a [u8]);

/// What is wrong with a token, by the number of letters of the automaton.
#[derive(Clone, Copy)]
pub struct Complaint<'a> {
    pub wrong: WrongToken<'a>,
    pub below: usize,
}

/// The report of one line: its number, the number of letters of the automaton, and what came of it.
#[derive(Clone, Copy)]
pub struct LineReport<'a> {
    pub number: u64,
    pub below: usize,
    pub outcome: Outcome<'a>,
}

/// The counts of a tally.
#[derive(Clone, Copy)]
pub struct Counts(pub Tally);

/// Whether a byte is printed as it is: a visible ASCII character, and no backslash.
fn is_visible(byte: u8) -> bool
    ensures { result ≡ visible byte }
{
    byte.is_ascii_graphic() && byte != b'\\'
}

/// Prints one byte. Each digit is written by itself, so that a writer that keeps what it is given can take one and not the
/// other.
fn put_byte<W: fmt::Write>(byte: u8, f: &mut fmt::Formatter<W>) -> fmt::Result
    ensures { WritesOnOk W.write_str_gives f.old result (printed_byte byte) f.new }
{
    if is_visible(byte) {
        return f.write_char(byte as char);
    }
    let high = char::from_digit(u32::from(byte / 16), 16).unwrap();
    let low = char::from_digit(u32::from(byte % 16), 16).unwrap();
    write!(f, "\\x{high}{low}")
}

impl fmt::Display for TokenText<'_> {
    ghost output = { λ t. Some (printed t.0.now) };

    fn fmt<W: fmt::Write>(&self, f: &mut fmt::Formatter<W>) -> fmt::Result {
        for byte in self.0 {
            put_byte(*byte, f)?;
        }
        Ok(())
    }
}

impl fmt::Display for Complaint<'_> {
    ghost output = { λ c. Some (complaint c.below c.wrong.fault c.wrong.text.now) };

    fn fmt<W: fmt::Write>(&self, f: &mut fmt::Formatter<W>) -> fmt::Result {
        let Complaint { wrong, below } = *self;
        let token = TokenText(wrong.text);
        match wrong.fault {
            TokenFault::NotBelow => write!(f, "letter {token} is not below {below}"),
            TokenFault::NoNumber => write!(f, "`{token}` is no number"),
        }
    }
}

impl fmt::Display for LineReport<'_> {
    ghost output = { λ l. Some (report l.number l.below l.outcome) };

    fn fmt<W: fmt::Write>(&self, f: &mut fmt::Formatter<W>) -> fmt::Result {
        let LineReport {
            number,
            below,
            outcome,
        } = *self;
        match outcome {
            Outcome::Followed { letters, verdict } => {
                write!(f, "{number}: {letters} letters, {verdict}")
            }
            Outcome::Unreadable(wrong) => write!(f, "{number}: {}", Complaint { wrong, below }),
        }
    }
}

impl fmt::Display for Counts {
    ghost output = { λ c. Some (counts c.0) };

    fn fmt<W: fmt::Write>(&self, f: &mut fmt::Formatter<W>) -> fmt::Result {
        let Tally {
            yes,
            no,
            unreadable,
        } = self.0;
        write!(f, "{yes} yes, {no} no, {unreadable} not readable")
    }
}

impl fmt::Display for Tally {
    ghost output = { λ t. Some (summary t) };

    fn fmt<W: fmt::Write>(&self, f: &mut fmt::Formatter<W>) -> fmt::Result {
        let histories = self.histories();
        let followed = self.followed();
        write!(
            f,
            "{histories} histories: {followed} followed, {}",
            Counts(*self)
        )
    }
}

// What the bytes of a rule file hold.
ghost use Rattle.std.specs.Prelude.{◌≡◌, Some};
ghost use Rattle.ruleformat.specs.Layout.{kind_byte, entry_size, SaysKind};
ghost use Rattle.ruleformat.specs.Bytes.{edge_at};
ghost use Rattle.ruleformat.specs.Numbers.{kind_name};

use automata::number::UnknownNumber;
use std::fmt;

/// The two kinds of transitions: a target for each state and letter, or a list of edges.
#[derive(Clone, Copy, PartialEq, Eq, Debug)]
pub enum Kind {
    Dense = 1,
    Edges = 2,
}

impl Kind {
    /// How many bytes an entry has: a target two, an edge six.
    pub fn entry_size(self) -> usize
        ensures { result ≡ entry_size self }
    {
        match self {
            Kind::Dense => 2,
            Kind::Edges => 6,
        }
    }
}

impl TryFrom<u8> for Kind {
    type Error = UnknownNumber;

    ghost try_from_gives = { SaysKind };

    fn try_from(byte: u8) -> Result<Kind, UnknownNumber> {
        match byte {
            1 => Ok(Kind::Dense),
            2 => Ok(Kind::Edges),
            _ => Err(UnknownNumber(byte)),
        }
    }
}

impl From<Kind> for u8 {
    ghost from_gives = { λ kd byte. byte ≡ kind_byte kd };

    fn from(kind: Kind) -> u8 {
        kind as u8
    }
}

impl fmt::Display for Kind {
    ghost output = { λ kd. Some (kind_name kd) };

    fn fmt<W: fmt::Write>(&self, f: &mut fmt::Formatter<W>) -> fmt::Result {
        match self {
            Kind::Dense => f.write_str("dense"),
            Kind::Edges => f.write_str("edges"),
        }
    }
}

/// The numbers of a file's last 16 bytes, as they stand there. A distance counts back from the
/// first of these bytes.
// Kept: kind and version are bytes, as nothing is known of them yet; `Kind::try_from` makes a kind.
#[derive(Clone, Copy, PartialEq, Eq, Debug)]
pub struct Trailer {
    pub transitions: usize,
    pub verdicts: usize,
    pub states: usize,
    pub letters: usize,
    pub start: usize,
    pub kind: u8,
    pub version: u8,
}

/// What a good file says of itself. An entry is a target or an edge; `transitions` and `verdicts`
/// are the places of the first entry and of the first verdict, counted from the file's start.
#[derive(Clone, Copy, PartialEq, Eq, Debug)]
pub struct Header {
    pub kind: Kind,
    pub states: usize,
    pub letters: usize,
    pub start: usize,
    pub entries: usize,
    pub transitions: usize,
    pub verdicts: usize,
}

/// An edge: from a state, each letter from the first to the last leads to the target.
#[derive(Clone, Copy, PartialEq, Eq, Debug)]
pub struct Edge {
    pub state: usize,
    pub first: usize,
    pub last: usize,
    pub target: usize,
}

impl From<[u8; 6]> for Edge {
    ghost from_gives = { λ bytes e. e ≡ edge_at bytes 0 };

    #[tactic(auto, unfolding(crate::specs::Bytes::edge_at))]
    fn from(bytes: [u8; 6]) -> Edge {
        let [s, s_high, first, last, t, t_high] = bytes;
        Edge {
            state: u16::from_le_bytes([s, s_high]) as usize,
            first: first as usize,
            last: last as usize,
            target: u16::from_le_bytes([t, t_high]) as usize,
        }
    }
}

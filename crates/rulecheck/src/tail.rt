// Reads a file's trailer, and says what is wrong with it.
ghost use Rattle.std.specs.Prelude.{◌≡◌, ◌+◌, ◌<◌, ◌≤◌, ◌^◌, length, MatchResult, MatchOption};
ghost use Rattle.ruleformat.specs.declared.fault.FileFault.TheVariants as fault;
ghost use Rattle.ruleformat.specs.declared.format.Kind.{Kind as TableKind};
ghost use Rattle.ruleformat.specs.Bytes.{trailer_of};
ghost use Rattle.ruleformat.specs.Layout.{Known, Ranged, Laid, entry_count, header_at};

use ruleformat::fault::FileFault;
use ruleformat::format::{Header, Kind, Trailer};
use ruleformat::reading::{four, two};

// A file's last 16 bytes, and where they begin.
#[derive(Clone, Copy)]
pub(crate) struct Tail {
    trailer: Trailer,
    at: usize,
    ghost fits: { at + 16 < 2 ^ 64 },
}

impl Tail {
    #[tactic(auto, unfolding(ruleformat::specs::Bytes::trailer_of))]
    pub(crate) fn read(file: &[u8]) -> Result<Tail, FileFault>
        ensures { MatchResult result (λ t. (16 ≤ length file.now) × (t.trailer ≡ trailer_of file.now) × (t.at + 16 ≡ length file.now)) (λ e. (length file.now < 16) × (e ≡ fault.Short (length file.now))) }
    {
        if file.len() < 16 {
            return Err(FileFault::Short { place: file.len() });
        }
        let at = file.len() - 16;
        let trailer = Trailer {
            transitions: four(file, at),
            verdicts: four(file, at + 4),
            states: two(file, at + 8),
            letters: two(file, at + 10),
            start: two(file, at + 12),
            kind: file[at + 14],
            version: file[at + 15],
        };
        Ok(Tail { trailer, at })
    }

    pub(crate) fn kind(&self, wanted: Option<Kind>) -> Result<Kind, FileFault>
        ensures { MatchResult result (λ kd. Known wanted kd self.now.trailer) (λ e. ((kd : TableKind) → Known wanted kd self.now.trailer → ⊥) × (e ≡ fault.Kind self.now.at)) }
    {
        let unknown = FileFault::Kind { place: self.at };
        let kind = Kind::try_from(self.trailer.kind).map_err(|_| unknown)?;
        if self.trailer.version != 1 || wanted.is_some_and(|w| w != kind) {
            return Err(unknown);
        }
        Ok(kind)
    }

    pub(crate) fn check_figures(&self) -> Result<(), FileFault>
        ensures { MatchResult result (λ _. Ranged self.now.trailer) (λ e. (Ranged self.now.trailer → ⊥) × (e ≡ fault.Figures self.now.at)) }
    {
        let t = &self.trailer;
        if !(1..=128).contains(&t.states) || !(1..=64).contains(&t.letters) || t.start >= t.states {
            return Err(FileFault::Figures { place: self.at });
        }
        Ok(())
    }

    // The number of entries, where the distances fit.
    fn entries(&self, kind: Kind) -> Option<usize>
        requires { Ranged self.now.trailer }
        ensures { MatchOption result (Laid (self.now.at + 16) kind self.now.trailer → ⊥) (λ m. Laid (self.now.at + 16) kind self.now.trailer × (m ≡ entry_count kind self.now.trailer)) }
    {
        let t = &self.trailer;
        if t.verdicts != t.states || t.transitions < t.verdicts || t.transitions > self.at {
            return None;
        }
        let bytes = t.transitions - t.verdicts;
        let entries = match kind {
            Kind::Dense => t.states * t.letters,
            Kind::Edges => bytes / kind.entry_size(),
        };
        (bytes == kind.entry_size() * entries).then_some(entries)
    }

    // What the trailer says, where its distances fit.
    pub(crate) fn header(&self, kind: Kind) -> Result<Header, FileFault>
        requires { Ranged self.now.trailer }
        ensures { MatchResult result (λ h. Laid (self.now.at + 16) kind self.now.trailer × (h ≡ header_at self.now.at kind self.now.trailer)) (λ e. (Laid (self.now.at + 16) kind self.now.trailer → ⊥) × (e ≡ fault.Distance self.now.at)) }
    {
        let Trailer {
            transitions,
            verdicts,
            states,
            letters,
            start,
            ..
        } = self.trailer;
        let entries = self
            .entries(kind)
            .ok_or(FileFault::Distance { place: self.at })?;
        Ok(Header {
            kind,
            states,
            letters,
            start,
            entries,
            transitions: self.at - transitions,
            verdicts: self.at - verdicts,
        })
    }
}

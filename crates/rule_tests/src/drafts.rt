// The worked files, files built from their parts, and the comparison with what the check answers.
use automata::verdict::Verdict;
use rulecheck::check::check;
use ruleformat::fault::FileFault;
use ruleformat::format::Kind;
use std::alloc::Global;
use std::process::Abort;
use std::test::Fail;

/// The worked rule as a dense file: from 0 to 1 and 2, from 1 to 0 and 2, from 2 to 2 and 2; yes, yes, no. The
/// verdicts begin at 12, the trailer at 15.
pub const DENSE: &[u8; 31] =
    b"\x01\x00\x02\x00\x00\x00\x02\x00\x02\x00\x02\x00\x01\x01\x00\x0f\x00\x00\x00\x03\x00\x00\x00\x03\x00\x02\x00\x00\x00\x01\x01";

/// The same rule as an edge list. The verdicts begin at 24, the trailer at 27.
pub const EDGES: &[u8; 43] =
    b"\x00\x00\x00\x00\x01\x00\x00\x00\x01\x01\x02\x00\x01\x00\x00\x00\x00\x00\x01\x00\x01\x01\x02\x00\x01\x01\x00\x1b\x00\x00\x00\x03\x00\x00\x00\x03\x00\x02\x00\x00\x00\x02\x01";

/// Bytes to stand in front of a file.
pub const NOTES: [u8; 5] = [255, 1, 0, 2, 9];

/// Bytes of a file, each with its place and what it is changed to.
pub type Changes = &'static [(usize, u8)];

/// The file behind the notes, with the changes; their places are those in the file without notes.
pub fn changed(
    heap: Global,
    notes: &[u8],
    file: &[u8],
    changes: &[(usize, u8)],
) -> Result<Vec<u8>, Fail> {
    let mut bytes = notes.to_vec(heap)?;
    bytes.extend_from_slice(file)?;
    for (place, byte) in changes {
        let place = place.wrapping_add(notes.len());
        *bytes.get_mut(place).ok_or("a change behind the file")? = *byte;
    }
    Ok(bytes)
}

/// A file of its parts, without notes. The start is 0.
pub fn built(
    heap: Global,
    kind: Kind,
    states: u16,
    letters: u8,
    entries: &[u8],
    verdicts: &[u8],
) -> Result<Vec<u8>, Fail> {
    let distance = u32::try_from(entries.len())?.wrapping_add(u32::from(states));
    let mut file = entries.to_vec(heap)?;
    file.extend_from_slice(verdicts)?;
    file.extend_from_slice(&distance.to_le_bytes())?;
    file.extend_from_slice(&u32::from(states).to_le_bytes())?;
    file.extend_from_slice(&states.to_le_bytes())?;
    file.extend_from_slice(&[letters, 0, 0, 0, u8::from(kind), 1])?;
    Ok(file)
}

/// An edge list of 3 states and 4 letters, with verdicts yes, yes, no. An edge is its state, first letter, last letter
/// and target.
pub fn edge_file(heap: Global, edges: &[[u8; 4]]) -> Result<Vec<u8>, Fail> {
    let mut entries = Vec::new(heap);
    for [state, first, last, target] in edges {
        entries.extend_from_slice(&[*state, 0, *first, *last, *target, 0])?;
    }
    built(heap, Kind::Edges, 3, 4, &entries, &[1, 1, 0])
}

/// A file in which state s leads by letter a to the remainder of s + a by 128, each by an edge of its own where it is an
/// edge list. Even states say no, odd ones yes.
pub fn full_file(heap: Global, kind: Kind, states: u16, letters: u8) -> Result<Vec<u8>, Fail> {
    let mut entries = Vec::new(heap);
    let mut verdicts = Vec::new(heap);
    for s in 0..states {
        let [low, high] = s.to_le_bytes();
        for a in 0..letters {
            if kind == Kind::Edges {
                entries.extend_from_slice(&[low, high, a, a])?;
            }
            entries.extend_from_slice(&[low.wrapping_add(a) % 128, 0])?;
        }
        verdicts.push((s % 2) as u8)?;
    }
    built(heap, kind, states, letters, &entries, &verdicts)
}

/// The file with the changes has that fault, without notes and behind them, where the fault's place moves with the file.
pub fn assert_fault<V: Verdict>(
    rt: &(impl Abort + AllocGlobal),
    file: &[u8],
    changes: &[(usize, u8)],
    fault: Option<FileFault>,
    case: usize,
) -> Result<(), Fail> {
    let notes: [&[u8]; 2] = [&[], &NOTES];
    for notes in notes {
        let bytes = changed(rt.alloc(), notes, file, changes)?;
        let found = check::<V>(&bytes, None).err();
        assert_eq!(rt;
            found.map(|f| (f.number(), f.place())),
            fault.map(|f| (f.number(), f.place().wrapping_add(notes.len()))),
            "case {case}"
        );
    }
    Ok(())
}

/// With each of the changes the file has that fault, or none.
pub fn assert_faults<V: Verdict>(
    rt: &(impl Abort + AllocGlobal),
    file: &[u8],
    cases: &[(Changes, Option<FileFault>)],
) -> Result<(), Fail> {
    for (case, (changes, fault)) in cases.iter().enumerate() {
        assert_fault::<V>(rt, file, changes, *fault, case)?;
    }
    Ok(())
}

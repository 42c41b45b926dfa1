// Lengths and trailers: what passes, and refusals 1 to 4.
use crate::drafts::*;
use automata::yes_no::YesNo;
use rulecheck::check::check;
use ruleformat::fault::FileFault;
use ruleformat::format::{Header, Kind};
use std::test::Fail;

#[test]
fn dense_header(rt: HostRuntime) -> Result<(), Fail> {
    let header = Header {
        kind: Kind::Dense,
        states: 3,
        letters: 2,
        start: 0,
        entries: 6,
        transitions: 0,
        verdicts: 12,
    };
    assert_eq!(rt; check::<YesNo>(DENSE, Some(Kind::Dense))?, header);
    Ok(())
}

#[test]
fn edges_header(rt: HostRuntime) -> Result<(), Fail> {
    let header = Header {
        kind: Kind::Edges,
        states: 3,
        letters: 2,
        start: 0,
        entries: 4,
        transitions: 5,
        verdicts: 29,
    };
    let file = changed(rt.alloc(), &NOTES, EDGES, &[])?;
    assert_eq!(rt; check::<YesNo>(&file, Some(Kind::Edges))?, header);
    Ok(())
}

// Under 16 bytes the place is the length; 16 bytes are a trailer. A trailer alone, the dense file without its first byte, and
// the smallest files of both kinds.
const LENGTHS: [(&[u8], Option<FileFault>); 7] = [
    (&[], Some(FileFault::Short { place: 0 })),
    (&[1; 15], Some(FileFault::Short { place: 15 })),
    (&[0; 16], Some(FileFault::Kind { place: 0 })),
    (
        &[15, 0, 0, 0, 3, 0, 0, 0, 3, 0, 2, 0, 0, 0, 1, 1],
        Some(FileFault::Distance { place: 0 }),
    ),
    (
        &[
            0, 2, 0, 0, 0, 2, 0, 2, 0, 2, 0, 1, 1, 0, 15, 0, 0, 0, 3, 0, 0, 0, 3, 0, 2, 0, 0, 0, 1,
            1,
        ],
        Some(FileFault::Distance { place: 14 }),
    ),
    (
        &[0, 0, 0, 3, 0, 0, 0, 1, 0, 0, 0, 1, 0, 1, 0, 0, 0, 1, 1],
        None,
    ),
    (&[1, 1, 0, 0, 0, 1, 0, 0, 0, 1, 0, 1, 0, 0, 0, 2, 1], None),
];

#[test]
fn lengths(rt: HostRuntime) {
    for (file, fault) in LENGTHS {
        assert_eq!(rt; check::<YesNo>(file, None).err(), fault);
    }
}

// Notes, a file behind them, the other kind, and the place where it is refused.
const OTHER_KINDS: [(&[u8], &[u8], Kind, usize); 4] = [
    (&[], DENSE, Kind::Edges, 15),
    (&[], EDGES, Kind::Dense, 27),
    (&NOTES, DENSE, Kind::Edges, 20),
    (&NOTES, EDGES, Kind::Dense, 32),
];

#[test]
fn other_kind_wanted(rt: HostRuntime) -> Result<(), Fail> {
    for (notes, file, wanted, place) in OTHER_KINDS {
        let bytes = changed(rt.alloc(), notes, file, &[])?;
        let fault = check::<YesNo>(&bytes, Some(wanted)).err();
        assert_eq!(rt; fault, Some(FileFault::Kind { place }));
    }
    Ok(())
}

const DENSE_TRAILERS: [(Changes, Option<FileFault>); 27] = [
    // kinds 0 and 3, an edge list by its kind alone, versions 0 and 2
    (&[(29, 0)], Some(FileFault::Kind { place: 15 })),
    (&[(29, 3)], Some(FileFault::Kind { place: 15 })),
    (&[(29, 2)], Some(FileFault::Entry { place: 0 })),
    (&[(30, 0)], Some(FileFault::Kind { place: 15 })),
    (&[(30, 2)], Some(FileFault::Kind { place: 15 })),
    // states 0, 129, 259; letters 0, 65, 258
    (&[(23, 0)], Some(FileFault::Figures { place: 15 })),
    (&[(23, 129)], Some(FileFault::Figures { place: 15 })),
    (&[(24, 1)], Some(FileFault::Figures { place: 15 })),
    (&[(25, 0)], Some(FileFault::Figures { place: 15 })),
    (&[(25, 65)], Some(FileFault::Figures { place: 15 })),
    (&[(26, 1)], Some(FileFault::Figures { place: 15 })),
    // starts 2, 3, 256
    (&[(27, 2)], None),
    (&[(27, 3)], Some(FileFault::Figures { place: 15 })),
    (&[(28, 1)], Some(FileFault::Figures { place: 15 })),
    // states 2, 4, 128 and letters 1, 3, 64 that the distances do not fit
    (&[(23, 2)], Some(FileFault::Distance { place: 15 })),
    (&[(23, 4)], Some(FileFault::Distance { place: 15 })),
    (&[(23, 128)], Some(FileFault::Distance { place: 15 })),
    (&[(25, 1)], Some(FileFault::Distance { place: 15 })),
    (&[(25, 64)], Some(FileFault::Distance { place: 15 })),
    // distances one off, and far too large
    (&[(15, 14)], Some(FileFault::Distance { place: 15 })),
    (&[(15, 16)], Some(FileFault::Distance { place: 15 })),
    (&[(18, 1)], Some(FileFault::Distance { place: 15 })),
    (&[(19, 2)], Some(FileFault::Distance { place: 15 })),
    (&[(19, 4)], Some(FileFault::Distance { place: 15 })),
    (&[(22, 1)], Some(FileFault::Distance { place: 15 })),
    // several at once
    (&[(29, 3), (23, 0)], Some(FileFault::Kind { place: 15 })),
    (
        &[(25, 65), (15, 14)],
        Some(FileFault::Figures { place: 15 }),
    ),
];

#[test]
fn dense_trailers(rt: HostRuntime) -> Result<(), Fail> {
    assert_faults::<YesNo>(&rt, DENSE, &DENSE_TRAILERS)
}

const EDGES_TRAILERS: [(Changes, Option<FileFault>); 24] = [
    // kinds 0 and 3, a dense table by its kind alone, versions 0 and 2
    (&[(41, 0)], Some(FileFault::Kind { place: 27 })),
    (&[(41, 3)], Some(FileFault::Kind { place: 27 })),
    (&[(41, 1)], Some(FileFault::Distance { place: 27 })),
    (&[(42, 0)], Some(FileFault::Kind { place: 27 })),
    (&[(42, 2)], Some(FileFault::Kind { place: 27 })),
    // states 0, 129; letters 0, 64, 65
    (&[(35, 0)], Some(FileFault::Figures { place: 27 })),
    (&[(35, 129)], Some(FileFault::Figures { place: 27 })),
    (&[(37, 0)], Some(FileFault::Figures { place: 27 })),
    (&[(37, 64)], None),
    (&[(37, 65)], Some(FileFault::Figures { place: 27 })),
    // starts 2, 3
    (&[(39, 2)], None),
    (&[(39, 3)], Some(FileFault::Figures { place: 27 })),
    // states 2, 128 that the distance does not fit
    (&[(35, 2)], Some(FileFault::Distance { place: 27 })),
    (&[(35, 128)], Some(FileFault::Distance { place: 27 })),
    // distances one off, below the verdicts', and one edge too long for the file
    (&[(27, 26)], Some(FileFault::Distance { place: 27 })),
    (&[(27, 28)], Some(FileFault::Distance { place: 27 })),
    (&[(27, 0)], Some(FileFault::Distance { place: 27 })),
    (&[(27, 33)], Some(FileFault::Distance { place: 27 })),
    (&[(31, 2)], Some(FileFault::Distance { place: 27 })),
    (&[(31, 4)], Some(FileFault::Distance { place: 27 })),
    // no edges, three edges: the bytes in front are notes
    (&[(27, 3)], None),
    (&[(27, 21)], None),
    // several at once
    (&[(42, 0), (35, 0)], Some(FileFault::Kind { place: 27 })),
    (&[(39, 3), (31, 4)], Some(FileFault::Figures { place: 27 })),
];

#[test]
fn edges_trailers(rt: HostRuntime) -> Result<(), Fail> {
    assert_faults::<YesNo>(&rt, EDGES, &EDGES_TRAILERS)
}

// 128 states and 64 letters pass; one more of either does not.
#[test]
fn largest(rt: HostRuntime) -> Result<(), Fail> {
    for (kind, length) in [(Kind::Dense, 16528), (Kind::Edges, 49296)] {
        let file = full_file(rt.alloc(), kind, 128, 64)?;
        assert_eq!(rt; file.len(), length);
        assert_eq!(rt; check::<YesNo>(&file, Some(kind)).err(), None);
        for (states, letters) in [(129, 64), (128, 65)] {
            let file = full_file(rt.alloc(), kind, states, letters)?;
            let place = file.len().wrapping_sub(16);
            assert_eq!(rt;
                check::<YesNo>(&file, None).err(),
                Some(FileFault::Figures { place })
            );
        }
    }
    Ok(())
}

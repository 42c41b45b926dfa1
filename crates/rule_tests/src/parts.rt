// Entries and verdict bytes: what passes, and refusals 5 and 6 at the first that is wrong.
use crate::drafts::*;
use automata::release::Release;
use automata::yes_no::YesNo;
use rulecheck::check::check;
use ruleformat::fault::FileFault;
use std::test::Fail;

#[test]
fn third_byte(rt: HostRuntime) -> Result<(), Fail> {
    let file = changed(rt.alloc(), &[], DENSE, &[(2, 3)])?;
    let fault = check::<YesNo>(&file, None)
        .err()
        .ok_or("a wrong file passed")?;
    assert_eq!(rt;
        format!(in rt.alloc(); "{fault}")?.as_str(),
        "refused 5 at 2"
    );
    Ok(())
}

const DENSE_PARTS: [(Changes, Option<FileFault>); 15] = [
    // targets 2, 3, 256, 65535: the first, one between, the last, the first of two
    (&[(0, 2)], None),
    (&[(0, 3)], Some(FileFault::Entry { place: 0 })),
    (&[(2, 3)], Some(FileFault::Entry { place: 2 })),
    (&[(5, 1)], Some(FileFault::Entry { place: 4 })),
    (
        &[(6, 255), (7, 255), (8, 3)],
        Some(FileFault::Entry { place: 6 }),
    ),
    (&[(10, 3)], Some(FileFault::Entry { place: 10 })),
    // verdict bytes: the first, the middle, the last, the first of two
    (&[(12, 0), (13, 0), (14, 1)], None),
    (&[(12, 2)], Some(FileFault::Verdict { place: 12 })),
    (&[(13, 2)], Some(FileFault::Verdict { place: 13 })),
    (&[(14, 2)], Some(FileFault::Verdict { place: 14 })),
    (
        &[(13, 255), (14, 2)],
        Some(FileFault::Verdict { place: 13 }),
    ),
    // several at once
    (&[(10, 3), (12, 2)], Some(FileFault::Entry { place: 10 })),
    (&[(15, 14), (0, 3)], Some(FileFault::Distance { place: 15 })),
    (&[(19, 4), (14, 2)], Some(FileFault::Distance { place: 15 })),
    (
        &[(29, 0), (0, 3), (14, 2)],
        Some(FileFault::Kind { place: 15 }),
    ),
];

#[test]
fn dense_parts(rt: HostRuntime) -> Result<(), Fail> {
    assert_faults::<YesNo>(&rt, DENSE, &DENSE_PARTS)
}

const EDGES_PARTS: [(Changes, Option<FileFault>); 13] = [
    // an edge's state 2, 3 and 256, its target 2, 3 and 256
    (&[(18, 2)], None),
    (&[(18, 3)], Some(FileFault::Entry { place: 18 })),
    (&[(1, 1)], Some(FileFault::Entry { place: 0 })),
    (&[(4, 2)], None),
    (&[(4, 3)], Some(FileFault::Entry { place: 0 })),
    (&[(17, 1)], Some(FileFault::Entry { place: 12 })),
    // letters 63 and 64, of 64
    (&[(37, 64), (21, 63)], None),
    (&[(37, 64), (21, 64)], Some(FileFault::Entry { place: 18 })),
    // verdict bytes
    (&[(24, 2)], Some(FileFault::Verdict { place: 24 })),
    (&[(25, 4)], Some(FileFault::Verdict { place: 25 })),
    (&[(26, 2)], Some(FileFault::Verdict { place: 26 })),
    // several at once
    (&[(8, 0), (24, 2)], Some(FileFault::Entry { place: 6 })),
    (&[(27, 26), (8, 0)], Some(FileFault::Distance { place: 27 })),
];

#[test]
fn edges_parts(rt: HostRuntime) -> Result<(), Fail> {
    assert_faults::<YesNo>(&rt, EDGES, &EDGES_PARTS)
}

// A byte with remainder 3 by 4 is no release; the others are.
const RELEASES: [(Changes, Option<FileFault>); 5] = [
    (&[(12, 0), (13, 254), (14, 253)], None),
    (&[(12, 252), (13, 2)], None),
    (&[(12, 3)], Some(FileFault::Verdict { place: 12 })),
    (
        &[(12, 254), (13, 255), (14, 7)],
        Some(FileFault::Verdict { place: 13 }),
    ),
    (&[(14, 251)], Some(FileFault::Verdict { place: 14 })),
];

#[test]
fn release_bytes(rt: HostRuntime) -> Result<(), Fail> {
    assert_faults::<Release>(&rt, DENSE, &RELEASES)
}

// Edge lists of 3 states and 4 letters, each with the number of its first wrong edge.
const WRONG: [(&[[u8; 4]], usize); 17] = [
    // a state, a target, a letter too large; a last letter below the first
    (&[[3, 0, 0, 0]], 0),
    (&[[0, 0, 0, 3]], 0),
    (&[[0, 0, 4, 0]], 0),
    (&[[0, 4, 4, 0]], 0),
    (&[[0, 0, 255, 0]], 0),
    (&[[0, 1, 0, 0]], 0),
    // overlapping, equal, falling letters
    (&[[0, 0, 1, 1], [0, 1, 2, 2]], 1),
    (&[[0, 0, 3, 1], [0, 3, 3, 1]], 1),
    (&[[0, 1, 1, 1], [0, 1, 1, 1]], 1),
    (&[[0, 2, 2, 1], [0, 0, 0, 1]], 1),
    (&[[0, 0, 0, 1], [1, 1, 2, 0], [1, 0, 0, 1]], 2),
    // falling states
    (&[[1, 0, 0, 0], [0, 1, 1, 0]], 1),
    (&[[0, 0, 3, 1], [2, 0, 0, 0], [1, 1, 3, 2]], 2),
    // a later edge alone, and the first of two
    (&[[0, 0, 0, 1], [0, 1, 1, 2], [1, 0, 0, 0], [1, 1, 4, 2]], 3),
    (&[[0, 0, 0, 1], [1, 0, 0, 2], [2, 0, 0, 3]], 2),
    (&[[0, 0, 0, 1], [1, 0, 0, 3], [5, 0, 0, 0]], 1),
    (&[[0, 0, 0, 1], [3, 0, 0, 2], [1, 0, 0, 3]], 1),
];

#[test]
fn wrong_edges(rt: HostRuntime) -> Result<(), Fail> {
    for (case, (edges, wrong)) in WRONG.iter().enumerate() {
        let file = edge_file(rt.alloc(), edges)?;
        let place = wrong.wrapping_mul(6);
        assert_fault::<YesNo>(&rt, &file, &[], Some(FileFault::Entry { place }), case)?;
    }
    Ok(())
}

// What the automata answer that are made from files.
use crate::drafts::*;
use automata::automaton::Automaton;
use automata::release::Release;
use automata::verdict::Verdict;
use automata::yes_no::YesNo;
use rulefile::dense::DenseTable;
use rulefile::edges::EdgeList;
use rulefile::rule_file::RuleFile;
use ruleformat::format::Kind;
use std::process::Abort;
use std::test::Fail;

/// What an automaton is to mean: a start, a number of letters, and for each state its targets and its verdict's byte.
#[derive(Clone, Copy)]
struct Table<'a> {
    start: usize,
    letters: usize,
    rows: &'a [(&'a [usize], u8)],
}

const WORKED: Table<'static> = Table {
    start: 0,
    letters: 2,
    rows: &[(&[1, 2], 1), (&[0, 2], 1), (&[2, 2], 0)],
};

const CLOSED: Table<'static> = Table {
    start: 0,
    letters: 1,
    rows: &[(&[0], 0)],
};

// The state's targets and verdict are those, and the letters beyond lead to 0.
fn has_row<A: Automaton>(rule: &A, state: usize, targets: &[usize], says: u8) -> bool {
    rule.verdict(state).byte() == says
        && targets
            .iter()
            .enumerate()
            .all(|(letter, target)| rule.next(state, letter) == *target)
        && [targets.len(), 64, 256, usize::MAX]
            .iter()
            .all(|letter| rule.next(state, *letter) == 0)
}

// The automaton answers by the table, and for states beyond it with 0 and the closing verdict.
fn means<A: Automaton>(rule: &A, table: Table<'_>) -> bool {
    let states = table.rows.len();
    (rule.states(), rule.letters(), rule.start()) == (states, table.letters, table.start)
        && table.rows.iter().enumerate().all(|(state, (targets, says))| {
            targets.len() == table.letters && has_row(rule, state, targets, *says)
        })
        && [states, 128, 65536, usize::MAX].iter().all(|s| {
            rule.next(*s, 0) == 0 && rule.verdict(*s).same(&A::V::closing())
        })
}

// The file is of that kind and means that table, also for a reader of its kind alone, and is closed for a reader of the
// other kind.
fn file_means<V: Verdict>(kind: Kind, file: &[u8], table: Table<'_>) -> bool {
    let either = RuleFile::<V>::make(file);
    let (dense, edges) = match kind {
        Kind::Dense => (table, CLOSED),
        Kind::Edges => (CLOSED, table),
    };
    either.kind() == kind
        && means(&either, table)
        && means(&DenseTable::<V>::make(file), dense)
        && means(&EdgeList::<V>::make(file), edges)
}

// Both worked files mean the worked rule. Notes never matter, even if they are a file themselves.
#[test]
fn worked_files(rt: HostRuntime) -> Result<(), Fail> {
    let notes: [&[u8]; 4] = [&[], &NOTES, DENSE, EDGES];
    for notes in notes {
        let dense = changed(rt.alloc(), notes, DENSE, &[])?;
        assert!(rt; file_means::<YesNo>(Kind::Dense, &dense, WORKED));
        let edges = changed(rt.alloc(), notes, EDGES, &[])?;
        assert!(rt; file_means::<YesNo>(Kind::Edges, &edges, WORKED));
    }
    Ok(())
}

// Ranges of letters, letters that are not listed, and a state without edges.
const RANGES: Table<'static> = Table {
    start: 0,
    letters: 4,
    rows: &[(&[1, 1, 0, 2], 1), (&[1, 1, 1, 1], 1), (&[2, 0, 0, 2], 0)],
};

#[test]
fn ranges(rt: HostRuntime) -> Result<(), Fail> {
    let file = edge_file(rt.alloc(), &[[0, 0, 1, 1], [0, 3, 3, 2], [2, 1, 2, 0]])?;
    assert!(rt; file_means::<YesNo>(Kind::Edges, &file, RANGES));
    Ok(())
}

// Another start and verdicts with reasons, in a dense file, and in an edge list with no edges.
const RELEASES: Table<'static> = Table {
    start: 2,
    letters: 2,
    rows: &[(&[1, 2], 6), (&[0, 2], 254), (&[2, 2], 253)],
};

const STAYS: Table<'static> = Table {
    start: 2,
    letters: 2,
    rows: &[(&[0, 0], 6), (&[1, 1], 254), (&[2, 2], 253)],
};

#[test]
fn releases(rt: HostRuntime) -> Result<(), Fail> {
    let dense = changed(
        rt.alloc(),
        &[],
        DENSE,
        &[(12, 6), (13, 254), (14, 253), (27, 2)],
    )?;
    assert!(rt; file_means::<Release>(Kind::Dense, &dense, RELEASES));
    let edges = changed(
        rt.alloc(),
        &[],
        EDGES,
        &[(24, 6), (25, 254), (26, 253), (39, 2), (27, 3)],
    )?;
    assert!(rt; file_means::<Release>(Kind::Edges, &edges, STAYS));
    Ok(())
}

// A change for each refusal's number from 2 to 6, to the dense file and to the edge list.
const DENSE_FAULTS: [(usize, u8); 5] = [(30, 0), (27, 3), (19, 2), (10, 3), (14, 3)];

const EDGES_FAULTS: [(usize, u8); 5] = [(41, 3), (37, 65), (27, 26), (8, 0), (25, 255)];

// With each of the changes the file is the closed rule for every reader.
fn closed(
    rt: &(impl Abort + AllocGlobal),
    file: &[u8],
    changes: &[(usize, u8)],
) -> Result<(), Fail> {
    for change in changes {
        let bytes = changed(rt.alloc(), &NOTES, file, &[*change])?;
        assert!(rt;
            file_means::<YesNo>(Kind::Dense, &bytes, CLOSED),
            "{change:?}"
        );
        assert!(rt;
            file_means::<Release>(Kind::Dense, &bytes, CLOSED),
            "{change:?}"
        );
    }
    Ok(())
}

#[test]
fn refused_is_closed(rt: HostRuntime) -> Result<(), Fail> {
    assert!(rt; file_means::<YesNo>(Kind::Dense, &[1; 15], CLOSED));
    closed(&rt, DENSE, &DENSE_FAULTS)?;
    closed(&rt, EDGES, &EDGES_FAULTS)
}

// The answers to a file of 128 states and 64 letters.
fn full<A: Automaton>(rule: &A) -> bool {
    rule.states() == 128
        && rule.letters() == 64
        && rule.next(128, 0) == 0
        && rule.next(127, 64) == 0
        && (0..128).all(|s| {
            rule.verdict(s).byte() as usize == s % 2
                && (0..64).all(|a| rule.next(s, a) == s.wrapping_add(a) % 128)
        })
}

// 64 edges of one letter each in every state, and the same as a dense table.
#[test]
fn largest(rt: HostRuntime) -> Result<(), Fail> {
    let dense = full_file(rt.alloc(), Kind::Dense, 128, 64)?;
    assert!(rt; full(&DenseTable::<YesNo>::make(&dense)));
    let edges = full_file(rt.alloc(), Kind::Edges, 128, 64)?;
    assert!(rt; full(&EdgeList::<YesNo>::make(&edges)) && full(&RuleFile::<YesNo>::make(&edges)));
    Ok(())
}

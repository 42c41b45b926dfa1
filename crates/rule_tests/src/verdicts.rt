// The laws of both verdict types, tried at every byte.
use automata::release::{Decision, Release};
use automata::verdict::Verdict;
use automata::yes_no::YesNo;
use std::alloc::AllocError;
use std::process::Abort;
use std::test::Fail;

// Each byte that is read as a verdict is that verdict's byte, and two verdicts are the same exactly if their bytes are
// equal: so sameness is reflexive, symmetric and transitive. Answers how many bytes are verdicts.
fn tried<V: Verdict>(rt: &(impl Abort + AllocGlobal)) -> Result<usize, AllocError> {
    let verdicts = (0..=255u8)
        .filter_map(|b| V::read(b).map(|v| (b, v)))
        .collect::<Vec<(u8, V)>>(rt.alloc())?;
    for (b, v) in &verdicts {
        assert_eq!(rt; v.byte(), *b);
        for (c, w) in &verdicts {
            assert_eq!(rt; v.same(w), b == c);
        }
    }
    Ok(verdicts.len())
}

#[test]
fn yes_no(rt: HostRuntime) -> Result<(), Fail> {
    assert_eq!(rt; tried::<YesNo>(&rt)?, 2);
    assert_eq!(rt; YesNo::read(0), Some(YesNo::No));
    assert_eq!(rt; YesNo::read(1), Some(YesNo::Yes));
    assert_eq!(rt; YesNo::closing(), YesNo::No);
    assert_eq!(rt;
        format!(in rt.alloc(); "{} {}", YesNo::No, YesNo::Yes)?.as_str(),
        "no yes"
    );
    Ok(())
}

// 3 of 4 bytes are verdicts.
#[test]
fn release(rt: HostRuntime) -> Result<(), Fail> {
    assert_eq!(rt; tried::<Release>(&rt)?, 192);
    assert_eq!(rt; Release::closing().byte(), 0);
    for b in 0..=255u8 {
        match Release::read(b) {
            Some(v) => assert_eq!(rt; (v.reason, v.decision as u8), (b / 4, b % 4)),
            None => assert_eq!(rt; b % 4, 3),
        }
    }
    Ok(())
}

#[test]
fn release_made(rt: HostRuntime) -> Result<(), Fail> {
    let last = Release::new(Decision::Cut, 63).ok_or("63 is a reason")?;
    assert_eq!(rt; last.byte(), 254);
    assert_eq!(rt; (last.decision, last.reason), (Decision::Cut, 63));
    assert!(rt; Release::new(Decision::Refuse, 64).is_none());
    Ok(())
}

// Words followed through the worked rule, and numbers that are no letters.
use crate::drafts::DENSE;
use automata::closed::ClosedRule;
use automata::words::{NoLetter, follow_word, word_verdict};
use automata::yes_no::YesNo;
use rulefile::dense::DenseTable;
use std::test::Fail;

// Words with the state where they end and their verdict.
const WORDS: [(&[u8], usize, YesNo); 6] = [
    (&[], 0, YesNo::Yes),
    (&[0], 1, YesNo::Yes),
    (&[0, 0], 0, YesNo::Yes),
    (&[1], 2, YesNo::No),
    (&[0, 1, 0], 2, YesNo::No),
    (&[0, 0, 0, 0, 0, 0, 0], 1, YesNo::Yes),
];

#[test]
fn followed(rt: HostRuntime) -> Result<(), Fail> {
    let rule = DenseTable::<YesNo>::make(DENSE);
    for (word, state, says) in WORDS {
        assert_eq!(rt; follow_word(&rule, word)?, state);
        assert_eq!(rt; word_verdict(&rule, word)?, says);
    }
    Ok(())
}

// Lists with the first number that is no letter, by its index.
const FOREIGN: [(&[u8], usize, u8); 3] = [
    (&[2], 0, 2),
    (&[0, 2, 1], 1, 2),
    (&[1, 1, 255, 2], 2, 255),
];

#[test]
fn no_letters(rt: HostRuntime) {
    let rule = DenseTable::<YesNo>::make(DENSE);
    for (word, index, letter) in FOREIGN {
        assert_eq!(rt; word_verdict(&rule, word), Err(NoLetter { index, letter }));
    }
}

#[test]
fn closed_rule(rt: HostRuntime) -> Result<(), Fail> {
    let rule = ClosedRule::<YesNo>::new();
    assert_eq!(rt; word_verdict(&rule, &[0, 0])?, YesNo::No);
    assert_eq!(rt;
        word_verdict(&rule, &[0, 1]),
        Err(NoLetter {
            index: 1,
            letter: 1,
        })
    );
    Ok(())
}

use crate::failure::Failure;
use automata::automaton::Automaton;
use automata::yes_no::YesNo;
use histories::step::next_report;
use histories::tally::Tally;
use std::io::{BufRead, BufReader, BufWriter, Write};

/// Follows each line of the standard input, and prints a report of each, and the tally at the end.
pub(crate) fn follow_input<A: Automaton<V = YesNo>>(
    rt: &HostRuntime,
    rule: &A,
) -> Result<(), Failure> {
    let mut out = BufWriter::new(rt.alloc(), rt.stdout())?;
    let mut tally = Tally::new();
    for line in BufReader::new(rt.alloc(), rt.stdin())?.split(rt.alloc(), b'\n') {
        let line = line?;
        let report = next_report(rt.alloc(), rule, &line, &mut tally)?;
        writeln!(out, "{report}")?;
    }
    writeln!(out, "{tally}")?;
    out.flush()?;
    Ok(())
}

use crate::failure::Failure;
use crate::heading::Heading;
use crate::session::follow_input;
use automata::yes_no::YesNo;
use rulefile::good_file::GoodFile;
use rulefile::rule_file::RuleFile;
use std::{env, fs};

/// The one argument: the path of the rule file.
fn rule_path(rt: &HostRuntime) -> Result<String, Failure> {
    let mut args = env::args(rt)?.skip(1);
    match (args.next(), args.next()) {
        (Some(path), None) => Ok(path),
        _ => Err(Failure::Call),
    }
}

/// Checks the rule file and follows each line of the standard input through it.
pub(crate) fn run(rt: &HostRuntime) -> Result<(), Failure> {
    let path = rule_path(rt)?;
    let file = fs::read(rt, path.as_str()).map_err(|error| Failure::File { path, error })?;
    let good = GoodFile::read::<YesNo>(&file, None)?;
    println!(rt; "{}", Heading(good.header))?;
    follow_input(rt, &RuleFile::<YesNo>::from(good))
}

use histories::step::StepFault;
use ruleformat::fault::FileFault;
use std::io;
use thiserror::Error;

const USAGE: &str = "usage: follow RULEFILE, with one history a line on the standard input";

/// Why the program ends with status 1.
#[derive(Debug, Drop, Error)]
pub(crate) enum Failure {
    /// It was not called with one rule file.
    #[error("{USAGE}")]
    Call,
    /// The rule file cannot be read.
    #[error("{path}: {error}\n{USAGE}")]
    File { path: String, error: io::Error },
    /// The rule file is refused.
    #[error(transparent)]
    Refused(#[from] FileFault),
    /// A line is left out.
    #[error(transparent)]
    LeftOut(#[from] StepFault),
    /// Reading or writing failed later.
    #[error(transparent)]
    Broken(#[from] io::Error),
}

impl Failure {
    /// Tells why the program ends: a refusal on the standard output, all else on the standard error.
    pub(crate) fn tell(&self, rt: &HostRuntime) {
        let _ = match self {
            Failure::Refused(fault) => println!(rt; "{fault}"),
            _ => eprintln!(rt; "{self}"),
        };
    }
}

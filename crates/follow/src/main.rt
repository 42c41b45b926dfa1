//! follow RULEFILE: follows the histories on the standard input, one a line, through a rule file.
#![tactic(auto)]

mod failure;
mod heading;
mod program;
mod session;

use std::process::ExitCode;

fn main(rt: HostRuntime) -> ExitCode {
    match program::run(&rt) {
        Ok(()) => ExitCode::SUCCESS,
        Err(failure) => {
            failure.tell(&rt);
            ExitCode::FAILURE
        }
    }
}

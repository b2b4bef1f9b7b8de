//! Random commands to sessions over files (`runs`), and after the word `memory` a script over each where memory is refused (`memory`).
//! Test equipment.
#![tactic(auto)]

mod memory;
mod runs;

use crate::runs::try_files;
use std::process::ExitCode;

fn main(rt: HostRuntime) -> ExitCode {
    match try_files(&rt) {
        Ok(()) => ExitCode::SUCCESS,
        Err(stop) => {
            let _ = eprintln!(rt; "session_tests: {:?}", stop);
            ExitCode::FAILURE
        }
    }
}

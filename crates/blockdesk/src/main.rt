//! The program `blockdesk`. It calls `run` of `desk_program` with the words after its name, the folder, standard output, the
//! journal and a count of steps. It ends with the status of `run`.
#![tactic(auto)]

mod outer;
mod start;

use desk_program::status_line;
use std::marker::Brand;
use std::process::ExitCode;
use std::sync::ledger::Blank;

fn main(rt: HostRuntime) -> ExitCode {
    let status = start::start::<Brand>(&rt, Blank::new(1));
    if let Some(line) = status_line(status) {
        // Where standard error cannot be written either, the status alone tells.
        let _ = eprintln!(rt; "{line}");
    }
    ExitCode::from(status)
}

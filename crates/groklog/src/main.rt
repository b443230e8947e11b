//! Reads logs with grok patterns, and writes what they find.
//!
//! Where a call has no section `# Errors`, its error is a failed allocation.
#![tactic(auto)]

mod hints;
mod inputs;
mod notes;
mod output;
mod page;
mod plans;
mod run;
mod show;
mod summary;
mod tasks;
mod terminal;
mod why;

use crate::inputs::RunOutcome;
use groklog_options::{is_answer, read_options, usage_fault};
use groklog_reports::{Report, RunFault};
use std::env;
use std::io::ErrorKind;
use std::process::ExitCode;
use std::rt::Env;

/// The exit status of a run in which a file couldn't be read.
const UNREAD: u8 = 3;

/// The exit status of a run that found nothing, if `--exit-status` asks for it.
const NOTHING_FOUND: u8 = 4;

/// Reads the words of the command line. The first one is the name of the program.
fn read_words(rt: &(impl Env + AllocGlobal)) -> Result<Vec<String>, RunFault> {
    match env::args(rt) {
        Ok(words) => Ok(words.collect(rt.alloc())?),
        // own error: the words could not be read because an allocation failed.
        Err(error) if error.kind() == ErrorKind::OutOfMemory => Err(RunFault::Memory),
        Err(_) => Err(RunFault::Usage(Report::new(
            rt.alloc(),
            "a word of the command line isn't UTF-8",
            "write patterns in UTF-8, and let standard input read a file with such a name: groklog PATTERN <FILE",
        )?)),
    }
}

/// Runs the program with the words of its command line.
fn work(rt: &HostRuntime) -> Result<RunOutcome, RunFault> {
    let words = read_words(rt)?;
    match read_options(rt.alloc(), words.as_slice()) {
        Ok(options) => run::run(rt, &options),
        Err(error) if is_answer(&error) => {
            let text = error.to_string(rt.alloc())?;
            output::write_output(rt, text.as_str())?;
            Ok(RunOutcome::AllRead)
        }
        Err(error) => Err(usage_fault(rt.alloc(), &error)?),
    }
}

fn main(rt: HostRuntime) -> ExitCode {
    match work(&rt) {
        Ok(RunOutcome::AllRead) => ExitCode::SUCCESS,
        Ok(RunOutcome::NothingFound) => ExitCode::from(NOTHING_FOUND),
        Ok(RunOutcome::SomeUnread) => ExitCode::from(UNREAD),
        Err(fault) => {
            // If writing to standard error fails too, there is nothing left to do.
            let _ = eprint!(rt; "{fault}");
            ExitCode::from(fault.status())
        }
    }
}

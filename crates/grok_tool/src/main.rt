//! Splits, measures and matches patterns from the command line.
#![tactic(auto)]

pub use grok_commands::{ToolFault, run};
use std::io::ErrorKind;
use std::process::ExitCode;
use std::{env, io};

/// Returns the fault that reports why the words of the command line can't be read: `Memory` if an allocation failed,
/// and otherwise `Usage`, since a word isn't UTF-8.
fn words_fault(error: io::Error) -> ToolFault {
    if error.kind() == ErrorKind::OutOfMemory {
        // own error: the words of the command line could not be read because an allocation failed.
        ToolFault::Memory
    } else {
        ToolFault::Usage
    }
}

/// Runs the words of the command line on standard input and standard output.
fn work(rt: &HostRuntime) -> Result<(), ToolFault> {
    let alloc = rt.alloc();
    let mut arguments: Vec<String> = Vec::new(alloc);
    for argument in env::args(rt).map_err(words_fault)?.skip(1) {
        arguments.push(argument)?;
    }
    let mut words: Vec<&str> = Vec::new(alloc);
    for argument in &arguments {
        words.push(argument.as_str())?;
    }
    run(alloc, &words, &mut rt.stdin(), &mut io::writer(rt))
}

fn main(rt: HostRuntime) -> ExitCode {
    match work(&rt) {
        Ok(()) => ExitCode::SUCCESS,
        Err(fault) => {
            // If writing to standard error fails too, there is nothing left to do.
            let _ = eprintln!(rt; "{fault}");
            match fault {
                ToolFault::Pattern(_) => ExitCode::from(1),
                ToolFault::Usage => ExitCode::from(2),
                _ => ExitCode::from(3),
            }
        }
    }
}

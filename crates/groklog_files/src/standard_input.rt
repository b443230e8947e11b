//! Standard input, also where its reads don't wait for data.

use std::fs::File;
use std::io::{self, ErrorKind, Read, Stdin};
use std::rt::Files;

/// The files that are read if none is named: standard input.
pub const STANDARD_INPUT: &[&str] = &["-"];

/// The link to the open file of standard input on Linux.
pub(crate) const INPUT: &str = "/proc/self/fd/0";

/// Returns what messages call the file `name`.
pub fn shown_name(name: &str) -> &str {
    if name == "-" { "standard input" } else { name }
}

/// Standard input. Another program that shares it may have set it so that a read fails that would have to wait
/// for data. Then it is opened once more by its link, which gives a file of its own whose reads wait. A pipe or a
/// terminal has the same data there.
#[derive(Drop)]
pub struct StandardInput<'a, R: Files> {
    rt: &'a R,
    given: Stdin,
    opened: Option<R::File>,
}

impl<'a, R: Files> StandardInput<'a, R> {
    /// Takes standard input, `given`.
    pub fn new(rt: &'a R, given: Stdin) -> StandardInput<'a, R> {
        StandardInput {
            rt,
            given,
            opened: None,
        }
    }
}

impl<R: Files> Read for StandardInput<'_, R> {
    fn read(&mut self, buf: &mut [u8]) -> io::Result<usize> {
        if let Some(file) = &mut self.opened {
            return file.read(buf);
        }
        let error = match self.given.read(buf) {
            Err(error) if error.kind() == ErrorKind::WouldBlock => error,
            outcome => return outcome,
        };
        let Ok(mut file) = File::open(self.rt, INPUT) else {
            return Err(error);
        };
        let outcome = file.read(buf);
        self.opened = Some(file);
        outcome
    }
}

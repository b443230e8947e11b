//! Writes to standard output and to standard error.

use groklog_reports::{RunFault, visible, write_fault};
use std::alloc::AllocError;
use std::cell::Cell;
use std::io::{self, Write};

/// Writes a note to standard error. The run goes on if that fails.
pub fn show_note(rt: &(impl Eprint + AllocGlobal), note: &str) -> Result<(), AllocError> {
    let note = visible(rt.alloc(), note)?;
    let _ = eprintln!(rt; "groklog: {note}");
    Ok(())
}

/// Writes these notes to standard error.
pub fn show_notes(rt: &(impl Eprint + AllocGlobal), notes: &[String]) -> Result<(), AllocError> {
    for note in notes {
        show_note(rt, note.as_str())?;
    }
    Ok(())
}

/// Writes a text to standard output.
///
/// # Errors
///
/// If the output fails. A closed pipe is no error.
pub fn write_output(rt: &(impl Print + AllocGlobal), text: &str) -> Result<(), RunFault> {
    write_bytes(rt, text.as_bytes())
}

/// Writes bytes to standard output.
///
/// # Errors
///
/// If the output fails. A closed pipe is no error.
pub fn write_bytes(rt: &(impl Print + AllocGlobal), bytes: &[u8]) -> Result<(), RunFault> {
    let mut output = io::writer(rt);
    if let Err(error) = output.write_all(bytes)
        && let Some(fault) = write_fault(rt.alloc(), &error)?
    {
        return Err(fault);
    }
    Ok(())
}

/// Standard output of a run. It holds back texts that aren't answers, until it is flushed, as `grok_lines` does before it
/// waits for more lines.
#[derive(Drop)]
pub struct Outlet<'r> {
    pub rt: &'r HostRuntime,
    held: Cell<Vec<u8>>,
}

impl<'r> Outlet<'r> {
    /// Makes the output of a run, which holds nothing yet.
    pub fn new(rt: &'r HostRuntime) -> Outlet<'r> {
        Outlet {
            rt,
            held: Cell::new(Vec::new(rt.alloc())),
        }
    }

    /// Holds back a text, which comes after those that are held already.
    pub fn hold(&self, text: &str) -> Result<(), AllocError> {
        let mut held = self.held.replace(Vec::new(self.rt.alloc()));
        let result = held.extend_from_slice(text.as_bytes());
        self.held.set(held);
        result
    }
}

impl Write for &Outlet<'_> {
    fn write(&mut self, buf: &[u8]) -> io::Result<usize> {
        io::writer(self.rt).write(buf)
    }

    fn flush(&mut self) -> io::Result<()> {
        let mut held = self.held.replace(Vec::new(self.rt.alloc()));
        let written = io::writer(self.rt).write_all(&held);
        held.clear();
        self.held.set(held);
        written
    }
}

//! Watches an input while it is read: remembers why a read failed, and shows a line of progress on
//! a terminal.
ghost use Rattle.std.specs.Prelude.{◌≡◌, OnOk, IfErr};
ghost use Rattle.std.specs.Io.{ReadsAtMost};
ghost use Rattle.std.specs.Io.KnownBytes.{ReadConsumes};
ghost use Rattle.groklog_reports.specs.Faults.{failure_of};

use groklog_reports::FileFailure;
use std::io::{self, Read};
use std::time::{Duration, Instant};

/// How many seconds pass before progress is first shown, and between two updates of it.
const WAIT_SECONDS: u64 = 1;

/// How far reading a file has come.
#[derive(Drop)]
struct Progress<'a> {
    rt: &'a HostRuntime,
    name: &'a str,
    /// The size of the file, in bytes.
    size: u64,
    begun: Instant,
    shown: Option<Instant>,
    bytes: u64,
    lines: u64,
}

/// An input that is watched while it is read.
#[derive(Drop)]
pub struct Watched<'a, R> {
    pub input: R,
    progress: Option<Progress<'a>>,
    /// The reason for which the last failed read failed.
    pub failure: Option<FileFailure>,
}

impl<'a> Progress<'a> {
    /// Counts the bytes and lines of a block that was read, and shows a line of progress once a
    /// second.
    fn count(&mut self, block: &[u8]) {
        self.bytes = self.bytes.saturating_add(block.len() as u64);
        let ended = block.iter().filter(|byte| **byte == b'\n').count();
        self.lines = self.lines.saturating_add(ended as u64);
        let Ok(now) = Instant::now(self.rt) else {
            return;
        };
        let last = self.shown.unwrap_or(self.begun);
        if now.duration_since(last).as_secs() >= WAIT_SECONDS {
            self.shown = Some(now);
            self.show(now.duration_since(self.begun));
        }
    }

    /// Writes a line of progress over the previous one.
    fn show(&self, passed: Duration) {
        let seconds = passed.as_secs().max(1);
        let rate = self.lines / seconds;
        // It doesn't matter if the line of progress can't be written.
        let _ = eprint!(self.rt;
            "\r\x1b[Kgroklog: {}: {} of {} MB, {rate} lines a second",
            self.name,
            self.bytes / 1_000_000,
            self.size / 1_000_000
        );
    }

    fn end(&self) {
        if self.shown.is_some() {
            let _ = eprint!(self.rt; "\r\x1b[K");
        }
    }
}

impl<'a, R> Watched<'a, R> {
    /// Watches an input without showing progress.
    pub fn new(input: R) -> Watched<'a, R>
        ensures { result.input ≡ input }
    {
        Watched {
            input,
            progress: None,
            failure: None,
        }
    }

    /// Returns the same input, which now also shows the progress of reading a file of this name and
    /// size in bytes.
    pub fn with_progress(mut self, rt: &'a HostRuntime, name: &'a str, size: u64) -> Watched<'a, R>
        ensures { result.input ≡ self.entry.input }
    {
        self.progress = match Instant::now(rt) {
            Ok(begun) => Some(Progress {
                rt,
                name,
                size,
                begun,
                shown: None,
                bytes: 0,
                lines: 0,
            }),
            Err(_) => None,
        };
        self
    }

    /// Clears the line of progress, and returns why the last read failed, if it did.
    pub fn finish(&self) -> Option<FileFailure>
        ensures { result ≡ self.now.failure }
    {
        if let Some(progress) = &self.progress {
            progress.end();
        }
        self.failure
    }
}

impl<'a, R: Read> Read for Watched<'a, R> {
    ghost remaining = { λ watched. R.remaining watched.input };

    fn read(&mut self, buf: &mut [u8]) -> io::Result<usize>
        ensures bound { ReadsAtMost result buf.new }
        ensures bytes { ReadConsumes (R.remaining self.old.input) (R.remaining self.new.input)
            result buf.new }
        ensures failed { IfErr result (λ error. self.new.failure ≡ Some (failure_of error)) }
        ensures kept { OnOk result (self.new.failure ≡ self.old.failure) }
    {
        match self.input.read(buf) {
            Ok(count) => {
                if let Some(progress) = &mut self.progress {
                    progress.count(buf.get(..count).unwrap_or(&[]));
                }
                Ok(count)
            }
            Err(error) => {
                self.failure = Some(FileFailure::of(&error));
                Err(error)
            }
        }
    }
}

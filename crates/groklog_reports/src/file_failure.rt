//! Why the system couldn't open, read or write a file, and the faults that report it.
ghost use Rattle.std.specs.Prelude.{◌≡◌, IfOk};
ghost use Rattle.std.specs.IoError.{error_kind, raw_os_error};
ghost use Rattle.groklog_reports.specs.Faults.{failure_of, IsFaultOfFile, IsFaultOfWrite};

use crate::fault::{Report, RunFault};
use std::alloc::{AllocError, Global};
use std::fmt;
use std::io::{self, ErrorKind};

/// Why the system refused to open, read or write a file.
#[derive(Clone, Copy, PartialEq, Eq, Debug)]
pub struct FileFailure {
    pub kind: ErrorKind,
    /// The system's number for the error, if it reported one.
    pub number: Option<i32>,
}

impl FileFailure {
    /// Returns the reason for this error of a call.
    pub fn of(error: &io::Error) -> FileFailure
        ensures { result ≡ failure_of error.now }
    {
        FileFailure {
            kind: error.kind(),
            number: error.raw_os_error(),
        }
    }
}

/// Returns the words for some of Linux's error numbers that have no `ErrorKind`.
fn words_of(number: i32) -> Option<&'static str> {
    match number {
        5 => Some("input/output error"),
        6 => Some("no such device or address"),
        9 => Some("bad file descriptor"),
        19 => Some("no such device"),
        23 => Some("too many open files in the system"),
        24 => Some("too many open files"),
        117 => Some("the file system is damaged"),
        _ => None,
    }
}

impl fmt::Display for FileFailure {
    fn fmt<W: fmt::Write>(&self, f: &mut fmt::Formatter<W>) -> fmt::Result {
        match (self.kind, self.number) {
            (ErrorKind::Uncategorized, Some(number)) => match words_of(number) {
                Some(words) => write!(f, "{words}"),
                None => write!(f, "system error {number}"),
            },
            (kind, _) => write!(f, "{kind}"),
        }
    }
}

fn advice_for_unreadable(kind: ErrorKind) -> &'static str {
    match kind {
        ErrorKind::IsADirectory => "name the files in it",
        ErrorKind::PermissionDenied => "check with ls -l who may read it",
        _ => "check whether cat can read it",
    }
}

/// Returns the fault that reports that a file can't be opened or read.
pub fn file_fault(alloc: Global, file: &str, failure: FileFailure) -> Result<RunFault, AllocError>
    ensures { IfOk result (IsFaultOfFile failure.kind) }
{
    let (what, advice) = match failure.kind {
        // own error: the file could not be read because an allocation failed.
        ErrorKind::OutOfMemory => return Ok(RunFault::Memory),
        ErrorKind::NotFound => (
            format!(in alloc; "there is no file {file}")?,
            "check its name, and the folder that you are in",
        ),
        ErrorKind::InvalidData => (format!(in alloc; "{file} isn't UTF-8")?, "save it as UTF-8"),
        kind => (
            format!(in alloc; "can't read {file}: {failure}")?,
            advice_for_unreadable(kind),
        ),
    };
    // own error: opening or reading the file failed, and no allocation did.
    Ok(RunFault::Read(Report::new(alloc, what.as_str(), advice)?))
}

/// Returns the fault that reports that the output can't be written, or `None` if its reader closed
/// the pipe.
pub fn write_fault(alloc: Global, error: &io::Error) -> Result<Option<RunFault>, AllocError>
    ensures { IfOk result (IsFaultOfWrite error.now) }
{
    if error.kind() == ErrorKind::BrokenPipe {
        return Ok(None);
    }
    let failure = FileFailure::of(error);
    // The error may have words of its own, but not if the system's number alone says what it is.
    let what = match failure.kind {
        ErrorKind::Uncategorized => format!(in alloc; "can't write the answers: {failure}")?,
        _ => format!(in alloc; "can't write the answers: {error}")?,
    };
    let advice = match failure.kind {
        ErrorKind::StorageFull | ErrorKind::QuotaExceeded => {
            "free some space, or write to another disk"
        }
        _ => "check where standard output goes",
    };
    // own error: the writer reported an error, and its reader didn't close the pipe.
    Ok(Some(RunFault::Write(Report::new(alloc, what.as_str(), advice)?)))
}

//! Why answering lines can fail.
ghost use Rattle.std.specs.Prelude.{◌≡◌};
ghost use Rattle.grok_lines.specs.Errors.{lines_error_text};
ghost use Rattle.grok_lines.specs.declared.error.LinesError.TheVariants.{Memory};

use std::alloc::{AllocError, AllocFailed};
use std::{fmt, io};
use thiserror::Error;

/// Why answering lines failed.
#[derive(Debug, Drop, Error)]
pub enum LinesError {
    /// An allocation failed.
    Memory,
    /// The input failed.
    Read,
    /// The output failed, for this reason.
    Write(io::Error),
}

impl fmt::Display for LinesError {
    ghost output = { lines_error_text };

    fn fmt<W: fmt::Write>(&self, f: &mut fmt::Formatter<W>) -> fmt::Result {
        match self {
            LinesError::Memory => write!(f, "Out of memory"),
            LinesError::Read => write!(f, "read failed"),
            LinesError::Write(error) => write!(f, "write failed: {error}"),
        }
    }
}

impl From<AllocError> for LinesError {
    ghost from_gives = { λ _ error. error ≡ Memory };

    fn from(_error: AllocError) -> LinesError {
        // own error: an allocation failed.
        LinesError::Memory
    }
}

impl<T: Drop> From<AllocFailed<T>> for LinesError {
    ghost from_gives = { λ _ error. error ≡ Memory };

    fn from(_error: AllocFailed<T>) -> LinesError {
        // own error: an allocation failed.
        LinesError::Memory
    }
}

//! Why a run ended early.
ghost use Rattle.std.specs.Prelude.{◌≡◌, Some};
ghost use Rattle.grok_commands.specs.Faults.{fault_text, fault_of_lines};
ghost use Rattle.grok_commands.specs.declared.fault.ToolFault.TheVariants.{Memory};

use crate::command::USAGE;
use grok_lines::LinesError;
use std::alloc::{AllocError, AllocFailed};
use std::fmt;
use thiserror::Error;

/// Why a run ended early.
#[derive(Debug, Drop, Error)]
pub enum ToolFault {
    /// The pattern has a fault, or the engine refused it.
    Pattern(grok::Error),
    /// The words are no command.
    Usage,
    /// An allocation failed.
    Memory,
    /// The input failed.
    Read,
    /// The output failed.
    Write,
}

impl fmt::Display for ToolFault {
    ghost output = { λ fault. Some (fault_text fault) };

    fn fmt<W: fmt::Write>(&self, f: &mut fmt::Formatter<W>) -> fmt::Result {
        match self {
            ToolFault::Pattern(error) => write!(f, "{error}"),
            ToolFault::Usage => write!(f, "{USAGE}"),
            ToolFault::Memory => write!(f, "Out of memory"),
            ToolFault::Read => write!(f, "read failed"),
            ToolFault::Write => write!(f, "write failed"),
        }
    }
}

impl From<AllocError> for ToolFault {
    ghost from_gives = { λ _ fault. fault ≡ Memory };

    fn from(_error: AllocError) -> ToolFault {
        // own error: an allocation failed.
        ToolFault::Memory
    }
}

impl<T: Drop> From<AllocFailed<T>> for ToolFault {
    ghost from_gives = { λ _ fault. fault ≡ Memory };

    fn from(_error: AllocFailed<T>) -> ToolFault {
        // own error: an allocation failed.
        ToolFault::Memory
    }
}

impl From<LinesError> for ToolFault {
    ghost from_gives = { λ error fault. fault ≡ fault_of_lines error };

    fn from(error: LinesError) -> ToolFault {
        match error {
            // own error: `grok_lines` reported that an allocation failed.
            LinesError::Memory => ToolFault::Memory,
            // own error: `grok_lines` reported that the input failed.
            LinesError::Read => ToolFault::Read,
            // own error: `grok_lines` reported that the output failed.
            LinesError::Write(_) => ToolFault::Write,
        }
    }
}

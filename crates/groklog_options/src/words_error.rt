//! Why words that clap takes give no options.

use clap::error::ErrorKind;
use clap::{Command, Error};
use std::alloc::{AllocError, AllocFailed, Global};

/// Why the words of the command line give no options, though clap takes them.
#[derive(Clone, Copy)]
pub enum WordsError {
    /// An allocation failed.
    Memory,
    /// This option is given without any of its partners, and it has an effect only with one of them.
    NoPartner {
        name: &'static str,
        partners: &'static [&'static str],
    },
    /// A pattern after `--named` has no name.
    NoName,
    /// There is no pattern, and the task needs one.
    NoPattern,
    /// The number of this option is 0.
    Zero {
        name: &'static str,
    },
    /// A key that this option names is empty.
    EmptyKey {
        name: &'static str,
    },
}

impl From<AllocError> for WordsError {
    fn from(_error: AllocError) -> WordsError {
        // own error: an allocation failed.
        WordsError::Memory
    }
}

impl<T: Drop> From<AllocFailed<T>> for WordsError {
    fn from(_error: AllocFailed<T>) -> WordsError {
        // own error: an allocation failed.
        WordsError::Memory
    }
}

/// Returns the report that an option has no effect without one of these others.
fn without_partner(alloc: Global, name: &str, partners: &[&str]) -> Result<String, AllocError> {
    let mut what = format!(in alloc; "--{name} has no effect without ")?;
    for (i, partner) in partners.iter().enumerate() {
        what.push_str(if i > 0 { " or --" } else { "--" })?;
        what.push_str(partner)?;
    }
    Ok(what)
}

/// Returns the error that a word of the command line is wrong.
fn wrong(command: &mut Command<'_>, why: &str) -> Result<Error, AllocError> {
    // own error: a word is wrong. This is clap's word for it, and no error of memory or of a device.
    command.error(ErrorKind::ValueValidation, why)
}

impl WordsError {
    /// Returns the error by which clap reports this.
    ///
    /// # Errors
    ///
    /// If an allocation fails, or has failed.
    pub fn clap_error(self, alloc: Global, command: &mut Command<'_>) -> Result<Error, AllocError> {
        match self {
            // own error: an allocation failed.
            WordsError::Memory => Err(AllocError),
            WordsError::NoPartner { name, partners } => {
                wrong(command, without_partner(alloc, name, partners)?.as_str())
            }
            WordsError::NoName => {
                let why = "--named has a pattern without a name: write NAME=PATTERN";
                wrong(command, why)
            }
            WordsError::NoPattern => wrong(command, "there is no pattern"),
            WordsError::Zero { name } => {
                let why = format!(in alloc; "--{name} has to be at least 1")?;
                wrong(command, why.as_str())
            }
            WordsError::EmptyKey { name } => {
                let why = format!(in alloc; "--{name} has an empty key")?;
                wrong(command, why.as_str())
            }
        }
    }
}

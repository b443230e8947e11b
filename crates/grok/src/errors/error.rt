//! The errors of compiling a pattern.
ghost use Rattle.std.specs.Prelude.{◌≡◌, IfOk, Some, string_bytes};
ghost use Rattle.grok.specs.Errors.{error_value, error_text};
ghost use Rattle.grok.specs.declared.errors.error.Error.TheVariants.{Memory};
ghost use Rattle.grok_parser.specs.Texts.{IsFaultText};
ghost use Rattle.grok.specs.Items.{fault_view};
ghost use Rattle.grok.specs.Keys.{Clash};
ghost use Rattle.grok.specs.Compiled.{IsFaultError, IsErrorOf, error_of_refusal};

use crate::engine::Refusal;
use crate::errors::fault::Fault;
use grok_parser::parser::GrokPatternError;
use std::alloc::{AllocError, AllocFailed, Global};
use std::{error, fmt};

/// Why a pattern was not compiled.
#[derive(Debug, Drop, PartialEq, Eq)]
pub enum Error {
    /// More than 1,023 placeholders are nested in one another, as where a definition uses itself.
    RecursionTooDeep,
    /// The pattern is the empty text.
    CompiledPatternIsEmpty(String),
    /// No definition has this name.
    DefinitionNotFound(String),
    /// The engine refused the expanded text. The message contains that text.
    RegexCompilationFailed(String),
    /// A placeholder is malformed, or two placeholders would get the same key. The message says
    /// which.
    GenericCompilationFailure(String),
    /// An allocation failed, or the expanded text is too long for any memory.
    Memory,
}

impl Error {
    /// Returns an equal error.
    pub fn clone(&self) -> Result<Error, AllocError>
        ensures { IfOk result (λ copy. error_value copy ≡ error_value self.now) }
    {
        Ok(match self {
            Error::RecursionTooDeep => Error::RecursionTooDeep,
            Error::CompiledPatternIsEmpty(pattern) => {
                Error::CompiledPatternIsEmpty(pattern.clone()?)
            }
            Error::DefinitionNotFound(name) => Error::DefinitionNotFound(name.clone()?),
            Error::RegexCompilationFailed(message) => Error::RegexCompilationFailed(
                message.clone()?,
            ),
            Error::GenericCompilationFailure(message) => {
                Error::GenericCompilationFailure(message.clone()?)
            }
            // own error: the error that is copied is this one.
            Error::Memory => Error::Memory,
        })
    }
}

impl fmt::Display for Error {
    ghost output = { λ error. Some (error_text (error_value error)) };

    fn fmt<W: fmt::Write>(&self, f: &mut fmt::Formatter<W>) -> fmt::Result {
        match self {
            // These are the words of the original crate. The 1,024th level is the one that is refused.
            Error::RecursionTooDeep => {
                write!(f, "Recursion while compiling reached the limit of 1024")
            }
            Error::CompiledPatternIsEmpty(pattern) => write!(
                f,
                "The given pattern \"{pattern}\" ended up compiling into an empty regex"
            ),
            Error::DefinitionNotFound(name) => write!(
                f,
                "The given pattern definition name \"{name}\" could not be found in the definition map"
            ),
            Error::RegexCompilationFailed(message) => write!(
                f,
                "The given regex \"{message}\" failed compilation in the underlying engine"
            ),
            Error::GenericCompilationFailure(message) => write!(
                f,
                "Something unexpected happened during the compilation phase: \"{message}\""
            ),
            Error::Memory => write!(f, "Out of memory"),
        }
    }
}

impl error::Error for Error {}

impl From<AllocError> for Error {
    ghost from_gives = { λ _ error. error ≡ Memory };

    fn from(_error: AllocError) -> Error {
        // own error: an allocation failed.
        Error::Memory
    }
}

impl<T: Drop> From<AllocFailed<T>> for Error {
    ghost from_gives = { λ _ error. error ≡ Memory };

    fn from(_error: AllocFailed<T>) -> Error {
        // own error: an allocation failed.
        Error::Memory
    }
}

fn words_of(alloc: Global, fault: &GrokPatternError) -> Result<String, AllocError>
    ensures { IfOk result (λ words. IsFaultText fault.now (string_bytes words)) }
{
    let mut f = fmt::Formatter::new(String::new(alloc));
    match fmt::Debug::fmt(fault, &mut f) {
        Ok(()) => Ok(f.into_inner()),
        // own error: only an allocation of the text can fail.
        Err(_) => Err(AllocError),
    }
}

impl Fault<'_> {
    /// Returns the error that compiling a pattern with this fault returns.
    pub fn to_error(&self, alloc: Global) -> Result<Error, AllocError>
        ensures { IfOk result (λ error. IsFaultError (fault_view self.now) (error_value error)) }
    {
        Ok(match self {
            Fault::Malformed(fault) => { Error::GenericCompilationFailure(words_of(alloc, fault)?) }
            Fault::Missing(name) => Error::DefinitionNotFound(String::from_str(alloc, name)?),
            Fault::TooDeep => Error::RecursionTooDeep,
        })
    }
}

pub(crate) fn clash_error(alloc: Global, key: &str) -> Result<Error, AllocError>
    ensures { IfOk result (λ error. IsErrorOf (Clash key.now) (error_value error)) }
{
    Ok(Error::GenericCompilationFailure(format!(in alloc; "Alias {key} already exists")?))
}

pub(crate) fn refused(alloc: Global, text: &str) -> Result<Error, AllocError>
    ensures { IfOk result (λ error. error_value error
        ≡ error_of_refusal Refusal.Refused text.now) }
{
    Ok(Error::RegexCompilationFailed(format!(in alloc; "Regex compilation failed:\n{text}")?))
}

impl Refusal {
    pub(crate) fn to_error(self, alloc: Global, text: &str) -> Result<Error, AllocError>
        ensures { IfOk result (λ error. error_value error ≡ error_of_refusal self text.now) }
    {
        match self {
            // own error: the engine reported that an allocation failed.
            Refusal::Memory => Ok(Error::Memory),
            Refusal::Refused => refused(alloc, text),
        }
    }
}

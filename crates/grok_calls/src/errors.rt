//! Calls on errors and on faults.
use crate::{LABELS, begin, finish};
use anyhow::{Result, bail};
use grok::parser::GrokPatternError;
use grok::{Error, Fault};
use std::alloc::Global;

pub(crate) fn call(rt: &HostRuntime, name: &str) -> Result<()> {
    match name {
        "of_malformed" => turn(
            rt,
            Fault::Malformed(GrokPatternError::InvalidCharacter('é')),
        ),
        "of_missing" => turn(rt, Fault::Missing("MISSING")),
        "of_depth" => turn(rt, Fault::TooDeep),
        _ => clone(rt, &error_of(rt.alloc(), name)?),
    }
}

/// Returns the error that the call with this name clones.
fn error_of(alloc: Global, name: &str) -> Result<Error> {
    match name {
        "clone_missing" => Ok(Error::DefinitionNotFound(String::from_str(alloc, "MISSING")?)),
        "clone_refused" => Ok(Error::RegexCompilationFailed(String::from_str(
            alloc,
            "Regex compilation failed:\n(",
        )?)),
        "clone_generic" => Ok(Error::GenericCompilationFailure(String::from_str(
            alloc,
            "Alias x[1] already exists",
        )?)),
        "clone_empty" => Ok(Error::CompiledPatternIsEmpty(String::new(alloc))),
        "clone_depth" => Ok(Error::RecursionTooDeep),
        _ => bail!("no call has this name"),
    }
}

fn clone(rt: &HostRuntime, error: &Error) -> Result<()> {
    'calls: for label in LABELS {
        begin(rt)?;
        finish(rt, label, error.clone())?;
    }
    Ok(())
}

/// Turns a fault into its error.
fn turn(rt: &HostRuntime, fault: Fault<'_>) -> Result<()> {
    'calls: for label in LABELS {
        begin(rt)?;
        finish(rt, label, fault.to_error(rt.alloc()))?;
    }
    Ok(())
}

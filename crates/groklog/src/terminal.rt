//! Finds out whether the program writes to a terminal, and whether in colours.

use groklog_options::Colours;
use std::alloc::AllocError;
use std::env::{self, VarError};
use std::io::IsTerminal;
use std::rt::Env;

/// Returns whether progress is shown: standard error is a terminal, and standard output isn't.
pub fn shows_progress(rt: &HostRuntime) -> bool {
    rt.stderr().is_terminal() && !rt.stdout().is_terminal()
}

/// Returns whether the user asks all programs for no colours: the variable `NO_COLOR` is set, and not
/// empty.
fn refuses_colours(rt: &(impl Env + AllocGlobal)) -> Result<bool, AllocError> {
    match env::var(rt, "NO_COLOR") {
        Ok(value) => Ok(!value.is_empty()),
        Err(VarError::NotPresent) => Ok(false),
        Err(VarError::NotUnicode) => Ok(true),
        // own error: the variable couldn't be read because an allocation failed.
        Err(VarError::OutOfMemory) => Err(AllocError),
    }
}

/// Returns whether standard output is written in colours.
pub fn is_coloured(rt: &HostRuntime, colours: Colours) -> Result<bool, AllocError> {
    match colours {
        Colours::Always => Ok(true),
        Colours::Never => Ok(false),
        Colours::Auto => Ok(rt.stdout().is_terminal() && !refuses_colours(rt)?),
    }
}

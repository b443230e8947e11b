//! Beginnings that are compiled.
ghost use Rattle.std.specs.Prelude.{◌≡◌, IfOk, MatchOption};
ghost use Rattle.regex.specs.Strings.{regex_source};
ghost use Rattle.regex_beginnings.specs.Finds.{IsReadByDefault, IsRefused};

use regex::{CaptureLocations, Error, Regex};
use std::alloc::{AllocError, Global};

/// What a beginning finds in a line: its first match.
#[derive(Drop)]
pub struct Found {
    /// The byte position in the line where the match ends.
    pub end: usize,
    /// The byte ranges of the groups that took part. Group 0 is the whole match.
    pub locations: CaptureLocations,
}

/// A regex that was built with the defaults of `regex`.
#[derive(Drop)]
pub(crate) struct Compiled {
    pub regex: Regex,
    ghost by_default: { ∥ IsReadByDefault regex ∥₁ },
}

impl Compiled {
    ghost use Rattle.regex_beginnings.specs.Finds.{IsDecided, IsMatchOf};

    pub(crate) fn is_found(&self, alloc: Global, line: &str) -> Result<bool, AllocError>
        ensures { IfOk result (IsDecided (regex_source self.now.regex) line.now) }
    {
        let mut matcher = self.regex.matcher(alloc)?;
        Ok(matcher.is_match(line))
    }

    pub(crate) fn find(&self, alloc: Global, line: &str) -> Result<Option<Found>, AllocError>
        ensures { IfOk result (IsMatchOf self.now.regex line.now) }
    {
        let mut matcher = self.regex.matcher(alloc)?;
        let mut locations = self.regex.capture_locations(alloc)?;
        match matcher.captures_read(&mut locations, line) {
            Some(whole) => Ok(Some(Found {
                end: whole.end(),
                locations,
            })),
            None => Ok(None),
        }
    }
}

pub(crate) fn compile(alloc: Global, text: &str) -> Result<Option<Compiled>, AllocError>
    ensures { IfOk result (λ compiled. MatchOption compiled (IsRefused text.now)
        (λ compiled. regex_source compiled.regex ≡ text.now)) }
{
    match Regex::new(alloc, text) {
        Ok(regex) => Ok(Some(Compiled { regex })),
        // own error: `regex` reported that an allocation failed.
        Err(Error::OutOfMemory) => Err(AllocError),
        Err(_) => Ok(None),
    }
}

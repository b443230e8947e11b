//! A pattern that decides which lines begin an event.
ghost use Rattle.std.specs.Prelude.{◌≡◌, IfOk};
ghost use Rattle.groklog_answers.specs.Patterns.{is_found};
ghost use Rattle.groklog_answers.specs.Views.{finds_of, starts_of};

use grok::{Matcher, Pattern};
use grok_lines::EventStarts;
use std::alloc::AllocError;

/// Finds the lines that begin an event, which are those in which a pattern is found.
pub struct StartPattern<'p> {
    matcher: Matcher<'p>,
}

// Written by hand, since a derived drop would be proved again in each crate that drops the pattern.
impl Drop for StartPattern<'_> {
    fn drop(self) {
        let StartPattern { matcher: _matcher } = self;
    }
}

impl<'p> StartPattern<'p> {
    /// Makes the starts of events: the lines in which this pattern is found.
    pub fn new(pattern: &'p Pattern) -> Result<StartPattern<'p>, AllocError>
        ensures { IfOk result (λ start. starts_of start ≡ is_found (finds_of pattern.now.engine)) }
    {
        let matcher = pattern.matcher()?;
        Ok(StartPattern { matcher })
    }
}

impl EventStarts for StartPattern<'_> {
    ghost use Rattle.groklog_answers.specs.Views.{starts_of};

    ghost starts = { starts_of };

    fn is_start(&mut self, line: &str) -> Result<bool, AllocError> {
        match self.matcher.find(line)? {
            None => Ok(false),
            Some(_) => Ok(true),
        }
    }
}

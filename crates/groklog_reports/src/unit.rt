//! The unit of a run that gets one answer: a line, or an event of several lines.
ghost use Rattle.std.specs.Prelude.{◌≡◌, IfOk, string_bytes};
ghost use Rattle.groklog_reports.specs.Units.{unit_word, units_text, place_text};

use std::alloc::{AllocError, Global};

/// The unit that gets one answer.
#[derive(Clone, Copy, PartialEq, Eq)]
pub enum Unit {
    Line,
    /// An event of one or more lines, for `--start`.
    Event,
}

impl Unit {
    /// Returns the word for `count` of these units, such as `lines`.
    pub fn word(self, count: u64) -> &'static str
        ensures { result.now ≡ unit_word self count }
    {
        match (self, count) {
            (Unit::Line, 1) => "line",
            (Unit::Line, _) => "lines",
            (Unit::Event, 1) => "event",
            (Unit::Event, _) => "events",
        }
    }

    /// Returns `count` of these units in words, such as `2 lines`.
    pub fn counted(self, alloc: Global, count: u64) -> Result<String, AllocError>
        ensures { IfOk result (λ text. string_bytes text ≡ units_text self count) }
    {
        format!(in alloc; "{count} {}", self.word(count))
    }

    /// Returns words for the unit whose first line has this number.
    pub fn at(self, alloc: Global, number: u64) -> Result<String, AllocError>
        ensures { IfOk result (λ text. string_bytes text ≡ place_text self number) }
    {
        match self {
            Unit::Line => format!(in alloc; "line {number}"),
            Unit::Event => format!(in alloc; "the event at line {number}"),
        }
    }
}

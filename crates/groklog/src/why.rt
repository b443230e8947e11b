//! Explains the lines that don't match, for `--why`.
ghost use Rattle.std.specs.Prelude.{◌≡◌, [], nat_lt};

use crate::output::Outlet;
use groklog_answers::{Failure, Flow, FoundLine, LineTask};
use groklog_patterns::Explainer;
use groklog_reports::Unit;
use std::alloc::{AllocError, Global};

/// Writes where the patterns stop in the first lines that don't match.
#[derive(Drop)]
pub struct Why<'r, 'p, 'd> {
    alloc: Global,
    outlet: &'r Outlet<'r>,
    explainer: Explainer<'p, 'd>,
    unit: Unit,
    /// How many lines may still be explained.
    left: u64,
    /// How many more lines don't match.
    more: u64,
}

impl<'r, 'p, 'd> Why<'r, 'p, 'd> {
    /// Explains the first `most` lines that don't match.
    pub fn new(
        alloc: Global,
        outlet: &'r Outlet<'r>,
        explainer: Explainer<'p, 'd>,
        unit: Unit,
        most: u64,
    ) -> Why<'r, 'p, 'd> {
        Why {
            alloc,
            outlet,
            explainer,
            unit,
            left: most,
            more: 0,
        }
    }

    /// Returns how many lines didn't match beyond those that were explained, as a line, or the empty
    /// text if there were none.
    pub fn rest(&self) -> Result<String, AllocError> {
        let word = self.unit.word(self.more);
        match self.more {
            0 => Ok(String::new(self.alloc)),
            1 => format!(in self.alloc; "1 more {word} doesn't match\n"),
            more => format!(in self.alloc; "{more} more {word} don't match\n"),
        }
    }

    /// Returns whether a line that doesn't match is still explained, and counts it.
    fn takes_line(&mut self) -> bool
        ensures { result ≡ nat_lt 0 self.old.left }
    {
        if self.left == 0 {
            self.more = self.more.saturating_add(1);
            return false;
        }
        self.left = self.left.saturating_sub(1);
        true
    }

    /// Writes why this line doesn't match.
    fn explain(&mut self, line: FoundLine<'_>, why: Failure) -> Result<(), AllocError> {
        let place = self.unit.at(self.alloc, line.number)?;
        let report = match why {
            Failure::NoMatch => self.explainer.report(place.as_str(), line.text)?,
            Failure::NotUtf8 => {
                format!(in self.alloc; "{place} doesn't match: it isn't UTF-8\n")?
            }
        };
        self.outlet.hold(report.as_str())
    }
}

impl<'p> LineTask<'p> for Why<'_, '_, '_> {
    ghost answer = { λ _ found n line. [] };

    fn begin_file(&mut self, _name: &'p str) {}

    fn needs_broken(&self) -> bool {
        false
    }

    fn take(&mut self, line: FoundLine<'_>, out: &mut Vec<u8>) -> Result<Flow, AllocError> {
        let _ = out;
        if let Err(why) = line.found
            && self.takes_line()
        {
            self.explain(line, why)?;
        }
        Ok(Flow::More)
    }
}

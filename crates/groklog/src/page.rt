//! Collects a page about the first lines or events, for `--html`.
ghost use Rattle.std.specs.Prelude.{[]};

use groklog_answers::{Failure, Flow, FoundLine, LineTask};
use groklog_patterns::Explainer;
use groklog_views::{EXPLAINED, PageContent};
use std::alloc::AllocError;

/// Collects what a page shows of the first lines, or of the first events.
#[derive(Drop)]
pub struct Page<'a, 'p, 'd> {
    explainer: Explainer<'p, 'd>,
    /// How many lines or events may still be explained.
    explained_left: u64,
    pub content: PageContent<'a>,
}

impl<'a, 'p, 'd> Page<'a, 'p, 'd> {
    /// Makes a page with this content.
    pub fn new(explainer: Explainer<'p, 'd>, content: PageContent<'a>) -> Page<'a, 'p, 'd> {
        Page {
            explainer,
            explained_left: EXPLAINED,
            content,
        }
    }

    /// Returns where the pattern stops in a line, which doesn't match. It is empty if enough lines were explained.
    fn explanation(&mut self, line: FoundLine<'_>) -> Result<String, AllocError> {
        let alloc = self.content.alloc;
        if self.explained_left == 0 {
            return Ok(String::new(alloc));
        }
        self.explained_left = self.explained_left.saturating_sub(1);
        let place = self.content.scope.unit.at(alloc, line.number)?;
        self.explainer.report(place.as_str(), line.text)
    }

    /// Adds a line that doesn't match for this reason.
    fn add_unmatched(&mut self, line: FoundLine<'_>, why: Failure) -> Result<(), AllocError> {
        let (alloc, unit) = (self.content.alloc, self.content.scope.unit);
        let report = match why {
            Failure::NoMatch => self.explanation(line)?,
            Failure::NotUtf8 => format!(in alloc; "this {} isn't UTF-8", unit.word(1))?,
        };
        self.content.add_unmatched(line, report.as_str())
    }
}

impl<'a> LineTask<'a> for Page<'a, '_, '_> {
    ghost answer = { λ _ found n line. [] };

    fn begin_file(&mut self, _name: &'a str) {}

    fn needs_broken(&self) -> bool {
        self.content.lists_unmatched()
    }

    fn take(&mut self, line: FoundLine<'_>, out: &mut Vec<u8>) -> Result<Flow, AllocError> {
        let _ = out;
        self.content.count_item();
        match line.found {
            Ok(found) => self.content.add_matched(line, found)?,
            Err(why) if self.content.lists_unmatched() => self.add_unmatched(line, why)?,
            Err(_) => {}
        }
        Ok(self.content.flow())
    }
}

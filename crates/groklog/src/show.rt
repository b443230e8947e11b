//! Shows lines with their fields marked, for `--show`.
ghost use Rattle.std.specs.Prelude.{[]};

use crate::output::Outlet;
use groklog_answers::{Flow, FoundLine, LineTask, Lines};
use groklog_views::{LocatedFields, legend_of, shown_line, shown_unmatched};
use std::alloc::{AllocError, Global};

/// Shows each line with its fields marked: in colours, or by letters under them.
#[derive(Drop)]
pub struct Show<'r, 'a> {
    pub alloc: Global,
    pub outlet: &'r Outlet<'r>,
    pub located: LocatedFields<'a>,
    /// Which lines are shown.
    pub lines: Lines,
    pub is_coloured: bool,
}

impl Show<'_, '_> {
    /// Returns the legend of the keys.
    pub fn legend(&self) -> Result<String, AllocError> {
        legend_of(self.alloc, &self.located.keys, self.is_coloured)
    }

    /// Returns a line as it is shown, or `None` if only other lines are.
    fn shown(&self, line: FoundLine<'_>) -> Result<Option<String>, AllocError> {
        let (alloc, is_coloured) = (self.alloc, self.is_coloured);
        let shown = match (line.found, self.lines) {
            (Ok(_), Lines::Unmatched) | (Err(_), Lines::Matched) => return Ok(None),
            (Ok(found), _) => {
                shown_line(alloc, line.text, &self.located.find(found)?, is_coloured)?
            }
            (Err(_), _) => shown_unmatched(alloc, line.text, is_coloured)?,
        };
        Ok(Some(shown))
    }
}

impl<'a> LineTask<'a> for Show<'_, 'a> {
    ghost answer = { λ _ found n line. [] };

    fn begin_file(&mut self, _name: &'a str) {}

    fn needs_broken(&self) -> bool {
        !matches!(self.lines, Lines::Matched)
    }

    fn take(&mut self, line: FoundLine<'_>, out: &mut Vec<u8>) -> Result<Flow, AllocError> {
        let _ = out;
        if let Some(shown) = self.shown(line)? {
            self.outlet.hold(shown.as_str())?;
        }
        Ok(Flow::More)
    }
}

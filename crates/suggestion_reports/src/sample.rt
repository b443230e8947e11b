//! Keeps the first lines of some inputs, and joins them to events.
ghost use Rattle.std.specs.Prelude.{[]};

use grok::Pattern;
use groklog_answers::{Failure, Flow, FoundLine, LineTask};
use groklog_options::EVENT_LINES;
use log_samples::finds_each;
use std::alloc::{AllocError, Global};

/// A line of more bytes than this isn't looked at.
const MOST_LINE_BYTES: usize = 65536;

/// A line of a sample.
#[derive(Drop)]
struct SampledLine {
    /// The line, or `None` if it isn't looked at: it is too long, isn't UTF-8, or has zero bytes, which texts don't
    /// have.
    text: Option<String>,
    /// Whether it is the first line of its file.
    begins_file: bool,
}

/// The first lines of some inputs.
#[derive(Drop)]
pub struct Sample {
    alloc: Global,
    lines: Vec<SampledLine>,
    /// Whether the next line is the first one of its file.
    begins_file: bool,
    /// How many lines were too long.
    pub(crate) too_long: u64,
    /// How many more lines are read at most.
    left: u64,
}

impl Sample {
    /// Takes the first `most` lines.
    pub fn new(alloc: Global, most: u64) -> Sample {
        Sample {
            alloc,
            lines: Vec::new(alloc),
            begins_file: true,
            too_long: 0,
            left: most,
        }
    }

    /// Adds a line, or one that isn't looked at.
    fn add(&mut self, text: Option<String>) -> Result<Flow, AllocError> {
        let begins_file = self.begins_file;
        self.begins_file = false;
        self.lines.push(SampledLine { text, begins_file })?;
        self.left = self.left.saturating_sub(1);
        Ok(self.flow())
    }

    /// Returns whether more lines are read.
    pub fn flow(&self) -> Flow {
        if self.left > 0 {
            Flow::More
        } else {
            Flow::Enough
        }
    }
}

impl<'p> LineTask<'p> for Sample {
    ghost answer = { λ _ found n line. [] };

    fn begin_file(&mut self, _name: &'p str) {
        self.begins_file = true;
    }

    fn needs_broken(&self) -> bool {
        false
    }

    fn take(&mut self, line: FoundLine<'_>, out: &mut Vec<u8>) -> Result<Flow, AllocError> {
        let _ = out;
        if line.text.len() > MOST_LINE_BYTES {
            self.too_long = self.too_long.saturating_add(1);
            return self.add(None);
        }
        let text = if matches!(line.found, Err(Failure::NotUtf8)) || line.text.contains('\0') {
            None
        } else {
            Some(String::from_str(self.alloc, line.text)?)
        };
        self.add(text)
    }
}

/// Returns whether more than half of the lines end in a carriage return.
pub(crate) fn have_returns(sample: &Sample) -> bool {
    let mut all = 0usize;
    let mut count = 0usize;
    for line in &sample.lines {
        if let Some(text) = &line.text
            && !text.as_str().trim().is_empty()
        {
            all = all.saturating_add(1);
            count = count.saturating_add(usize::from(text.as_str().ends_with('\r')));
        }
    }
    count > all / 2
}

impl SampledLine {
    /// Returns the line, without the carriage return at its end if that is dropped. Returns `None` if the line isn't
    /// looked at.
    fn text(&self, drops_return: bool) -> Option<&str> {
        let text = self.text.as_ref()?.as_str();
        Some(if drops_return {
            text.strip_suffix('\r').unwrap_or(text)
        } else {
            text
        })
    }
}

/// The lines of a sample that patterns are suggested for: those that are looked at and aren't blank.
#[derive(Drop)]
pub(crate) struct SampledText<'s> {
    pub lines: Vec<&'s str>,
    /// Those of them that come after a blank line, and the first one of each file.
    pub firsts: Vec<&'s str>,
}

/// Returns the lines of a sample that patterns are suggested for.
pub(crate) fn lines_of(sample: &Sample, drops_return: bool) -> Result<SampledText<'_>, AllocError> {
    let mut lines = Vec::new(sample.alloc);
    let mut firsts = Vec::new(sample.alloc);
    let mut is_after_blank = false;
    for line in &sample.lines {
        let text = line.text(drops_return);
        let is_blank = text.is_some_and(|text| text.trim().is_empty());
        if let Some(text) = text
            && !is_blank
        {
            lines.push(text)?;
            if is_after_blank || line.begins_file {
                firsts.push(text)?;
            }
        }
        is_after_blank = is_blank;
    }
    Ok(SampledText { lines, firsts })
}

/// Returns the events that a run reads from a sample whose lines this pattern begins, each with its lines joined by
/// line feeds, or `None` if one of them isn't looked at. No line is found in an event that isn't UTF-8.
pub(crate) fn events_of(
    sample: &Sample,
    drops_return: bool,
    start: &Pattern,
) -> Result<Vec<Option<String>>, AllocError> {
    let alloc = sample.alloc;
    let mut texts = Vec::new(alloc);
    for line in &sample.lines {
        texts.push(line.text(drops_return).unwrap_or(""))?;
    }
    let mut events: Vec<Option<String>> = Vec::new(alloc);
    let mut len = 0u64;
    let starts = finds_each(alloc, start, &texts)?;
    for ((line, text), is_start) in sample.lines.iter().zip(&texts).zip(&starts) {
        let is_read = line.text.is_some();
        let begins = line.begins_file || (is_read && *is_start) || len == EVENT_LINES;
        if !begins && let Some(event) = events.last_mut() {
            len = len.saturating_add(1);
            *event = joined(event.take(), is_read.then_some(*text))?;
            continue;
        }
        len = 1;
        let event = String::from_str(alloc, text)?;
        events.push(is_read.then_some(event))?;
    }
    Ok(events)
}

/// Adds a line to an event, if both are looked at.
fn joined(event: Option<String>, line: Option<&str>) -> Result<Option<String>, AllocError> {
    let (Some(mut event), Some(line)) = (event, line) else {
        return Ok(None);
    };
    event.push('\n')?;
    event.push_str(line)?;
    Ok(Some(event))
}

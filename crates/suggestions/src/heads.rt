//! Lines that begin with a definition and then have more.

use crate::header::Header;
use crate::text::Frame;
use grok::{MatchesRef, Pattern};
use groklog_definitions::Library;
use log_samples::{compile_valid, first_line};
use std::alloc::{AllocError, Global};

/// The key of what comes after a definition.
const TAIL: &str = "what_comes_after_it";

/// One line in this many may begin with something else.
const LINES_FOR_ONE_OTHER: usize = 10;

/// A definition that is looked for at the beginning of lines.
#[derive(Drop)]
pub(crate) struct Head<'a> {
    pub name: &'a str,
    pattern: Pattern,
    /// How many lines begin with it.
    pub lines: usize,
    /// How many bytes of these lines come after it, in all.
    left: usize,
}

/// The part of each line that is aligned: the part after a definition, or the whole line.
#[derive(Drop)]
pub(crate) struct LineView<'l> {
    pub alloc: Global,
    pub frame: Frame,
    /// The names of the columns, if the log gives them.
    pub header: Option<Header<'l>>,
    /// Finds the definition with which the lines begin. `None` if whole lines are aligned.
    head: Option<Pattern>,
}

/// Returns whether some of the texts have several lines.
fn are_events(lines: &[&str]) -> bool {
    lines.iter().any(|line| line.contains('\n'))
}

/// Returns what comes after the definition that begins a line, or `None` if the definition ends in the middle of a word.
fn tail_in<'l>(matches: MatchesRef<'_>, line: &'l str) -> Option<&'l str> {
    for (key, value) in matches.iter() {
        if key == TAIL {
            let goes_on = value.starts_with(|c: char| c.is_alphanumeric() || c == '_');
            let at = line.len().saturating_sub(value.len());
            return if goes_on { None } else { line.get(at..) };
        }
    }
    None
}

/// Returns for each line, or for the first line of each event, the part after what the pattern of a head
/// finds. It is `None` if the pattern finds nothing, or if its match ends in the middle of a word.
fn tails_after<'l>(
    alloc: Global,
    pattern: &Pattern,
    lines: &[&'l str],
) -> Result<Vec<Option<&'l str>>, AllocError> {
    let mut tails = Vec::new(alloc);
    let mut matcher = pattern.matcher()?;
    for line in lines {
        let line = first_line(line);
        let tail = match matcher.find(line)? {
            Some(matches) => tail_in(matches, line),
            None => None,
        };
        tails.push(tail)?;
    }
    Ok(tails)
}

/// Returns each line, or the first line of each event, as a whole.
fn whole_lines<'l>(alloc: Global, lines: &[&'l str]) -> Result<Vec<Option<&'l str>>, AllocError> {
    let mut tails = Vec::new(alloc);
    for line in lines {
        tails.push(Some(first_line(line)))?;
    }
    Ok(tails)
}

impl<'l> LineView<'l> {
    /// Returns the view of whole lines.
    pub(crate) fn new(alloc: Global, lines: &[&str], header: Option<Header<'l>>) -> LineView<'l> {
        LineView {
            alloc,
            header,
            frame: Frame {
                head: None,
                keys: Vec::new(alloc),
                are_events: are_events(lines),
            },
            head: None,
        }
    }

    /// Returns the view of what comes after a definition.
    pub(crate) fn after(
        alloc: Global,
        lines: &[&str],
        head: Head<'_>,
    ) -> Result<LineView<'l>, AllocError> {
        let Head { name, pattern, .. } = head;
        let name = String::from_str(alloc, name)?;
        let mut keys = Vec::new(alloc);
        for key in pattern.capture_names() {
            keys.push(String::from_str(alloc, key)?)?;
        }
        Ok(LineView {
            alloc,
            header: None,
            frame: Frame {
                head: Some(name),
                keys,
                are_events: are_events(lines),
            },
            head: Some(pattern),
        })
    }

    /// Returns for each line the part after the definition that begins it, or `None` if the line doesn't
    /// begin with the definition.
    fn tails<'t>(&self, lines: &[&'t str]) -> Result<Vec<Option<&'t str>>, AllocError> {
        match &self.head {
            Some(pattern) => tails_after(self.alloc, pattern, lines),
            None => whole_lines(self.alloc, lines),
        }
    }

    /// Returns the part of each line that is aligned.
    pub(crate) fn aligned<'t>(&self, lines: &[&'t str]) -> Result<Vec<&'t str>, AllocError> {
        let mut aligned = Vec::new(self.alloc);
        for (line, tail) in lines.iter().zip(&self.tails(lines)?) {
            aligned.push(tail.unwrap_or(first_line(line)))?;
        }
        Ok(aligned)
    }

    /// Returns the lines that begin with the definition.
    pub(crate) fn begun<'t>(&self, lines: &[&'t str]) -> Result<Vec<&'t str>, AllocError> {
        let mut begun = Vec::new(self.alloc);
        for (line, tail) in lines.iter().zip(&self.tails(lines)?) {
            if tail.is_some() {
                begun.push(*line)?;
            }
        }
        Ok(begun)
    }
}

/// Returns how many lines have a part after the definition, and how many bytes these parts have in all.
fn count_tails(tails: &[Option<&str>]) -> (usize, usize) {
    let (mut count, mut left) = (0usize, 0usize);
    for tail in tails {
        if let Some(tail) = tail {
            count = count.saturating_add(1);
            left = left.saturating_add(tail.len());
        }
    }
    (count, left)
}

/// Looks for a definition at the beginning of each line.
fn head_of<'a>(
    alloc: Global,
    library: &Library<'_>,
    name: &'a str,
    lines: &[&str],
) -> Result<Option<Head<'a>>, AllocError> {
    let text = format!(in alloc; "^%{{{name}}}(?<{TAIL}>.*)$")?;
    let Some(pattern) = compile_valid(library, text.as_str())? else {
        return Ok(None);
    };
    let (count, left) = count_tails(&tails_after(alloc, &pattern, lines)?);
    Ok(Some(Head {
        name,
        pattern,
        lines: count,
        left,
    }))
}

/// Returns the definition with which nine lines of ten begin. If several do, it is the one that takes most of
/// the lines, and among equal ones the first.
pub(crate) fn longest_head<'a>(
    alloc: Global,
    library: &Library<'_>,
    names: &[&'a str],
    lines: &[&str],
) -> Result<Option<Head<'a>>, AllocError> {
    let mut best: Option<Head<'a>> = None;
    for name in names {
        let Some(head) = head_of(alloc, library, name, lines)? else {
            continue;
        };
        let others = lines.len().saturating_sub(head.lines);
        let is_better = match &best {
            Some(best) => head.left < best.left,
            None => true,
        };
        if others <= lines.len() / LINES_FOR_ONE_OTHER && head.left > 0 && is_better {
            best = Some(head);
        }
    }
    Ok(best)
}

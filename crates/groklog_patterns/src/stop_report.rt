//! Reports where a pattern stops in a line that doesn't match.

use crate::compiled::RunPattern;
use crate::stops::{Outermost, Searched, Stop, furthest_stop};
use grok::Location;
use groklog_definitions::Library;
use groklog_reports::{Excerpt, excerpt_of, visible};
use regex_beginnings::{Found, Group};
use std::alloc::{AllocError, Global};
use std::fmt::Write;
use std::ops::Range;

/// How many characters are shown at most of a piece in a sentence, and of a value.
const MOST_SHOWN: usize = 40;

/// Explains where the patterns of a run stop in lines that don't match.
#[derive(Drop)]
pub struct Explainer<'p, 'd> {
    alloc: Global,
    library: &'p Library<'d>,
    all: Vec<Searched<'p, 'd>>,
}

/// Returns the first `most` characters of a text, and three dots if it has more.
pub(crate) fn cut_text(alloc: Global, text: &str, most: usize) -> Result<String, AllocError> {
    let mut part = String::new(alloc);
    for c in text.chars().take(most) {
        part.push(c)?;
    }
    if part.len() < text.len() {
        part.push_str("...")?;
    }
    Ok(part)
}

/// Returns a text as messages show it, in one line and not too long.
fn shown(alloc: Global, text: &str) -> Result<String, AllocError> {
    visible(alloc, cut_text(alloc, text, MOST_SHOWN)?.as_str())
}

/// Returns words for a piece: its text without the blanks at its end, and whether it is a group. If it begins with a
/// blank, the text stands between backticks.
fn piece_words(alloc: Global, text: &str, range: &Range<usize>) -> Result<String, AllocError> {
    let piece = text.get(range.start..range.end).unwrap_or("").trim_end();
    let text = shown(alloc, piece)?;
    if piece.is_empty() {
        String::from_str(alloc, "a blank")
    } else if piece.starts_with(' ') {
        format!(in alloc; "`{text}`")
    } else if piece.starts_with('(') {
        format!(in alloc; "the group {text}")
    } else {
        Ok(text)
    }
}

/// Returns the bracket with which a part of the expanded text begins, if it may be meant as the character: the
/// `[` of a class without a quantifier, or a `(` without a `?` after it.
fn bare_bracket(part: &str) -> Option<char> {
    if part.starts_with('[') && part.ends_with(']') {
        Some('[')
    } else if part.starts_with('(') && !part.starts_with("(?") {
        Some('(')
    } else {
        None
    }
}

fn ends_alike(one: &Option<Found>, other: &Option<Found>) -> bool {
    match (one, other) {
        (Some(one), Some(other)) => one.end == other.end,
        (None, None) => true,
        _ => false,
    }
}

/// A line that doesn't match, and where the pattern stops in it.
#[derive(Clone, Copy)]
struct StoppedLine<'s, 'p, 'd> {
    line: &'s str,
    searched: &'s Searched<'p, 'd>,
    stop: &'s Stop,
}

impl StoppedLine<'_, '_, '_> {
    /// Returns the bracket at the position of the line where the beginning ends, if the pattern goes on there with
    /// the same bracket, unescaped. That may be the bracket of the piece that isn't found, or of one of the `groups`
    /// around it of which nothing was found yet.
    fn bracket(self, groups: &[Group]) -> Result<Option<char>, AllocError> {
        let StoppedLine {
            line,
            searched,
            stop,
        } = self;
        let end = match &stop.found {
            Some(found) => found.end,
            None => 0,
        };
        let next = line.get(end..).unwrap_or("").chars().next();
        let upto = searched.text_upto(stop.count);
        let piece = searched.piece_at(stop.count);
        if bare_bracket(upto.get(piece.start..).unwrap_or("")) == next {
            return Ok(next);
        }
        for group in groups {
            if bare_bracket(upto.get(group.start..).unwrap_or("")) == next
                && ends_alike(
                    &searched.find(searched.pieces_before(group.start), line)?,
                    &stop.found,
                )
            {
                return Ok(next);
            }
        }
        Ok(None)
    }
}

/// Writes a report.
#[derive(Drop)]
struct ReportWriter {
    alloc: Global,
    report: String,
}

impl ReportWriter {
    fn push_excerpt(&mut self, text: &str, range: &Range<usize>) -> Result<(), AllocError> {
        let Excerpt { line, carets } = excerpt_of(self.alloc, text, range.start..range.end)?;
        Ok(writeln!(self.report, "  {line}\n  {carets}")?)
    }

    /// Appends the line, with a caret where the match of a beginning ends. If the beginning is empty,
    /// there is no caret.
    fn push_line(&mut self, line: &str, found: &Option<Found>) -> Result<(), AllocError> {
        match found {
            Some(found) => self.push_excerpt(line, &(found.end..found.end)),
            None => {
                let Excerpt { line, .. } = excerpt_of(self.alloc, line, 0..0)?;
                Ok(writeln!(self.report, "  {line}")?)
            }
        }
    }

    /// Appends the fields that the beginning found, except those of the groups in `open`, whose end it
    /// didn't reach.
    fn push_fields(
        &mut self,
        stopped: StoppedLine<'_, '_, '_>,
        open: &[Group],
    ) -> Result<(), AllocError> {
        let StoppedLine {
            line,
            searched,
            stop,
        } = stopped;
        let Some(found) = &stop.found else {
            return Ok(());
        };
        let mut is_first = true;
        for number in 0..found.locations.len() {
            if let (Some((start, end)), Some(key)) = (
                found.locations.get(number),
                searched.key(number),
            )
                && !open.iter().any(|group| group.number == Some(number))
            {
                let key = visible(self.alloc, key)?;
                let value = shown(self.alloc, line.get(start..end).unwrap_or(""))?;
                self.report
                    .push_str(if is_first { "  found so far: " } else { " " })?;
                write!(self.report, "{key}={value}")?;
                is_first = false;
            }
        }
        self.report.push_str(if is_first { "" } else { "\n" })
    }

    /// Appends a piece in words.
    fn push_words(&mut self, text: &str, range: &Range<usize>) -> Result<(), AllocError> {
        let words = piece_words(self.alloc, text, range)?;
        self.report.push_str(words.as_str())
    }

    /// Appends words that say in which definition the pattern stops, and at which piece of it.
    fn push_inside(
        &mut self,
        library: &Library<'_>,
        inner: &Location<'_>,
    ) -> Result<(), AllocError> {
        let Some((innermost, through)) = inner.path.as_slice().split_last() else {
            return Ok(());
        };
        let name = innermost.name;
        write!(self.report, "  inside it, the definition {name}")?;
        if let Some(source) = library.source(name) {
            let origin = format!(in self.alloc; " ({})", source.origin)?;
            self.report
                .push_str(visible(self.alloc, origin.as_str())?.as_str())?;
        }
        for (number, step) in through.iter().enumerate() {
            self.report
                .push_str(if number == 0 { ", used by " } else { " > " })?;
            self.report.push_str(step.name)?;
        }
        self.report.push_str(if through.is_empty() {
            " stops at "
        } else {
            ", stops at "
        })?;
        self.push_words(inner.text, &inner.range)?;
        self.report.push_str(":\n")
    }

    /// Appends where a pattern stops: the piece, the line and the pattern with carets, the same for
    /// the definition that it stops in, and the fields so far.
    fn push_stop(
        &mut self,
        library: &Library<'_>,
        stopped: StoppedLine<'_, '_, '_>,
    ) -> Result<(), AllocError> {
        let StoppedLine {
            line,
            searched,
            stop,
        } = stopped;
        let groups = searched.groups_around(stop.count)?;
        let inner = searched.written(self.alloc, searched.piece_at(stop.count))?;
        match searched.outermost(&groups)? {
            None => {
                self.push_words(inner.text, &inner.range)?;
                self.report.push('\n')?;
                self.push_line(line, &stop.found)?;
            }
            Some(Outermost { range, count }) => {
                let before = searched.find(count, line)?;
                let text = searched.text.text.as_str();
                self.push_words(text, &range)?;
                self.report.push('\n')?;
                if before.is_some() || stop.found.is_none() {
                    self.push_line(line, &before)?;
                }
                self.push_excerpt(text, &range)?;
                self.push_inside(library, &inner)?;
                if !ends_alike(&before, &stop.found) {
                    self.push_line(line, &stop.found)?;
                }
            }
        }
        self.push_excerpt(inner.text, &inner.range)?;
        self.push_fields(stopped, &groups)
    }

    /// Appends how to write the bracket at which the pattern stops, if the line has it there too.
    fn push_advice(&mut self, stopped: StoppedLine<'_, '_, '_>) -> Result<(), AllocError> {
        let groups = stopped.searched.groups_around(stopped.stop.count)?;
        let Some(bracket) = stopped.bracket(&groups)? else {
            return Ok(());
        };
        Ok(writeln!(
            self.report,
            "  try: write \\{bracket} if you mean the {bracket} that the line has there"
        )?)
    }
}

impl<'p, 'd> Explainer<'p, 'd> {
    /// Takes the patterns of a run.
    pub fn new(
        alloc: Global,
        library: &'p Library<'d>,
        patterns: &'p [RunPattern],
    ) -> Result<Explainer<'p, 'd>, AllocError> {
        let mut all = Vec::new(alloc);
        for pattern in patterns {
            all.push(Searched::new(alloc, library, pattern)?)?;
        }
        Ok(Explainer {
            alloc,
            library,
            all,
        })
    }

    /// Reports where the pattern stops that comes furthest in a line or an event that doesn't match.
    /// `place` are words for it, such as `line 3`.
    pub fn report(&mut self, place: &str, line: &str) -> Result<String, AllocError> {
        let (alloc, several) = (self.alloc, self.all.len() > 1);
        let report = format!(in alloc; "{place} doesn't match: ")?;
        let Some(stop) = furthest_stop(self.all.as_mut_slice(), line)? else {
            return Ok(report);
        };
        let Some(searched) = self.all.as_slice().get(stop.pattern) else {
            return Ok(report);
        };
        let stopped = StoppedLine {
            line,
            searched,
            stop: &stop,
        };
        let mut writer = ReportWriter { alloc, report };
        writer.report.push_str(searched.text.words.as_str())?;
        writer
            .report
            .push_str(if several { " comes furthest, and" } else { "" })?;
        writer.report.push_str(" stops at ")?;
        writer.push_stop(self.library, stopped)?;
        writer.push_advice(stopped)?;
        let ReportWriter { report, .. } = writer;
        Ok(report)
    }
}

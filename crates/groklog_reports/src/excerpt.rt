//! Shows a part of a text, with some of the text around it and carets under it.
ghost use Rattle.std.specs.Prelude.{◌≡◌, OnErr};

use crate::fault::Report;
use crate::visible_text::visible;
use std::alloc::{AllocError, Global};
use std::ops::Range;
use unicode_width::UnicodeWidthStr;

/// How many characters are shown before a part, and how many after it.
const CONTEXT: usize = 30;

/// How many characters of a part are shown at most.
const MOST_SHOWN: usize = 40;

fn chars_before(text: &str, end: usize) -> usize {
    text.char_indices().take_while(|(at, _)| *at < end).count()
}

fn push_many(line: &mut String, c: char, count: usize) -> Result<(), AllocError> {
    for _ in 0..count {
        line.push(c)?;
    }
    Ok(())
}

/// Returns `count` characters of a text as messages show them, beginning with the character number
/// `first`.
fn shown_part(alloc: Global, text: &str, first: usize, count: usize) -> Result<String, AllocError> {
    let mut part = String::new(alloc);
    for c in text.chars().skip(first).take(count) {
        part.push(c)?;
    }
    visible(alloc, part.as_str())
}

/// A part of a text with some of the text around it, and the carets that stand under the part.
#[derive(Drop)]
pub struct Excerpt {
    pub line: String,
    pub carets: String,
}

/// Returns the part of a text at a byte range, with some of the text around it, and under it a caret
/// for each column that it takes on a terminal. An empty part has one caret.
pub fn excerpt_of(alloc: Global, text: &str, part: Range<usize>) -> Result<Excerpt, AllocError> {
    let begin = chars_before(text, part.start);
    let size = chars_before(text, part.end)
        .saturating_sub(begin)
        .clamp(1, MOST_SHOWN);
    let end = begin.saturating_add(size);
    let first = begin.saturating_sub(CONTEXT);
    let before = shown_part(alloc, text, first, begin.saturating_sub(first))?;
    let wrong = shown_part(alloc, text, begin, size)?;
    let after = shown_part(alloc, text, end, CONTEXT)?;
    let cut = if first > 0 { "..." } else { "" };
    let is_cut_after = chars_before(text, text.len()) > end.saturating_add(CONTEXT);
    let cut_after = if is_cut_after { "..." } else { "" };
    let line = format!(in alloc; "{cut}{before}{wrong}{after}{cut_after}")?;
    let mut carets = String::new(alloc);
    push_many(
        &mut carets,
        ' ',
        cut.len().saturating_add(before.as_str().width()),
    )?;
    push_many(&mut carets, '^', wrong.as_str().width().max(1))?;
    Ok(Excerpt { line, carets })
}

/// Adds to a report the byte range of a text that is wrong: some of the text around it, and under
/// the range a caret for each column that it takes on a terminal. `location` says where the text is.
/// If an allocation fails, the report stays as it was.
pub fn add_excerpt(
    alloc: Global,
    report: &mut Report,
    location: &str,
    text: &str,
    part: Range<usize>,
) -> Result<(), AllocError>
    ensures what { report.new.what ≡ report.old.what }
    ensures memory { OnErr result (report.new.parts.items ≡ report.old.parts.items) }
    ensures advice { report.new.advice ≡ report.old.advice }
{
    let Excerpt { line, carets } = excerpt_of(alloc, text, part)?;
    report.add_part(alloc, location, line.as_str(), carets.as_str())
}

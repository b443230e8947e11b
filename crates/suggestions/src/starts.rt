//! Finds how events of several lines begin.

use crate::counts::{Counted, commonest, count_line};
use crate::proposals::aligned_of;
use grok::Pattern;
use log_samples::{
    Cutter, Kind, LineToken, Meaning, Recognizer, finds_each, known_definition, literal,
};
use std::alloc::{AllocError, Global};

/// How many bytes may come before the time with which an event begins.
const MOST_BEFORE: usize = 16;

/// How many bytes the text has at least with which events begin after a blank line.
const LEAST_BEFORE: usize = 2;

/// One line in this many may have a time and not be a start. At least one in this many, and two, have none.
const LINES_FOR_ONE_OTHER: usize = 20;

/// The lines of a sample that aren't blank.
#[derive(Clone, Copy)]
pub struct SampleLines<'s, 'l> {
    pub lines: &'s [&'l str],
    /// Those of them that come after a blank line, and the first one of each file.
    pub firsts: &'s [&'l str],
}

/// How a line begins up to its first time.
#[derive(Clone, Copy, PartialEq, Eq)]
struct Beginning<'l> {
    /// The text before the time.
    before: &'l str,
    /// The index of the definition of the time.
    known: usize,
}

/// Returns the beginning of a line that has these tokens, or `None` if the line has no time.
fn beginning_of<'l>(line: &'l str, tokens: &[LineToken<'l>]) -> Option<Beginning<'l>> {
    let mut len = 0usize;
    for token in tokens {
        if let Kind::Known(known) = token.kind
            && known_definition(known).meaning == Meaning::Time
        {
            let before = line.get(..len)?;
            return Some(Beginning { before, known });
        }
        len = len.saturating_add(token.text.len());
    }
    None
}

/// Returns whether events may have this beginning: hardly anything comes before the time, and that has no
/// digits.
fn may_start(beginning: Beginning<'_>) -> bool {
    beginning.before.len() <= MOST_BEFORE
        && !beginning
            .before
            .chars()
            .any(|c| c.is_ascii_digit() || c == '%')
}

/// Returns the word in capitals with which a line begins, such as `START`, or `None` if it begins with anything else.
fn capital_word(line: &str) -> Option<&str> {
    let word = match line.split_once(' ') {
        Some((word, _)) => word,
        None => line,
    };
    let is_capital = word.len() > 1 && word.chars().all(|c| c.is_ascii_uppercase());
    is_capital.then_some(word)
}

/// How the lines of a log begin.
#[derive(Drop)]
struct Beginnings<'l> {
    /// The beginnings with a time that the first line of an event may have.
    timed: Vec<Counted<Beginning<'l>>>,
    /// The words in capitals with which lines without a time begin, and `None` for any other beginning of these.
    words: Vec<Counted<Option<&'l str>>>,
    /// How many lines have no time and don't begin with a digit, as a time in another form does. Those before the first time are a
    /// header, and don't count.
    without: usize,
    /// How many lines the header has.
    header: usize,
}

impl<'l> Beginnings<'l> {
    fn new(alloc: Global) -> Beginnings<'l> {
        Beginnings {
            timed: Vec::new(alloc),
            words: Vec::new(alloc),
            without: 0,
            header: 0,
        }
    }

    /// Adds a line with this beginning, if it has a time.
    fn add(&mut self, line: &'l str, beginning: Option<Beginning<'l>>) -> Result<(), AllocError> {
        match beginning {
            Some(beginning) if may_start(beginning) => count_line(&mut self.timed, beginning),
            Some(_) => Ok(()),
            None if line.starts_with(|c: char| c.is_ascii_digit()) => Ok(()),
            None => {
                if self.timed.is_empty() {
                    self.header = self.header.saturating_add(1);
                } else {
                    self.without = self.without.saturating_add(1);
                }
                count_line(&mut self.words, capital_word(line))
            }
        }
    }

    /// Returns whether the lines without a time are no parts of events: each begins with a word in capitals with which another
    /// one begins, too, as `START` and `END` do.
    fn are_own_lines(&self) -> bool {
        self.words.iter().all(|word: &Counted<Option<&str>>| word.what.is_some() && word.lines > 1)
    }
}

fn beginnings_of<'l>(
    alloc: Global,
    recognizer: &Recognizer<'_, '_>,
    lines: &[&'l str],
) -> Result<Beginnings<'l>, AllocError> {
    let mut cutter = Cutter::new(alloc, recognizer.search(alloc)?);
    let mut beginnings = Beginnings::new(alloc);
    for line in lines {
        let beginning = beginning_of(line, &cutter.cut(line)?);
        beginnings.add(line, beginning)?;
    }
    Ok(beginnings)
}

/// Returns a pattern for the first lines of events: a time at their beginning, that other lines don't have. Returns `None` if
/// almost all lines have it, or if other lines have times, too, or begin with a digit, as a time in another form does.
pub(crate) fn start_of(
    alloc: Global,
    recognizer: &Recognizer<'_, '_>,
    lines: &[&str],
) -> Result<Option<String>, AllocError> {
    let lines = aligned_of(lines);
    let beginnings = beginnings_of(alloc, recognizer, lines)?;
    let Some(best) = commonest(&beginnings.timed) else {
        return Ok(None);
    };
    let share = lines.len() / LINES_FOR_ONE_OTHER;
    let without = beginnings.without;
    let others = lines
        .len()
        .saturating_sub(best.lines)
        .saturating_sub(without)
        .saturating_sub(beginnings.header);
    let are_few = best.lines < 2 || without < 2 || without < share || others > share;
    if are_few || beginnings.are_own_lines() {
        return Ok(None);
    }
    let before = literal(alloc, best.what.before)?;
    let name = known_definition(best.what.known).name;
    Ok(Some(format!(in alloc; "^{before}%{{{name}}}")?))
}

/// Returns how many bytes at the beginning of two lines are the same, up to the first digit.
fn common_len(first: &str, second: &str) -> usize {
    for (at, c) in first.char_indices() {
        let rest = second.get(at..).unwrap_or("");
        if c.is_ascii_digit() || !rest.starts_with(c) {
            return at;
        }
    }
    first.len()
}

/// Returns the marks and whole words with which all of these lines begin, up to the first digit.
fn common_beginning<'l>(lines: &[&'l str]) -> &'l str {
    let mut common: &'l str = lines.first().copied().unwrap_or("");
    for line in lines {
        common = common.get(..common_len(common, line)).unwrap_or("");
    }
    common.trim_end_matches(|c: char| c.is_alphanumeric())
}

/// Returns a pattern for the first lines of events with blank lines between them: those after a blank line begin with the same
/// text, and no other line does.
pub(crate) fn start_after_blank(
    alloc: Global,
    sample: SampleLines<'_, '_>,
) -> Result<Option<String>, AllocError> {
    let SampleLines { lines, firsts } = sample;
    let before = common_beginning(firsts);
    let starts = lines
        .iter()
        .filter(|line: &&&str| line.starts_with(before))
        .count();
    let has_others = lines.len() / 2 >= firsts.len();
    if firsts.len() < 2 || before.len() < LEAST_BEFORE || starts > firsts.len() || !has_others {
        return Ok(None);
    }
    let before = literal(alloc, before)?;
    Ok(Some(format!(in alloc; "^{before}")?))
}

/// Joins the lines of each event by line feeds. An event begins at each line in which the pattern is found.
pub(crate) fn events_of(
    alloc: Global,
    start: &Pattern,
    lines: &[&str],
) -> Result<Vec<String>, AllocError> {
    let mut events = Vec::new(alloc);
    let mut event = String::new(alloc);
    for (line, is_start) in lines.iter().zip(&finds_each(alloc, start, lines)?) {
        if !event.is_empty() {
            if *is_start {
                events.push(event)?;
                event = String::new(alloc);
            } else {
                event.push('\n')?;
            }
        }
        event.push_str(line)?;
    }
    if !event.is_empty() {
        events.push(event)?;
    }
    Ok(events)
}

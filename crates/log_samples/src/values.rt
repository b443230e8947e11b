//! Lines that are values between separators, such as comma-separated values.

use crate::events::first_line;

/// The characters that separate values.
const SEPARATORS: [char; 4] = ['\t', ',', ';', '|'];

/// How many values a line has at least.
const LEAST_VALUES: usize = 4;

/// One line in this many may have another number of values.
const LINES_FOR_ONE_OTHER: usize = 20;

/// Cuts a line at a separator, but not inside double quotes (RFC 4180).
#[derive(Clone, Copy)]
struct Values<'l> {
    rest: Option<&'l str>,
    separator: char,
}

/// Returns how many bytes at the start of a text come before the separator, outside of double quotes.
fn value_len(text: &str, separator: char) -> usize {
    let mut is_quoted = false;
    for (at, c) in text.char_indices() {
        if c == '"' {
            is_quoted = !is_quoted;
        }
        if c == separator && !is_quoted {
            return at;
        }
    }
    text.len()
}

impl<'l> Values<'l> {
    fn of(line: &'l str, separator: char) -> Values<'l> {
        Values {
            rest: Some(line),
            separator,
        }
    }

    fn take(&mut self) -> Option<&'l str> {
        let rest = self.rest?;
        let (value, after) = rest.split_at_checked(value_len(rest, self.separator))?;
        self.rest = after.strip_prefix(self.separator);
        Some(value)
    }
}

/// Returns how many values a line has.
pub fn value_count(line: &str, separator: char) -> usize {
    let mut values = Values::of(line, separator);
    let mut count = 0usize;
    for _ in 0..line.len().saturating_add(1) {
        if values.take().is_none() {
            break;
        }
        count = count.saturating_add(1);
    }
    count
}

/// Returns whether a value after the first one begins with a blank, as the words after a comma in a sentence do.
fn is_of_a_sentence(line: &str, separator: char) -> bool {
    let mut values = Values::of(line, separator);
    values.take();
    for _ in 0..line.len() {
        match values.take() {
            Some(value) if value.starts_with(' ') => return true,
            Some(_) => {}
            None => break,
        }
    }
    false
}

/// Returns whether almost all lines have as many values as the first one, and at least `LEAST_VALUES`.
fn are_values(lines: &[&str], separator: char) -> bool {
    let count = match lines.first() {
        Some(first) => value_count(first_line(first), separator),
        None => 0,
    };
    if count < LEAST_VALUES {
        return false;
    }
    let mut others = 0usize;
    for line in lines {
        let line = first_line(line);
        if value_count(line, separator) != count || is_of_a_sentence(line, separator) {
            others = others.saturating_add(1);
        }
    }
    others <= lines.len() / LINES_FOR_ONE_OTHER
}

/// Returns the separator of the values of lines, or `None` if the lines aren't values between separators.
pub fn separator_of(lines: &[&str]) -> Option<char> {
    for separator in SEPARATORS {
        if are_values(lines, separator) {
            return Some(separator);
        }
    }
    None
}

/// Returns the value with this index.
pub fn value_at(line: &str, separator: char, index: usize) -> Option<&str> {
    let mut values = Values::of(line, separator);
    for _ in 0..index {
        values.take()?;
    }
    values.take()
}

/// Returns the name of a value, which stands before its first `=`: letters, digits, `_`, `-` and `.`.
pub fn name_of_value(value: &str) -> Option<&str> {
    let (name, _) = value.split_once('=')?;
    let is_name = name
        .chars()
        .all(|c| c.is_alphanumeric() || matches!(c, '_' | '-' | '.'));
    (is_name && !name.is_empty()).then_some(name)
}

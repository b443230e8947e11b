//! The names that a log itself gives its columns.

use log_samples::{has_header, value_count};

/// How many columns with names there are at least.
const LEAST_NAMES: usize = 4;

/// One line in this many may have another number of values.
const LINES_FOR_ONE_OTHER: usize = 20;

/// How many lines of text there may be above the names.
const MOST_ABOVE: usize = 3;

/// What may stand between the names below some lines of text.
const SEPARATORS: [char; 4] = ['\t', ',', ';', '|'];

/// What comes before the names in the lines at the front that begin with `#`: of the Extended Log File Format, and of Zeek.
const MARKS: [&str; 2] = ["#Fields:", "#fields"];

/// The names of the columns of a log.
#[derive(Clone, Copy)]
pub(crate) struct Header<'l> {
    /// The names, with the separator between them.
    pub names: &'l str,
    pub separator: char,
}

impl Header<'_> {
    /// Returns whether almost all lines, but those that begin with `#`, have as many values as there are names.
    fn is_for(self, lines: &[&str]) -> bool {
        let count = value_count(self.names, self.separator);
        let mut others = 0usize;
        for line in lines {
            if !line.starts_with('#') && value_count(line, self.separator) != count {
                others = others.saturating_add(1);
            }
        }
        count >= LEAST_NAMES && others <= lines.len() / LINES_FOR_ONE_OTHER
    }
}

/// Returns the header with the names after `#Fields:`.
fn marked_header<'l>(lines: &[&'l str]) -> Option<Header<'l>> {
    for line in lines {
        if !line.starts_with('#') {
            break;
        }
        for mark in MARKS {
            if let Some(names) = line.strip_prefix(mark) {
                let names = names.trim();
                let separator = if names.contains('\t') { '\t' } else { ' ' };
                return Some(Header { names, separator });
            }
        }
    }
    None
}

/// Returns the header in the first of these lines, with one of these separators, if the line is no more than names.
fn header_in<'l>(lines: &[&'l str], separators: &[char]) -> Option<Header<'l>> {
    let names = *lines.first()?;
    for separator in separators {
        let header = Header {
            names,
            separator: *separator,
        };
        if has_header(lines, *separator) && header.is_for(lines) {
            return Some(header);
        }
    }
    None
}

/// Returns the header below some lines of text.
fn header_below_text<'l>(lines: &[&'l str]) -> Option<Header<'l>> {
    for index in 1..MOST_ABOVE.saturating_add(1) {
        let (above, below) = lines.split_at_checked(index)?;
        if let Some(header) = header_in(below, &SEPARATORS)
            && !above.iter().any(|line| header.is_for(&[*line]))
        {
            return Some(header);
        }
    }
    None
}

/// Returns the names that a log gives its columns: after `#Fields:` at the front, in the first line, between blanks, or below some
/// lines of text, between other separators. Almost all lines have as many values as there are names.
pub(crate) fn header_of<'l>(lines: &[&'l str]) -> Option<Header<'l>> {
    let marked = marked_header(lines).filter(|header| header.is_for(lines));
    marked
        .or(header_in(lines, &[' ']))
        .or(header_below_text(lines))
}

//! What the lines of a log are, if another program reads them better than patterns do.
ghost use Rattle.std.specs.Prelude.{◌≡◌, ◌↔◌, IsTrue};
ghost use Rattle.log_samples.specs.Logs.{looks_like_object, AreObjects};

use crate::values::{name_of_value, separator_of, value_at, value_count};

/// One line in this many may be no JSON object.
const LINES_FOR_ONE_NO_OBJECT: usize = 10;

fn has_digit(text: &str) -> bool {
    text.chars().any(|c| c.is_ascii_digit())
}

fn has_digits(lines: &[&str], separator: char, index: usize) -> bool {
    for line in lines {
        if !has_digit(value_at(line, separator, index).unwrap_or("")) {
            return false;
        }
    }
    true
}

/// Returns whether the first line has the names of the values: none of its values has a digit, but in some column all other
/// lines do.
pub fn has_header(lines: &[&str], separator: char) -> bool {
    let Some((first, others)) = lines.split_first() else {
        return false;
    };
    if others.len() < 2 || has_digit(first) {
        return false;
    }
    for index in 0..value_count(first, separator) {
        if has_digits(others, separator, index) {
            return true;
        }
    }
    false
}

/// Returns whether each value of a line has a name.
fn has_names(line: &str, separator: char, columns: usize) -> bool {
    for index in 0..columns {
        let name = match value_at(line, separator, index) {
            Some(value) => name_of_value(value),
            None => None,
        };
        if name.is_none() {
            return false;
        }
    }
    true
}

/// Where values have their names.
#[derive(Clone, Copy, PartialEq, Eq)]
pub enum ValueNames {
    None,
    FirstLine,
    /// Each value stands after its name and `=`.
    EachValue,
}

fn names_of_values(lines: &[&str], separator: char, columns: usize) -> ValueNames {
    if lines.iter().all(|line| has_names(line, separator, columns)) {
        ValueNames::EachValue
    } else if has_header(lines, separator) {
        ValueNames::FirstLine
    } else {
        ValueNames::None
    }
}

/// What lines are, if another program reads them better than patterns do.
#[derive(Clone, Copy, PartialEq, Eq)]
pub enum LogKind {
    Lines,
    Json,
    /// Values between separators.
    Table {
        separator: char,
        columns: usize,
        names: ValueNames,
    },
}

fn is_json(line: &str) -> bool
    ensures { result ≡ looks_like_object line.now }
{
    let text = line.trim();
    let inside = match text.strip_prefix('{') {
        Some(inside) => inside,
        None => return false,
    };
    let is_open = inside.trim_start().starts_with("\"");
    let is_closed = text.ends_with("}");
    is_open && is_closed
}

fn are_objects(lines: &[&str]) -> bool
    ensures { IsTrue result ↔ AreObjects lines.now }
{
    let others = lines.iter().filter(|line| !is_json(line)).count();
    others < lines.len() && others <= lines.len() / LINES_FOR_ONE_NO_OBJECT
}

/// Returns the kind of a log: JSON objects if nine of ten lines look like one, and a table if almost all lines
/// have the same number of values between the same separators.
pub fn kind_of_log(lines: &[&str]) -> LogKind
    ensures { result ≡ LogKind.Json ↔ AreObjects lines.now }
{
    if are_objects(lines) {
        return LogKind::Json;
    }
    match (separator_of(lines), lines.first()) {
        (Some(separator), Some(first)) if separator != '|' => {
            let columns = value_count(first, separator);
            LogKind::Table {
                separator,
                columns,
                names: names_of_values(lines, separator, columns),
            }
        }
        _ => LogKind::Lines,
    }
}

//! The columns of lines that are values between separators, such as comma-separated values.

use crate::align::Template;
use crate::columns::{Column, Content};
use crate::header::Header;
use log_samples::{Cutter, Kind, first_line, name_of_value, value_at, value_count};
use std::alloc::{AllocError, Global};

/// The marks between values and after their names, each as a text.
const MARKS: [(char, &str); 6] = [
    ('\t', "\t"),
    (',', ","),
    (';', ";"),
    ('|', "|"),
    (' ', " "),
    ('=', "="),
];

/// Values between separators.
#[derive(Clone, Copy)]
struct Table<'s, 'l> {
    lines: &'s [&'l str],
    separator: char,
}

impl<'l> Table<'_, 'l> {
    /// Returns the value with this index in a line, or in the first line of an event.
    fn value_in(self, line: &'l str, index: usize) -> Option<&'l str> {
        value_at(first_line(line), self.separator, index)
    }

    /// Returns how many values the first line has.
    fn len(self) -> usize {
        match self.lines.first() {
            Some(first) => value_count(first_line(first), self.separator),
            None => 0,
        }
    }

    /// Returns the name that all values with this index have before `=`.
    fn name_at(self, index: usize) -> Option<&'l str> {
        let mut common = None;
        for line in self.lines {
            if let Some(value) = self.value_in(line, index) {
                let name = name_of_value(value)?;
                if let Some(before) = common
                    && before != name
                {
                    return None;
                }
                common = Some(name);
            }
        }
        common
    }

    /// Returns the column of the values with this index, without their name if they have one.
    fn column(
        self,
        cutter: &mut Cutter<'_>,
        index: usize,
        name: Option<&str>,
    ) -> Result<Column<'l>, AllocError> {
        let mut kind = None;
        let content = if self.separator == ',' {
            Content::Value
        } else {
            Content::Gap
        };
        let mut column = Column::new(content);
        let name_len = name.map_or(0, |name| name.len().saturating_add(1));
        for line in self.lines {
            let Some(value) = self.value_in(line, index) else {
                continue;
            };
            let value = value.get(name_len..).unwrap_or("");
            let next = match cutter.cut(value)?.as_slice() {
                [token] => token.kind,
                _ => Kind::Rest,
            };
            kind = match kind {
                Some(so_far) if so_far != next => Some(Kind::Rest),
                _ => Some(next),
            };
            column.add(value);
        }
        if let Some(Kind::Known(known)) = kind {
            column.content = Content::Token(Kind::Known(known));
        }
        Ok(column)
    }
}

/// Returns the lines that have as many values as the header has names, but not the header itself.
fn lines_below<'l>(
    alloc: Global,
    lines: &[&'l str],
    header: Header<'l>,
) -> Result<Vec<&'l str>, AllocError> {
    let Header { names, separator } = header;
    let count = value_count(names, separator);
    let mut below = Vec::new(alloc);
    for line in lines {
        if *line != names && value_count(line, separator) == count {
            below.push(*line)?;
        }
    }
    Ok(below)
}

/// Returns the template of lines that have columns with names. The lines may be among them that the names stand in or below.
pub(crate) fn template_of_named<'l>(
    alloc: Global,
    cutter: &mut Cutter<'_>,
    lines: &[&'l str],
    header: Header<'l>,
) -> Result<Template<'l>, AllocError> {
    let Header { names, separator } = header;
    let lines = lines_below(alloc, lines, header)?;
    let table = Table {
        lines: &lines,
        separator,
    };
    let mut columns = Vec::new(alloc);
    for index in 0..table.len() {
        if index > 0 {
            columns.push(mark_column(separator))?;
        }
        let mut column = table.column(cutter, index, None)?;
        column.name = value_at(names, separator, index).map(|name| name.trim().trim_matches('"'));
        columns.push(column)?;
    }
    Ok(template_with(columns))
}

/// Returns the template of lines that are values between separators. Each value is a column, and none of them is literal, but for
/// a name that all of them have before `=`.
pub(crate) fn template_of_values<'l>(
    alloc: Global,
    cutter: &mut Cutter<'_>,
    lines: &[&'l str],
    separator: char,
) -> Result<Template<'l>, AllocError> {
    let table = Table { lines, separator };
    let mut columns = Vec::new(alloc);
    for index in 0..table.len() {
        if index > 0 {
            columns.push(mark_column(separator))?;
        }
        let name = table.name_at(index);
        if let Some(name) = name {
            columns.push(name_column(name))?;
            columns.push(mark_column('='))?;
        }
        columns.push(table.column(cutter, index, name)?)?;
    }
    Ok(template_with(columns))
}

fn template_with<'l>(columns: Vec<Column<'l>>) -> Template<'l> {
    Template {
        columns,
        has_rest: false,
        has_pairs: false,
        blanks: None,
    }
}

/// Returns the column of a name that all lines have before `=`.
fn name_column<'l>(name: &'l str) -> Column<'l> {
    let mut column = Column::new(Content::Token(Kind::Word));
    column.add(name);
    column.is_name = true;
    column
}

fn mark_column<'l>(mark: char) -> Column<'l> {
    let mut column = Column::new(Content::Token(Kind::Mark(mark)));
    for (known, text) in MARKS {
        if known == mark {
            column.add(text);
        }
    }
    column
}

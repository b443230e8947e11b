//! Writes patterns.

use crate::align::Template;
use crate::columns::{Column, Content};
use crate::names::{is_open, key_of};
use grok::Grok;
use log_samples::{Kind, Known, Meaning, known_definition, literal};
use std::alloc::{AllocError, Global};
use std::collections::BTreeMap;

/// How the rest of the lines is written.
#[derive(Clone, Copy)]
pub(crate) enum RestForm {
    /// After blanks.
    AfterBlanks,
    /// After blanks, or not at all.
    Optional,
    /// Directly after the last column.
    Joined,
}

/// The end of a pattern for events: the lines after the first one.
const MORE_LINES: &str = "(?:\\n(?<more>(?s:.*)))?";

/// What stands around the columns of a template.
#[derive(Drop)]
pub(crate) struct Frame {
    /// The definition with which the lines begin, or `None` if they begin with the first column.
    pub head: Option<String>,
    /// The keys of the definition `head`.
    pub keys: Vec<String>,
    /// Whether the lines are the first ones of events.
    pub are_events: bool,
}

/// Returns the pattern for lines, or for the first lines of events, that this definition matches whole.
pub(crate) fn whole_pattern(
    alloc: Global,
    name: &str,
    are_events: bool,
) -> Result<String, AllocError> {
    let more = if are_events { MORE_LINES } else { "" };
    format!(in alloc; "^%{{{name}}}{more}$")
}

/// A definition, and its text for a library that doesn't have it.
#[derive(Clone, Copy)]
struct Value {
    name: &'static str,
    definition: &'static str,
}

const INTEGER: Value = Value {
    name: "INT",
    definition: "[+-]?[0-9]+",
};

const NUMBER: Value = Value {
    name: "NUMBER",
    definition: "[+-]?[0-9]+(?:\\.[0-9]+)?",
};

const WORD: Value = Value {
    name: "WORD",
    definition: "\\w+",
};

const DATA: Value = Value {
    name: "DATA",
    definition: ".*?",
};

const CSVVALUE: Value = Value {
    name: "CSVVALUE",
    definition: "(?:\"(?:[^\"]|\"\")*\"|[^,\"]*)",
};

const NOTSPACE: Value = Value {
    name: "NOTSPACE",
    definition: "\\S+",
};

const GREEDYDATA: Value = Value {
    name: "GREEDYDATA",
    definition: ".*",
};

/// Writes the text of a pattern.
#[derive(Drop)]
struct TextWriter<'g> {
    alloc: Global,
    grok: &'g Grok,
    text: String,
    /// The keys so far, each with the last number that was appended to it to make another key, or else 1.
    keys: BTreeMap<String, usize>,
}

impl TextWriter<'_> {
    /// Returns the first key, `base` with a number after `last`, that no placeholder has yet, and that number.
    fn numbered_key(&self, base: &str, last: usize) -> Result<(String, usize), AllocError> {
        let mut number = last.saturating_add(1);
        let mut key = format!(in self.alloc; "{base}{number}")?;
        let end = number.saturating_add(self.keys.len());
        for next in number.saturating_add(1)..end.saturating_add(2) {
            if self.keys.get(key.as_str()).is_none() {
                break;
            }
            number = next;
            key = format!(in self.alloc; "{base}{next}")?;
        }
        Ok((key, number))
    }

    /// Returns a key that no placeholder has yet: `base`, `base2`, `base3` or the like.
    fn new_key(&mut self, base: &str) -> Result<String, AllocError> {
        let own = String::from_str(self.alloc, base)?;
        let Some(last) = self.keys.get(base).copied() else {
            self.keys.insert(own.clone()?, 1)?;
            return Ok(own);
        };
        let (key, number) = self.numbered_key(base, last)?;
        self.keys.insert(own, number)?;
        self.keys.insert(key.clone()?, 1)?;
        Ok(key)
    }

    /// Writes the definition with which the lines begin. Its keys are taken.
    fn push_head(&mut self, frame: &Frame) -> Result<(), AllocError> {
        for key in &frame.keys {
            self.keys.insert(key.clone()?, 1)?;
        }
        if let Some(name) = &frame.head {
            let placeholder = format!(in self.alloc; "%{{{name}}}")?;
            self.text.push_str(placeholder.as_str())?;
        }
        Ok(())
    }

    /// Returns a text as a key: characters that keys don't have become `_`, but none at the end.
    fn key_text(&self, text: &str) -> Result<String, AllocError> {
        let mut key = String::new(self.alloc);
        for c in text
            .trim_end_matches(|c: char| !c.is_ascii_alphanumeric())
            .chars()
        {
            let is_kept = c.is_ascii_alphanumeric() || matches!(c, '_' | '-' | '.');
            key.push(if is_kept { c } else { '_' })?;
        }
        if key.is_empty() {
            key.push_str("field")?;
        }
        Ok(key)
    }

    /// Writes a placeholder. `extract` is empty, or an extract with its colon, such as `:int`.
    fn push_placeholder(
        &mut self,
        value: &Value,
        base: &str,
        extract: &str,
    ) -> Result<(), AllocError> {
        let Value { name, definition } = *value;
        let base = self.key_text(base)?;
        let key = self.new_key(base.as_str())?;
        let placeholder = if self.grok.definition(name).is_some() {
            format!(in self.alloc; "%{{{name}:{key}{extract}}}")?
        } else {
            format!(in self.alloc; "%{{{name}:{key}{extract}={definition}}}")?
        };
        self.text.push_str(placeholder.as_str())
    }

    /// Writes the placeholder of a number, with an extract if the numbers of the column lose nothing by it.
    fn push_number(&mut self, column: &Column<'_>, base: &str) -> Result<(), AllocError> {
        if column.are_integers {
            self.push_placeholder(&INTEGER, base, ":int")
        } else if column.are_decimals {
            self.push_placeholder(&NUMBER, base, ":float")
        } else {
            self.push_placeholder(&NUMBER, base, "")
        }
    }

    /// Writes a text that all lines have. A `%` at its end stands in a class, so that no placeholder begins with it.
    fn push_literal(&mut self, text: &str) -> Result<(), AllocError> {
        let Some(before) = text.strip_suffix('%') else {
            let text = literal(self.alloc, text)?;
            return self.text.push_str(text.as_str());
        };
        let before = literal(self.alloc, before)?;
        self.text.push_str(before.as_str())?;
        self.text.push_str("[%]")
    }

    /// Writes the blanks at this index. Those between a mark and a number are padding, which a longer number doesn't
    /// have.
    fn push_blanks_at(
        &mut self,
        columns: &[Column<'_>],
        index: usize,
        column: &Column<'_>,
    ) -> Result<(), AllocError> {
        let is_one = column.are_same && column.first == Some(" ");
        let before = index.checked_sub(1).and_then(|index| columns.get(index));
        let is_after_mark = match before.map(|before| before.content) {
            Some(Content::Token(Kind::Mark(_))) | None => true,
            _ => false,
        };
        let next = columns.get(index.saturating_add(1));
        let is_before_number = next.is_some_and(|next| next.is_number());
        let mut padding = *column;
        padding.has_empty = column.has_empty || (!is_one && is_after_mark && is_before_number);
        self.push_blanks(&padding)
    }

    fn push_blanks(&mut self, column: &Column<'_>) -> Result<(), AllocError> {
        let is_one = column.are_same && column.first == Some(" ");
        self.text
            .push_str(match (column.are_spaces, column.has_empty, is_one) {
                (true, false, true) => " ",
                (true, false, false) => " +",
                (true, true, _) => " *",
                (false, false, _) => "\\s+",
                (false, true, _) => "\\s*",
            })
    }

    fn push_column(&mut self, columns: &[Column<'_>], index: usize) -> Result<(), AllocError> {
        let Some(column) = columns.get(index) else {
            return Ok(());
        };
        if let Some(text) = column.literal() {
            return self.push_literal(text);
        }
        match column.content {
            Content::Token(Kind::Blank) => self.push_blanks_at(columns, index, column),
            Content::Pairs => self.push_pairs(column),
            Content::Token(Kind::Known(known)) => self.push_known(columns, index, known),
            _ => self.push_text(columns, index, column),
        }
    }

    /// Writes the column at this index, which has texts that no definition recognizes.
    fn push_text(
        &mut self,
        columns: &[Column<'_>],
        index: usize,
        column: &Column<'_>,
    ) -> Result<(), AllocError> {
        let has_words = column.content == Content::Token(Kind::Word) && column.are_words;
        let are_words = has_words && !column.may_change;
        let own = if are_words { "word" } else { "field" };
        let key = key_of(self.alloc, columns, index, own)?;
        let value = if are_words && !is_open(key.as_str()) {
            WORD
        } else if column.content == Content::Value {
            CSVVALUE
        } else if column.has_blanks || column.has_empty || is_before_mark(columns, index) {
            DATA
        } else {
            NOTSPACE
        };
        self.push_placeholder(&value, key.as_str(), "")
    }

    /// Writes pairs that aren't cut into names and values.
    fn push_pairs(&mut self, column: &Column<'_>) -> Result<(), AllocError> {
        self.text
            .push_str(if column.has_empty { "(?:" } else { "" })?;
        self.push_placeholder(&DATA, "pairs", "")?;
        self.text
            .push_str(if column.has_empty { " +)?" } else { " +" })
    }

    /// Writes the column at this index, which has what this definition recognizes.
    fn push_known(
        &mut self,
        columns: &[Column<'_>],
        index: usize,
        known: usize,
    ) -> Result<(), AllocError> {
        let Known { name, key, meaning } = known_definition(known);
        let key = key_of(self.alloc, columns, index, key)?;
        match columns.get(index) {
            Some(column) if meaning == Meaning::Number => self.push_number(column, key.as_str()),
            _ => {
                let value = Value {
                    name,
                    definition: ".*?",
                };
                self.push_placeholder(&value, key.as_str(), "")
            }
        }
    }

    /// Writes what comes after the columns.
    fn push_rest(&mut self, template: &Template<'_>, form: RestForm) -> Result<(), AllocError> {
        let blanks = &template.blanks;
        let key = if template.has_pairs {
            "pairs"
        } else {
            "message"
        };
        if let (RestForm::Joined, _) | (_, None) = (form, blanks) {
            return self.push_placeholder(&GREEDYDATA, key, "");
        }
        let is_optional = matches!(form, RestForm::Optional);
        self.text.push_str(if is_optional { "(?:" } else { "" })?;
        if let Some(blanks) = blanks {
            self.push_blanks(blanks)?;
        }
        self.push_placeholder(&GREEDYDATA, key, "")?;
        self.text.push_str(if is_optional { ")?" } else { "" })
    }
}

fn is_before_mark(columns: &[Column<'_>], index: usize) -> bool {
    match columns.get(index.saturating_add(1)) {
        Some(next) => match next.content {
            Content::Token(Kind::Mark(mark)) => mark != ' ',
            _ => false,
        },
        None => false,
    }
}

pub(crate) fn pattern_text(
    alloc: Global,
    grok: &Grok,
    template: &Template<'_>,
    form: RestForm,
    frame: &Frame,
) -> Result<String, AllocError> {
    let mut writer = TextWriter {
        alloc,
        grok,
        text: String::from_str(alloc, "^")?,
        keys: BTreeMap::new(alloc),
    };
    writer.push_head(frame)?;
    for index in 0..template.columns.len() {
        writer.push_column(&template.columns, index)?;
    }
    if template.has_rest {
        writer.push_rest(template, form)?;
    }
    if frame.are_events {
        writer.text.push_str(MORE_LINES)?;
    }
    writer.text.push('$')?;
    let TextWriter { text, .. } = writer;
    Ok(text)
}

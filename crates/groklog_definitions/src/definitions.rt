//! Reads definitions from the lines of a file, and from the words after `-D`.
ghost use Rattle.std.specs.Prelude.{◌≡◌, option_map};
ghost use Rattle.groklog_definitions.specs.DefinitionTexts.{definition_of};
ghost use Rattle.groklog_definitions.specs.Origins.{is_own};

use crate::definition::{read_definition, skip_blanks};
use std::alloc::AllocError;
use std::fmt;

/// Where a definition was given.
#[derive(Clone, Copy)]
pub enum Origin<'a> {
    /// It is one of the default definitions.
    Default,
    /// It is one of the common definitions.
    Common,
    /// It is on the line `number` of the file `file`. Lines are counted from 1.
    Line { file: &'a str, number: u64 },
    /// It is a word after `-D`.
    Word,
}

impl Origin<'_> {
    /// Returns whether a definition is one of the user's, and not built in.
    pub fn is_own(self) -> bool
        ensures { result ≡ is_own self.entry }
    {
        matches!(self, Origin::Line { .. } | Origin::Word)
    }
}

impl fmt::Display for Origin<'_> {
    fn fmt<W: fmt::Write>(&self, f: &mut fmt::Formatter<W>) -> fmt::Result {
        match self {
            Origin::Default => f.write_str("a default definition"),
            Origin::Common => f.write_str("a common definition"),
            Origin::Line { file, number } => write!(f, "{file}:{number}"),
            Origin::Word => f.write_str("-D"),
        }
    }
}

/// A name, its definition, and where it was given.
#[derive(Clone, Copy)]
pub struct Definition<'a> {
    pub name: &'a str,
    pub text: &'a str,
    pub origin: Origin<'a>,
}

fn without_return(line: &str) -> &str {
    line.strip_suffix('\r').unwrap_or(line)
}

/// Comments and empty lines are skipped. The line has no blanks at its start.
fn is_skipped(line: &str) -> bool {
    line.is_empty() || line.starts_with('#')
}

/// Returns the text of a file without the byte order mark at its start, which some editors on Windows
/// write.
pub fn without_mark(text: &str) -> &str {
    text.strip_prefix('\u{feff}').unwrap_or(text)
}

/// Appends the definitions in the text of a file to `found`. If a line is neither a definition nor
/// skipped, stops there, and returns where the line is, and the line without the blanks that it
/// begins with.
pub fn read_file<'a>(
    found: &mut Vec<Definition<'a>>,
    file: &'a str,
    text: &'a str,
) -> Result<Option<(Origin<'a>, &'a str)>, AllocError> {
    let text = without_mark(text);
    let mut number = 0u64;
    for line in text.split('\n') {
        number = number.saturating_add(1);
        let line = skip_blanks(without_return(line));
        if is_skipped(line) {
            continue;
        }
        let origin = Origin::Line { file, number };
        match read_definition(line) {
            Some((name, text)) => found.push(Definition { name, text, origin })?,
            None => return Ok(Some((origin, line))),
        }
    }
    Ok(None)
}

/// Reads a word after `-D`, such as `NAME=DEF`, as a definition. Returns `None` if it isn't one.
pub fn read_word(word: &str) -> Option<Definition<'_>>
    ensures { option_map (λ definition. (definition.name.now, definition.text.now)) result
        ≡ definition_of word.now }
{
    let (name, text) = read_definition(word)?;
    let origin = Origin::Word;
    Some(Definition { name, text, origin })
}

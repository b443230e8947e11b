//! Cuts lines into tokens: what definitions recognize, words, blanks, and marks.
ghost use Rattle.std.specs.Prelude.{◌≡◌, IfOk};
ghost use Rattle.log_samples.specs.Tokens.{joined};

use crate::recognizer::{Meaning, Recognized, RecognizerSearch, known_definition};
use std::alloc::{AllocError, Global};

/// How many tokens are cut from a line at most. The rest of the line is one more token.
const MOST_TOKENS: usize = 200;

/// How many bytes of a line are cut into tokens. The rest of the line is one more token.
const MOST_BYTES: usize = 4096;

/// The units that may follow a number directly, as in `12ms`. Other letters after a digit belong to names, such as `12b`.
const UNITS: [&str; 20] = [
    "%", "ns", "us", "µs", "ms", "s", "sec", "min", "B", "kB", "KB", "MB", "GB", "TB", "KiB",
    "MiB", "GiB", "K", "M", "G",
];

/// What a token is.
#[derive(Clone, Copy, PartialEq, Eq)]
pub enum Kind {
    /// What the definition with this index recognizes, which [`known_definition`] returns.
    Known(usize),
    /// Characters that are neither blanks nor marks.
    Word,
    /// Blanks of any kind.
    Blank,
    /// A bracket, a quote, or a character that often separates fields.
    Mark(char),
    /// The rest of a line that has too many tokens.
    Rest,
}

/// A part of a line.
#[derive(Clone, Copy)]
pub struct LineToken<'l> {
    pub kind: Kind,
    pub text: &'l str,
}

/// Returns the kind of the token that a character belongs to, if no definition recognizes it.
fn kind_of(c: char) -> Kind {
    match c {
        '[' | ']' | '(' | ')' | '{' | '}' | '<' | '>' => Kind::Mark(c),
        '"' | '\'' | '=' | ',' | ';' | '|' | ':' => Kind::Mark(c),
        _ if c.is_whitespace() => Kind::Blank,
        _ => Kind::Word,
    }
}

/// Returns how many bytes at the start of a text have this kind.
fn run_len(text: &str, kind: Kind) -> usize {
    let mut len = 0usize;
    for c in text.chars() {
        if kind_of(c) != kind {
            break;
        }
        len = len.saturating_add(c.len_utf8());
    }
    len
}

/// Returns the kind and the length in bytes of the token that a text begins with, if no definition
/// recognizes it.
fn plain_token(text: &str) -> (Kind, usize) {
    let Some(first) = text.chars().next() else {
        return (Kind::Word, 0);
    };
    match kind_of(first) {
        Kind::Mark(c) => (Kind::Mark(c), c.len_utf8()),
        kind => (kind, run_len(text, kind)),
    }
}

/// Returns whether a word goes on at this byte position of a line.
fn is_in_word(line: &str, at: usize) -> bool {
    let rest = line.get(at..).unwrap_or("");
    match rest.chars().next() {
        Some(c) => kind_of(c) == Kind::Word,
        None => false,
    }
}

/// Returns whether the word at this byte position of a line is a unit of the number before it.
fn is_unit(line: &str, at: usize) -> bool {
    let rest = line.get(at..).unwrap_or("");
    let word = rest.get(..run_len(rest, Kind::Word)).unwrap_or("");
    UNITS.iter().any(|unit| *unit == word)
}

/// Returns whether a part of a line is a level in capitals.
fn is_capital_level(line: &str, found: Recognized) -> bool {
    let text = line.get(found.start..found.end).unwrap_or("");
    known_definition(found.known).meaning == Meaning::Level
        && text.chars().all(|c| c.is_ascii_uppercase())
}

/// Returns the mark at this byte position of a line that may stand beside a level, as in `app.INFO` and `INFO/main`.
fn level_mark(line: &str, at: usize) -> Option<char> {
    let rest = line.get(at..)?;
    rest.chars().next().filter(|c| matches!(c, '.' | '/'))
}

/// Returns how many bytes of a word stand before the dot or slash after which it has only letters in capitals.
fn len_before_capitals(word: &str) -> Option<usize> {
    let capitals = word
        .as_bytes()
        .iter()
        .rev()
        .take_while(|b| b.is_ascii_uppercase())
        .count();
    let before = word.len().checked_sub(capitals)?.checked_sub(1)?;
    (capitals > 0 && level_mark(word, before).is_some()).then_some(before)
}

/// Returns whether a part of a line is the name of a value: letters before `=`.
fn is_name(line: &str, found: Recognized) -> bool {
    let text = line.get(found.start..found.end).unwrap_or("");
    let rest = line.get(found.end..).unwrap_or("");
    rest.starts_with('=') && text.chars().all(|c| c.is_alphabetic())
}

/// Returns the part of a line that is cut into tokens.
fn part_looked_at(line: &str) -> &str {
    for len in [MOST_BYTES, MOST_BYTES - 1, MOST_BYTES - 2, MOST_BYTES - 3] {
        if let Some(part) = line.get(..len) {
            return part;
        }
    }
    line
}

/// Cuts lines into tokens.
#[derive(Drop)]
pub struct Cutter<'r> {
    alloc: Global,
    search: RecognizerSearch<'r>,
    /// The next part of the line that a definition recognizes.
    next: Option<Recognized>,
    /// The byte position after the last level in capitals.
    level_end: Option<usize>,
}

impl<'r> Cutter<'r> {
    /// Makes a cutter that uses this search.
    pub fn new(alloc: Global, search: RecognizerSearch<'r>) -> Cutter<'r> {
        Cutter {
            alloc,
            search,
            next: None,
            level_end: None,
        }
    }

    /// Returns what a definition recognizes at this byte position of the line. It has to end where no
    /// word goes on, or the word is the unit of a number, or a slash follows a level. What is the name of a value
    /// isn't recognized.
    fn recognized(&mut self, line: &str, at: usize) -> Option<Recognized> {
        if let Some(next) = self.next
            && next.start < at
        {
            self.next = self.search.find(line, at);
        }
        let next = self.next?;
        if next.start != at || next.end <= at || is_name(line, next) {
            return None;
        }
        let is_number = known_definition(next.known).meaning == Meaning::Number;
        let has_slash = is_capital_level(line, next) && level_mark(line, next.end) == Some('/');
        let has_unit = is_number && is_unit(line, next.end);
        let is_whole = !is_in_word(line, next.end) || has_unit || has_slash;
        is_whole.then_some(next)
    }

    /// Returns the kind and the length in bytes of the token at this byte position of the line.
    fn token_at(&mut self, line: &str, at: usize) -> (Kind, usize) {
        if let Some(found) = self.recognized(line, at) {
            self.level_end = is_capital_level(line, found).then_some(found.end);
            return (Kind::Known(found.known), found.end.saturating_sub(at));
        }
        if self.level_end == Some(at)
            && let Some(mark) = level_mark(line, at)
        {
            return (Kind::Mark(mark), 1);
        }
        let (kind, len) = plain_token(line.get(at..).unwrap_or(""));
        match self.word_before_level(line, at, len) {
            Some(token) if kind == Kind::Word => token,
            _ => (kind, len),
        }
    }

    /// Returns the token at this byte position of the line if the word of this length ends with a dot or a slash and
    /// a level: the part of the word before the mark, or the mark itself.
    fn word_before_level(&mut self, line: &str, at: usize, len: usize) -> Option<(Kind, usize)> {
        let end = at.saturating_add(len);
        let before = len_before_capitals(line.get(at..end)?)?;
        let start = at.saturating_add(before).saturating_add(1);
        let level = self.search.find(line, start)?;
        if level.start != start || level.end != end || !is_capital_level(line, level) {
            return None;
        }
        if before > 0 {
            return Some((Kind::Word, before));
        }
        Some((Kind::Mark(level_mark(line, at)?), 1))
    }

    /// Cuts a line. Nothing of it is lost: the tokens, one after another, are the line.
    pub fn cut<'l>(&mut self, line: &'l str) -> Result<Vec<LineToken<'l>>, AllocError>
        ensures { IfOk result (λ tokens. joined tokens.items ≡ line.now) }
    {
        let part = part_looked_at(line);
        self.next = self.search.find(part, 0);
        self.level_end = None;
        let mut tokens = Vec::new(self.alloc);
        let mut rest = line;
        'tokens: for _ in 0..MOST_TOKENS {
            if rest.is_empty() {
                return Ok(tokens);
            }
            let at = line.len().saturating_sub(rest.len());
            let (kind, len) = self.token_at(part, at);
            if len == 0 {
                break;
            }
            let Some((text, after)) = rest.split_at_checked(len) else {
                break;
            };
            tokens.push(LineToken { kind, text })?;
            rest = after;
        }
        let kind = Kind::Rest;
        tokens.push(LineToken { kind, text: rest })?;
        Ok(tokens)
    }
}

//! What the lines of a group have in common, column by column.

use crate::names::Hints;
use log_samples::{Kind, Meaning, known_definition};

/// What a column has in each line.
#[derive(Clone, Copy, PartialEq, Eq)]
pub(crate) enum Content {
    /// A token of this kind.
    Token(Kind),
    /// Any number of tokens.
    Gap,
    /// A value between commas.
    Value,
    /// Pairs of names and values, with other names in other lines.
    Pairs,
}

/// What the texts of a column have in common.
#[derive(Clone, Copy)]
pub(crate) struct Column<'l> {
    pub content: Content,
    /// The text of the first line that was added, or `None` if none was.
    pub first: Option<&'l str>,
    /// Whether all texts are equal.
    pub are_same: bool,
    /// Whether each text has letters, digits and `_` alone, and at least one of them.
    pub are_words: bool,
    /// Whether a text is empty.
    pub has_empty: bool,
    /// Whether a text has blanks.
    pub has_blanks: bool,
    /// Whether each text has nothing but spaces.
    pub are_spaces: bool,
    /// Whether each text is an integer that keeps its digits if it is read as a number.
    pub are_integers: bool,
    /// Whether each text is a decimal number that keeps its digits before the point.
    pub are_decimals: bool,
    /// Whether `=` comes after it, so that it is the name of a value.
    pub is_name: bool,
    /// The key that its texts suggest.
    hints: Hints,
    /// The name that the log itself gives the column.
    pub name: Option<&'l str>,
    /// Whether other lines may have another text here, even if all of these lines have the same: the word after a
    /// time, where many logs have the name of a host, or a value between separators.
    pub may_change: bool,
}

/// How many digits an integer has at most, so that it is one of 64 bits.
const MOST_DIGITS: usize = 18;

fn is_word(text: &str) -> bool {
    !text.is_empty() && text.chars().all(|c| c.is_alphanumeric() || c == '_')
}

/// Returns whether a word may be the same in other lines, on other days and on other hosts: it has neither a digit nor
/// a dot inside, which numbers, versions and names of hosts have.
fn is_lasting(word: &str) -> bool {
    let inside = word.trim_end_matches('.');
    !inside.chars().any(|c| c.is_ascii_digit() || c == '.')
}

fn is_integer(text: &str) -> bool {
    let digits = text.strip_prefix('-').unwrap_or(text);
    let has_zeros = digits.len() > 1 && digits.starts_with('0');
    !digits.is_empty()
        && digits.len() <= MOST_DIGITS
        && !has_zeros
        && digits.chars().all(|c| c.is_ascii_digit())
}

fn is_decimal(text: &str) -> bool {
    match text.split_once('.') {
        Some((before, after)) => {
            is_integer(before) && !after.is_empty() && after.chars().all(|c| c.is_ascii_digit())
        }
        None => is_integer(text),
    }
}

impl<'l> Column<'l> {
    pub(crate) fn new(content: Content) -> Column<'l> {
        Column {
            content,
            first: None,
            are_same: true,
            are_words: true,
            has_empty: false,
            has_blanks: false,
            are_spaces: true,
            are_integers: true,
            are_decimals: true,
            is_name: false,
            name: None,
            hints: Hints::new(),
            may_change: false,
        }
    }

    /// Adds the text of a line, which may be the first token of a gap.
    pub(crate) fn add(&mut self, text: &'l str) {
        self.hints.add(text);
        self.add_token(text);
    }

    /// Adds a text, or a further token of a gap. What the column states about equal texts isn't true any more then.
    pub(crate) fn add_token(&mut self, text: &'l str) {
        let first = self.first.unwrap_or(text);
        self.first = Some(first);
        self.are_same = self.are_same && first == text;
        self.are_words = self.are_words && is_word(text);
        self.has_empty = self.has_empty || text.is_empty();
        self.has_blanks = self.has_blanks || text.chars().any(|c| c.is_whitespace());
        self.are_spaces = self.are_spaces && text.chars().all(|c| c == ' ');
        self.are_integers = self.are_integers && is_integer(text);
        self.are_decimals = self.are_decimals && is_decimal(text);
    }

    /// Returns the text of the column if it is written in a pattern as it is: a mark, or a word that
    /// all lines have and that hardly changes with the day and the host. The name of a value is such a word.
    pub(crate) fn literal(&self) -> Option<&'l str> {
        match self.content {
            Content::Token(Kind::Mark(_)) => self.first,
            Content::Token(Kind::Word) => {
                let first = self.first?;
                let has_letters = first.chars().any(|c| c.is_alphanumeric());
                let may_change = self.may_change && has_letters;
                let is_lasting = self.is_name || (!may_change && is_lasting(first));
                (self.are_same && is_lasting).then_some(first)
            }
            _ => None,
        }
    }

    /// Returns whether the column has words that aren't written as they are.
    pub(crate) fn is_open_word(&self) -> bool {
        self.content == Content::Token(Kind::Word) && self.literal().is_none()
    }

    /// Joins the column before this one to this one, which is a gap.
    pub(crate) fn join(&mut self, before: Column<'l>) {
        self.first = before.first;
        self.hints = before.hints;
        self.has_empty = self.has_empty && before.has_empty;
        self.has_blanks = self.has_blanks || before.has_blanks;
    }

    /// Returns whether lines hardly have such a column at the same position by chance.
    pub(crate) fn is_firm(&self) -> bool {
        matches!(self.content, Content::Token(Kind::Known(_))) || self.literal().is_some()
    }

    /// Returns the key that the texts of the column suggest.
    pub(crate) fn hinted_key(&self) -> Option<&'static str> {
        self.hints.key()
    }

    /// Returns the meaning of what a definition recognizes in the column.
    fn meaning(&self) -> Option<Meaning> {
        match self.content {
            Content::Token(Kind::Known(known)) => Some(known_definition(known).meaning),
            _ => None,
        }
    }

    pub(crate) fn is_time(&self) -> bool {
        self.meaning() == Some(Meaning::Time)
    }

    pub(crate) fn is_date(&self) -> bool {
        self.meaning() == Some(Meaning::Date)
    }

    pub(crate) fn is_level(&self) -> bool {
        self.meaning() == Some(Meaning::Level)
    }

    pub(crate) fn is_number(&self) -> bool {
        self.meaning() == Some(Meaning::Number)
    }

    pub(crate) fn is_address(&self) -> bool {
        self.meaning() == Some(Meaning::Address)
    }

    /// Returns whether the column has texts that no definition recognizes.
    pub(crate) fn is_text(&self) -> bool {
        matches!(
            self.content,
            Content::Token(Kind::Word) | Content::Gap | Content::Value
        )
    }

    /// Returns whether the column has times or levels, whose keys a word before them doesn't change.
    pub(crate) fn has_own_name(&self) -> bool {
        self.is_time() || self.is_level()
    }

    /// Returns whether a definition recognizes the texts of this column.
    pub(crate) fn is_known(&self) -> bool {
        matches!(self.content, Content::Token(Kind::Known(_)))
    }

    pub(crate) fn is_mark(&self, mark: char) -> bool {
        self.content == Content::Token(Kind::Mark(mark))
    }

    pub(crate) fn is_blank(&self) -> bool {
        self.content == Content::Token(Kind::Blank)
    }
}

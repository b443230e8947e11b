//! The tokens of a text in Oniguruma's syntax, and how each of them is spelled.

ghost use Rattle.std.specs.Prelude.{◌≡◌};

use std::ops::Range;

/// How a group begins that has no name and no flags.
#[derive(Clone, Copy, PartialEq, Eq)]
pub enum Opening {
    /// `(`: a group that captures, unless the text has groups with names.
    Capture,
    /// `(?:`: a group that doesn't capture.
    Plain,
    /// `(?>`: once it has matched, nothing else is tried inside it.
    Atomic,
    /// `(?=`: what follows has to match it.
    Ahead,
    /// `(?!`: what follows must not match it.
    NotAhead,
    /// `(?<=`: what comes before has to match it.
    Behind,
    /// `(?<!`: what comes before must not match it.
    NotBehind,
    /// `(?~`: any text in which it doesn't match.
    Absent,
    /// `(?(`: a condition.
    Condition,
    /// `(?` before anything else.
    Unknown,
}

/// How much a quantifier repeats.
#[derive(Clone, Copy, PartialEq, Eq)]
pub enum Greed {
    /// As often as possible first.
    Greedy,
    /// As rarely as possible first.
    Lazy,
    /// As often as possible, and never less often.
    Possessive,
}

/// A mark of a character class.
#[derive(Clone, Copy, PartialEq, Eq)]
pub enum Mark {
    /// `[`
    Open,
    /// `[^`
    NotOpen,
    /// `]`
    Close,
    /// `&&`
    And,
}

/// A form with a text in it that ends at a delimiter.
#[derive(Clone, Copy, PartialEq, Eq)]
pub enum Form {
    /// A comment: `(?#..)`.
    Comment,
    /// The start of a group with a name: `(?<name>`.
    Name,
    /// A property of characters: `\p{..}`.
    Property,
    /// The characters without a property: `\P{..}`.
    NotProperty,
    /// The character with this hexadecimal number: `\x{..}`.
    Code,
}

/// A placeholder, such as `%{INT:n}`, with its parts. A part that is missing is empty.
#[derive(Clone, Copy)]
pub struct Placeholder<'a> {
    pub text: &'a str,
    pub name: &'a str,
    pub alias: &'a str,
    pub extract: &'a str,
    pub definition: &'a str,
    /// Whether there is a `?` before its `}`, which Logstash ignores.
    pub is_trimmed: bool,
}

/// A token of a text.
#[derive(Clone, Copy)]
pub enum Token<'a> {
    /// A placeholder.
    Placeholder(Placeholder<'a>),
    /// A character that stands for itself.
    Char(char),
    /// One of `.`, `^`, `$`, `|` and `)`, outside a class.
    Symbol(char),
    /// A blank that means nothing, because the flag `x` is set.
    Blank(char),
    /// A `#` and what follows it in its line. It means nothing, because the flag `x` is set.
    LineComment(&'a str),
    /// A backslash and a character.
    Escape(char),
    /// The start or the end of a word as `regex` spells it, such as `\b{start}`. It is in texts that were
    /// rewritten before.
    Edge(&'static str),
    /// A character by its number: the start, such as `\x`, the radix of its digits, and the digits.
    Code(&'static str, u32, &'a str),
    /// A form: its start, the text inside it, and its end.
    Enclosed(Form, &'static str, &'a str, &'static str),
    /// The start of a group.
    Open(Opening, &'static str),
    /// `(?`, flags, and `:` if they are for a group, or `)` if they are for what follows.
    Flags(&'a str, &'static str),
    /// One of `*`, `+` and `?`, with what makes it lazy or possessive.
    Quantifier(Greed, &'static str),
    /// `{`, the least and the greatest number of repetitions, and `}`, or `}?` if it is lazy.
    Interval(&'a str, &'static str),
    /// A mark of a character class.
    Class(Mark, &'static str),
    /// A set of characters by its name, inside a class: `[:` or `[:^`, and the name before `:]`.
    Posix(&'static str, &'static str),
    /// A malformed placeholder, and all that follows it.
    Malformed(&'a str),
    /// A part that can't be read: it has a start without an end, or is a backslash before nothing.
    Unread(&'a str),
}

/// A token, and where it stands in the text.
#[derive(Clone, Copy)]
pub struct Node<'a> {
    pub token: Token<'a>,
    /// The byte where it begins.
    pub start: usize,
    /// The byte after it.
    pub end: usize,
    /// Whether the flag `x` is set here.
    pub is_extended: bool,
}

impl Node<'_> {
    /// Returns the byte range of the token.
    pub fn range(&self) -> Range<usize>
        ensures start { result.start ≡ self.now.start }
        ensures end { result.end ≡ self.now.end }
    {
        self.start..self.end
    }

    /// Returns whether the token means nothing: a comment, or a blank where the flag `x` is set.
    pub(crate) fn is_blank(&self) -> bool {
        matches!(
            self.token,
            Token::Blank(_) | Token::LineComment(_) | Token::Enclosed(Form::Comment, _, _, _)
        )
    }
}

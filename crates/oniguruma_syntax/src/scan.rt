//! Reads the token that a text begins with.
ghost use Rattle.std.specs.Prelude.{◌≡◌, ◌++◌, IfSome};
ghost use Rattle.oniguruma_syntax.specs.Spelling.{spelled};

use crate::cut::{split_after, split_counts, split_digits, split_flags, split_line};
use crate::sets::SETS;
use crate::token::{Form, Greed, Mark, Opening, Token};

/// How the next token is read, as the tokens before it decide.
#[derive(Clone, Copy)]
pub(crate) struct Mode {
    /// Whether a character class is open.
    pub is_in_class: bool,
    /// Whether the token before began a class.
    pub is_class_start: bool,
    /// Whether the flag `x` is set, so that blanks and comments mean nothing.
    pub is_extended: bool,
}

/// The forms with a text in them, where each begins, and where it ends.
const ENCLOSED: [(Form, &str, &str); 5] = [
    (Form::Comment, "(?#", ")"),
    (Form::Name, "(?<", ">"),
    (Form::Property, "\\p{", "}"),
    (Form::NotProperty, "\\P{", "}"),
    (Form::Code, "\\x{", "}"),
];

/// The starts of a group. If a spelling begins with another one, it comes before that one.
const OPENINGS: [(Opening, &str); 8] = [
    (Opening::Plain, "(?:"),
    (Opening::Atomic, "(?>"),
    (Opening::Ahead, "(?="),
    (Opening::NotAhead, "(?!"),
    (Opening::Behind, "(?<="),
    (Opening::NotBehind, "(?<!"),
    (Opening::Absent, "(?~"),
    (Opening::Condition, "(?("),
];

/// The starts of a group that no other form begins with.
const OTHER_OPENINGS: [(Opening, &str); 2] = [(Opening::Unknown, "(?"), (Opening::Capture, "(")];

/// The quantifiers of one character. If a spelling begins with another one, it comes before that
/// one.
const QUANTIFIERS: [(Greed, &str); 9] = [
    (Greed::Lazy, "*?"),
    (Greed::Possessive, "*+"),
    (Greed::Greedy, "*"),
    (Greed::Lazy, "+?"),
    (Greed::Possessive, "++"),
    (Greed::Greedy, "+"),
    (Greed::Lazy, "??"),
    (Greed::Possessive, "?+"),
    (Greed::Greedy, "?"),
];

/// The starts of characters by their numbers: the radix of the digits that follow, and how many of
/// them there are at most.
const CODES: [(&str, u32, usize); 3] = [("\\x", 16, 2), ("\\u", 16, 4), ("\\0", 8, 2)];

/// The starts and ends of words that are written for lookarounds.
const EDGES: [&str; 3] = ["\\b{start}", "\\b{start-half}", "\\b{end-half}"];

/// The marks of a class. If a spelling begins with another one, it comes before that one.
const MARKS: [(Mark, &str); 4] = [
    (Mark::NotOpen, "[^"),
    (Mark::Open, "["),
    (Mark::Close, "]"),
    (Mark::And, "&&"),
];

/// A form without an end is unread, with all that follows it.
fn strip_enclosed<'a>(
    text: &'a str,
    form: Form,
    start: &'static str,
    end: &'static str,
) -> Option<(Token<'a>, &'a str)>
    ensures { IfSome result (λ found. text.now ≡ spelled found.0 ++ found.1.now) }
{
    let rest = text.strip_prefix(start)?;
    let Some(len) = rest.find(end) else {
        return Some((Token::Unread(text), ""));
    };
    let (inside, rest) = split_after(rest, len);
    let rest = rest.strip_prefix(end)?;
    Some((Token::Enclosed(form, start, inside, end), rest))
}

fn strip_any_enclosed(text: &str) -> Option<(Token<'_>, &str)>
    ensures { IfSome result (λ found. text.now ≡ spelled found.0 ++ found.1.now) }
{
    for (form, start, end) in ENCLOSED {
        if let Some(found) = strip_enclosed(text, form, start, end) {
            return Some(found);
        }
    }
    None
}

/// A group with a name or flags isn't among these.
fn strip_opening(text: &str) -> Option<(Token<'_>, &str)>
    ensures { IfSome result (λ found. text.now ≡ spelled found.0 ++ found.1.now) }
{
    for (opening, spelling) in OPENINGS {
        if let Some(rest) = text.strip_prefix(spelling) {
            return Some((Token::Open(opening, spelling), rest));
        }
    }
    None
}

/// The text has no other form that begins with a bracket.
fn strip_other_opening(text: &str) -> Option<(Token<'_>, &str)>
    ensures { IfSome result (λ found. text.now ≡ spelled found.0 ++ found.1.now) }
{
    for (opening, spelling) in OTHER_OPENINGS {
        if let Some(rest) = text.strip_prefix(spelling) {
            return Some((Token::Open(opening, spelling), rest));
        }
    }
    None
}

/// These are flags such as `(?i)` or `(?i-m:`.
fn strip_flags(text: &str) -> Option<(Token<'_>, &str)>
    ensures { IfSome result (λ found. text.now ≡ spelled found.0 ++ found.1.now) }
{
    let rest = text.strip_prefix("(?")?;
    let (flags, rest) = split_flags(rest);
    if let Some(rest) = rest.strip_prefix(")") {
        return Some((Token::Flags(flags, ")"), rest));
    }
    let rest = rest.strip_prefix(":")?;
    Some((Token::Flags(flags, ":"), rest))
}

fn strip_group(text: &str) -> Option<(Token<'_>, &str)>
    ensures { IfSome result (λ found. text.now ≡ spelled found.0 ++ found.1.now) }
{
    if let Some(found) = strip_opening(text) {
        return Some(found);
    }
    if let Some(found) = strip_any_enclosed(text) {
        return Some(found);
    }
    if let Some(found) = strip_flags(text) {
        return Some(found);
    }
    strip_other_opening(text)
}

fn strip_quantifier(text: &str) -> Option<(Token<'_>, &str)>
    ensures { IfSome result (λ found. text.now ≡ spelled found.0 ++ found.1.now) }
{
    for (greed, spelling) in QUANTIFIERS {
        if let Some(rest) = text.strip_prefix(spelling) {
            return Some((Token::Quantifier(greed, spelling), rest));
        }
    }
    None
}

/// Returns whether a text of digits and commas is a number, or two with a comma between them, of
/// which one may be missing.
fn are_counts(counts: &str) -> bool {
    match counts.split_once(',') {
        Some((least, most)) => !most.contains(',') && !(least.is_empty() && most.is_empty()),
        None => !counts.is_empty(),
    }
}

/// An interval with a single number is never lazy: a `?` after it is a quantifier of its own.
fn strip_interval(text: &str) -> Option<(Token<'_>, &str)>
    ensures { IfSome result (λ found. text.now ≡ spelled found.0 ++ found.1.now) }
{
    let rest = text.strip_prefix("{")?;
    let (counts, rest) = split_counts(rest);
    if !are_counts(counts) {
        return None;
    }
    if counts.contains(',')
        && let Some(rest) = rest.strip_prefix("}?")
    {
        return Some((Token::Interval(counts, "}?"), rest));
    }
    let rest = rest.strip_prefix("}")?;
    Some((Token::Interval(counts, "}"), rest))
}

/// `\x{..}` isn't among these.
fn strip_code(text: &str) -> Option<(Token<'_>, &str)>
    ensures { IfSome result (λ found. text.now ≡ spelled found.0 ++ found.1.now) }
{
    for (start, radix, most) in CODES {
        if let Some(rest) = text.strip_prefix(start) {
            let (digits, rest) = split_digits(rest, radix, most);
            return Some((Token::Code(start, radix, digits), rest));
        }
    }
    None
}

/// A backslash at the end of the text is unread.
fn strip_escape(text: &str) -> Option<(Token<'_>, &str)>
    ensures { IfSome result (λ found. text.now ≡ spelled found.0 ++ found.1.now) }
{
    let rest = text.strip_prefix("\\")?;
    if rest.is_empty() {
        return Some((Token::Unread(text), rest));
    }
    if let Some(found) = strip_any_enclosed(text) {
        return Some(found);
    }
    if let Some(found) = strip_code(text) {
        return Some(found);
    }
    let mut characters = rest.chars();
    let escaped = characters.next()?;
    Some((Token::Escape(escaped), characters.as_str()))
}

fn strip_edge(text: &str) -> Option<(Token<'_>, &str)>
    ensures { IfSome result (λ found. text.now ≡ spelled found.0 ++ found.1.now) }
{
    for spelling in EDGES {
        if let Some(rest) = text.strip_prefix(spelling) {
            return Some((Token::Edge(spelling), rest));
        }
    }
    None
}

fn strip_character(text: &str) -> Option<(Token<'_>, &str)>
    ensures { IfSome result (λ found. text.now ≡ spelled found.0 ++ found.1.now) }
{
    let mut characters = text.chars();
    let first = characters.next()?;
    Some((Token::Char(first), characters.as_str()))
}

/// Outside a class some characters have a meaning.
fn strip_symbol(text: &str) -> Option<(Token<'_>, &str)>
    ensures { IfSome result (λ found. text.now ≡ spelled found.0 ++ found.1.now) }
{
    let mut characters = text.chars();
    let first = characters.next()?;
    let token = if matches!(first, '.' | '^' | '$' | '|' | ')') {
        Token::Symbol(first)
    } else {
        Token::Char(first)
    };
    Some((token, characters.as_str()))
}

/// These are names of sets such as `[:alpha:]`.
fn strip_posix<'a>(text: &'a str, start: &'static str) -> Option<(Token<'a>, &'a str)>
    ensures { IfSome result (λ found. text.now ≡ spelled found.0 ++ found.1.now) }
{
    let names = text.strip_prefix(start)?;
    for set in SETS {
        if let Some(end) = names.strip_prefix(set.name)
            && let Some(rest) = end.strip_prefix(":]")
        {
            return Some((Token::Posix(start, set.name), rest));
        }
    }
    None
}

fn strip_mark(text: &str) -> Option<(Token<'_>, &str)>
    ensures { IfSome result (λ found. text.now ≡ spelled found.0 ++ found.1.now) }
{
    for (mark, spelling) in MARKS {
        if let Some(rest) = text.strip_prefix(spelling) {
            return Some((Token::Class(mark, spelling), rest));
        }
    }
    None
}

/// A `]` that comes first stands for itself.
fn strip_member(text: &str, is_class_start: bool) -> Option<(Token<'_>, &str)>
    ensures { IfSome result (λ found. text.now ≡ spelled found.0 ++ found.1.now) }
{
    if is_class_start && text.starts_with(']') {
        return strip_character(text);
    }
    if let Some(found) = strip_posix(text, "[:^") {
        return Some(found);
    }
    if let Some(found) = strip_posix(text, "[:") {
        return Some(found);
    }
    if let Some(found) = strip_mark(text) {
        return Some(found);
    }
    if let Some(found) = strip_escape(text) {
        return Some(found);
    }
    strip_character(text)
}

fn strip_blank(text: &str) -> Option<(Token<'_>, &str)>
    ensures { IfSome result (λ found. text.now ≡ spelled found.0 ++ found.1.now) }
{
    if text.starts_with('#') {
        let (comment, rest) = split_line(text);
        return Some((Token::LineComment(comment), rest));
    }
    let mut characters = text.chars();
    let first = characters.next()?;
    if !matches!(first, ' ' | '\t' | '\n' | '\r' | '\u{c}') {
        return None;
    }
    Some((Token::Blank(first), characters.as_str()))
}

fn strip_plain(text: &str) -> Option<(Token<'_>, &str)>
    ensures { IfSome result (λ found. text.now ≡ spelled found.0 ++ found.1.now) }
{
    if let Some(found) = strip_edge(text) {
        return Some(found);
    }
    let found = match text.chars().next()? {
        '\\' => strip_escape(text),
        '(' => strip_group(text),
        '[' => strip_mark(text),
        '*' | '+' | '?' => strip_quantifier(text),
        '{' => strip_interval(text),
        _ => None,
    };
    if found.is_some() {
        return found;
    }
    strip_symbol(text)
}

/// The text has no placeholder.
pub(crate) fn next_token(text: &str, mode: Mode) -> Option<(Token<'_>, &str)>
    ensures { IfSome result (λ found. text.now ≡ spelled found.0 ++ found.1.now) }
{
    if mode.is_in_class {
        return strip_member(text, mode.is_class_start);
    }
    if mode.is_extended
        && let Some(found) = strip_blank(text)
    {
        return Some(found);
    }
    strip_plain(text)
}

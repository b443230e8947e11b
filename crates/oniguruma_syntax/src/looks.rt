//! What is inside lookarounds and atomic groups.

use crate::sets::named_set;
use crate::structure::Structure;
use crate::token::{Form, Mark, Node, Token};
use std::alloc::{AllocError, Global};
use std::ops::Range;

/// How the characters of a set are related to the characters of `\w`.
#[derive(Clone, Copy, PartialEq, Eq)]
pub(crate) enum WordSet {
    /// They are those of `\w`.
    All,
    /// Each of them is one of `\w`.
    Part,
    /// Some may be others.
    Other,
}

pub(crate) fn part<'a>(nodes: &'a [Node<'a>], range: &Range<usize>) -> &'a [Node<'a>] {
    nodes.get(range.start..range.end).unwrap_or(&[])
}

/// Returns whether tokens are one character, one set of characters or one class.
pub(crate) fn is_one_character(
    nodes: &[Node<'_>],
    structure: &Structure,
    range: &Range<usize>,
) -> bool {
    let Some(first) = nodes.get(range.start) else {
        return false;
    };
    match first.token {
        Token::Class(_, _) => {
            structure.links_of(range.start).close.saturating_add(1) == range.end
        }
        Token::Char(_) | Token::Code(_, _, _) => range.start.saturating_add(1) == range.end,
        Token::Escape(c) => {
            range.start.saturating_add(1) == range.end
                && (!c.is_ascii_alphanumeric()
                    || matches!(c, 'd' | 'D' | 'w' | 'W' | 's' | 'S' | 'h' | 'H'))
        }
        Token::Enclosed(Form::Property | Form::NotProperty | Form::Code, _, _, _) => {
            range.start.saturating_add(1) == range.end
        }
        _ => false,
    }
}

/// Returns whether two characters are both digits, both lower or both upper case letters of ASCII.
fn are_alike(a: char, b: char) -> bool {
    (a.is_ascii_digit() && b.is_ascii_digit())
        || (a.is_ascii_lowercase() && b.is_ascii_lowercase())
        || (a.is_ascii_uppercase() && b.is_ascii_uppercase())
}

/// Returns whether a hyphen between these tokens makes a range of digits or letters.
fn is_word_range(before: Option<&Node<'_>>, after: Option<&Node<'_>>) -> bool {
    let (Some(before), Some(after)) = (before, after) else {
        return false;
    };
    match (before.token, after.token) {
        (Token::Char(a), Token::Char(b)) => are_alike(a, b),
        _ => false,
    }
}

fn named_word_set(name: &str) -> WordSet {
    match named_set(name) {
        Some(set) if set.name == "word" => WordSet::All,
        Some(set) if set.is_of_words => WordSet::Part,
        _ => WordSet::Other,
    }
}

fn word_set_of(nodes: &[Node<'_>], index: usize) -> WordSet {
    let Some(node) = nodes.get(index) else {
        return WordSet::Other;
    };
    let last = nodes.len().saturating_sub(1);
    match node.token {
        Token::Escape('w') => WordSet::All,
        Token::Escape('d' | 'h') => WordSet::Part,
        Token::Char('-') => {
            let after = nodes.get(index.saturating_add(1));
            let before = if index == 0 {
                None
            } else {
                nodes.get(index.saturating_sub(1))
            };
            if is_word_range(before, after) {
                WordSet::Part
            } else {
                WordSet::Other
            }
        }
        Token::Char(c) if c.is_ascii_alphanumeric() || c == '_' => WordSet::Part,
        Token::Class(Mark::Open, _) if index == 0 => WordSet::Part,
        Token::Class(Mark::Close, _) if index == last => WordSet::Part,
        Token::Posix("[:", name) => named_word_set(name),
        Token::Enclosed(Form::Property, _, name, _) => named_word_set(name),
        _ => WordSet::Other,
    }
}

/// Returns how the characters of a set or a class are related to `\w`. The tokens are the set or the
/// class.
pub(crate) fn word_set(nodes: &[Node<'_>]) -> WordSet {
    let mut set = WordSet::Part;
    for index in 0..nodes.len() {
        match word_set_of(nodes, index) {
            WordSet::All => set = WordSet::All,
            WordSet::Part => {}
            WordSet::Other => return WordSet::Other,
        }
    }
    set
}

/// Returns whether tokens are characters that stand for themselves.
pub(crate) fn is_literal(nodes: &[Node<'_>]) -> bool {
    !nodes.is_empty()
        && nodes.iter().all(|node| match node.token {
            Token::Char(_) => true,
            Token::Escape(c) => !c.is_ascii_alphanumeric(),
            _ => false,
        })
}

fn push_key(keys: &mut String, key: &str) -> Result<(), AllocError> {
    if !keys.is_empty() {
        keys.push_str(", ")?;
    }
    keys.push_str(key)
}

/// Returns the keys of the placeholders and the groups among tokens, with commas between them. A
/// placeholder without an alias has its name as its key.
pub(crate) fn keys_in(alloc: Global, nodes: &[Node<'_>]) -> Result<String, AllocError> {
    let mut keys = String::new(alloc);
    for node in nodes {
        match node.token {
            Token::Placeholder(placeholder) if placeholder.alias.is_empty() => {
                push_key(&mut keys, placeholder.name)?;
            }
            Token::Placeholder(placeholder) => push_key(&mut keys, placeholder.alias)?,
            Token::Enclosed(Form::Name, _, name, _) => push_key(&mut keys, name)?,
            _ => {}
        }
    }
    Ok(keys)
}

//! What escapes, numbers and names of sets stand for.

use crate::refusal::{Reason, Stop};
use crate::sets::{is_property, named_set};
use crate::token::{Form, Node, Token};
use std::alloc::{AllocError, Global};

/// What an item of a class stands for.
#[derive(Drop)]
pub(crate) enum Member {
    Char(char),
    /// The items of a class of `regex` that stand for the same characters.
    Set(String),
}

/// Returns the character that the escape of a letter stands for, both in a class and outside it, or
/// `None` if it stands for something else.
pub(crate) fn escaped_char(letter: char) -> Option<char> {
    match letter {
        'n' => Some('\n'),
        't' => Some('\t'),
        'r' => Some('\r'),
        'f' => Some('\u{c}'),
        'v' => Some('\u{b}'),
        'a' => Some('\u{7}'),
        'e' => Some('\u{1b}'),
        c if c.is_ascii_alphanumeric() => None,
        c => Some(c),
    }
}

fn hexadecimal(digits: &str) -> Option<u32> {
    if !digits.bytes().all(|b| b.is_ascii_hexdigit()) {
        return None;
    }
    u32::from_str_radix(digits, 16).ok()
}

/// Returns the character with the number that follows `start`, which is `\x`, `\u` or `\0`. Returns
/// `None` if that is no character.
fn numbered_char(start: &str, radix: u32, digits: &str) -> Option<char> {
    let number = if radix == 8 {
        if digits.is_empty() {
            0
        } else {
            u32::from_str_radix(digits, 8).ok()?
        }
    } else {
        hexadecimal(digits)?
    };
    // Two digits after `\x` are a byte, and four after `\u` a character.
    let is_whole = if start == "\\u" {
        digits.len() == 4
    } else {
        number < 0x80
    };
    if is_whole {
        char::from_u32(number)
    } else {
        None
    }
}

/// Returns the character that a token gives by its number, or `None` if the token isn't of this
/// kind.
pub(crate) fn char_by_number(node: &Node<'_>) -> Result<Option<char>, Stop> {
    let found = match node.token {
        Token::Code(start, radix, digits) => numbered_char(start, radix, digits),
        Token::Enclosed(Form::Code, _, digits, _) => match hexadecimal(digits) {
            Some(number) => char::from_u32(number),
            None => None,
        },
        _ => return Ok(None),
    };
    match found {
        Some(c) => Ok(Some(c)),
        None => Err(Stop::at(Reason::Code, node)),
    }
}

/// Returns these items of a class, or the class of all other characters if `is_negated` is set.
fn items_text(alloc: Global, items: &str, is_negated: bool) -> Result<String, AllocError> {
    if is_negated {
        format!(in alloc; "[^{items}]")
    } else {
        String::from_str(alloc, items)
    }
}

/// Returns the items of a class that are the characters with a property.
fn property_text(
    alloc: Global,
    node: &Node<'_>,
    name: &str,
    is_negated: bool,
) -> Result<String, Stop> {
    let (name, is_negated) = match name.strip_prefix('^') {
        Some(name) => (name, !is_negated),
        None => (name, is_negated),
    };
    if let Some(set) = named_set(name) {
        return Ok(items_text(alloc, set.items, is_negated)?);
    }
    if !is_property(name) {
        return Err(Stop::at(Reason::Property, node));
    }
    let letter = if is_negated { 'P' } else { 'p' };
    Ok(format!(in alloc; "\\{letter}{{{name}}}")?)
}

/// Returns the items of a class that a token which names a set stands for, or `None` if the token
/// doesn't name a set.
pub(crate) fn set_text(alloc: Global, node: &Node<'_>) -> Result<Option<String>, Stop> {
    let text = match node.token {
        Token::Escape('d') => String::from_str(alloc, "\\d")?,
        Token::Escape('D') => String::from_str(alloc, "\\D")?,
        Token::Escape('w') => String::from_str(alloc, "\\w")?,
        Token::Escape('W') => String::from_str(alloc, "\\W")?,
        Token::Escape('s') => String::from_str(alloc, "\\s")?,
        Token::Escape('S') => String::from_str(alloc, "\\S")?,
        Token::Escape('h') => String::from_str(alloc, "0-9A-Fa-f")?,
        Token::Escape('H') => String::from_str(alloc, "[^0-9A-Fa-f]")?,
        Token::Posix(start, name) => property_text(alloc, node, name, start == "[:^")?,
        Token::Enclosed(Form::Property, _, name, _) => property_text(alloc, node, name, false)?,
        Token::Enclosed(Form::NotProperty, _, name, _) => property_text(alloc, node, name, true)?,
        _ => return Ok(None),
    };
    Ok(Some(text))
}

/// Returns the character that a token stands for in a class, or `None` if it stands for something
/// else.
fn member_char(node: &Node<'_>) -> Result<Option<char>, Stop> {
    match node.token {
        Token::Char(c) => Ok(Some(c)),
        Token::Escape('b') => Ok(Some('\u{8}')),
        Token::Escape(letter) => Ok(escaped_char(letter)),
        _ => char_by_number(node),
    }
}

pub(crate) fn read_member(alloc: Global, node: &Node<'_>) -> Result<Member, Stop> {
    if let Some(c) = member_char(node)? {
        return Ok(Member::Char(c));
    }
    if let Some(text) = set_text(alloc, node)? {
        return Ok(Member::Set(text));
    }
    Err(Stop::at(
        match node.token {
            Token::Placeholder(_) => Reason::PlaceholderInClass,
            Token::Escape(_) => Reason::Escape,
            _ => Reason::Unclosed,
        },
        node,
    ))
}

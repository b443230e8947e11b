//! Writes character classes.

use crate::characters::{Member, read_member};
use crate::literals::push_class_literal;
use crate::refusal::{Reason, Stop};
use crate::token::{Mark, Node, Token};
use std::alloc::{AllocError, Global};
use std::fmt::Write;

/// What comes before an item of a class.
#[derive(Clone, Copy, PartialEq, Eq)]
enum Before {
    /// The start of the class, or `&&`.
    Start,
    /// A character or a range.
    Character,
    /// A set, or a class in this one.
    Set,
}

/// A class that is being written.
#[derive(Drop)]
struct ClassWriter<'w, 'a> {
    alloc: Global,
    nodes: &'w [Node<'a>],
    text: String,
    before: Before,
    /// The index of the next token.
    next: usize,
}

/// Appends a character of a class. One that isn't shown is written by its number.
fn push_member(text: &mut String, c: char) -> Result<(), AllocError> {
    if is_hidden(c) {
        write_number(text, c)
    } else {
        push_class_literal(text, c)
    }
}

/// Returns whether a character isn't shown in a text: whether it is a control character, or ends a line or a
/// paragraph.
pub(crate) fn is_hidden(c: char) -> bool {
    c.is_control() || c == '\u{2028}' || c == '\u{2029}'
}

/// Appends a character that isn't shown by its number, as both engines read it.
pub(crate) fn write_number(text: &mut String, c: char) -> Result<(), AllocError> {
    let number = u32::from(c);
    if c.is_ascii() {
        write!(text, "\\x{number:02X}")
    } else {
        write!(text, "\\u{number:04X}")
    }
}

impl ClassWriter<'_, '_> {
    /// Returns whether the token with this index ends a class, or one side of `&&`.
    fn is_end(&self, index: usize) -> bool {
        match self.nodes.get(index) {
            Some(node) => matches!(node.token, Token::Class(Mark::Close | Mark::And, _)),
            None => true,
        }
    }

    /// Returns whether the token with this index is a hyphen without a backslash.
    fn is_hyphen(&self, index: usize) -> bool {
        match self.nodes.get(index) {
            Some(node) => matches!(node.token, Token::Char('-')),
            None => false,
        }
    }

    /// Returns whether the token with this index is a hyphen after a set, and something follows that
    /// can't be the end of a range.
    fn is_unclear(&self, index: usize) -> bool {
        let is_after_set = self.before == Before::Set;
        is_after_set && self.is_hyphen(index) && !self.is_end(index.saturating_add(1))
    }

    /// Returns whether the token with this index is a hyphen that needs no backslash, because it is the last of a
    /// class, or the first with no hyphen after it.
    fn is_plain_hyphen(&self, index: usize) -> bool {
        let after = index.saturating_add(1);
        let is_last = match self.nodes.get(after) {
            Some(node) => matches!(node.token, Token::Class(Mark::Close, _)),
            None => false,
        };
        let is_first = match self.nodes.get(index.saturating_sub(1)) {
            Some(node) => matches!(node.token, Token::Class(Mark::Open | Mark::NotOpen, _)),
            None => false,
        };
        self.is_hyphen(index) && (is_last || (is_first && !self.is_hyphen(after)))
    }

    /// Writes a set of characters.
    fn write_set(&mut self, items: &str) -> Result<(), AllocError> {
        self.before = Before::Set;
        self.text.push_str(items)
    }

    fn write_mark(&mut self, node: &Node<'_>, mark: Mark, spelling: &str) -> Result<(), Stop> {
        let is_end = matches!(mark, Mark::Close | Mark::And);
        if is_end && self.before == Before::Start {
            return Err(Stop::at(Reason::EmptySide, node));
        }
        self.text.push_str(spelling)?;
        self.before = match mark {
            Mark::Close => Before::Set,
            _ => Before::Start,
        };
        Ok(())
    }

    /// Writes a character, or the range that begins with it.
    fn write_char(&mut self, index: usize, node: &Node<'_>, c: char) -> Result<(), Stop> {
        let hyphen = index.saturating_add(1);
        let last = index.saturating_add(2);
        if self.is_plain_hyphen(index) {
            self.text.push(c)?;
        } else {
            push_member(&mut self.text, c)?;
        }
        if self.is_hyphen(hyphen) && !self.is_end(last) {
            let Some(end) = self.nodes.get(last) else {
                return Ok(());
            };
            match member_of_range(self.alloc, end)? {
                Some(d) if c <= d => {
                    self.text.push('-')?;
                    push_member(&mut self.text, d)?;
                }
                _ => return Err(Stop::at(Reason::Range, node)),
            }
            self.next = last.saturating_add(1);
        }
        self.before = Before::Character;
        Ok(())
    }

    fn write_token(&mut self, index: usize, node: &Node<'_>) -> Result<(), Stop> {
        self.next = index.saturating_add(1);
        if let Token::Class(mark, spelling) = node.token {
            return self.write_mark(node, mark, spelling);
        }
        if self.is_unclear(index) {
            return Err(Stop::at(Reason::Range, node));
        }
        match read_member(self.alloc, node)? {
            Member::Char(c) => self.write_char(index, node, c),
            Member::Set(text) => Ok(self.write_set(text.as_str())?),
        }
    }
}

/// Returns the character with which a range ends, or `None` if the token is no character.
fn member_of_range(alloc: Global, node: &Node<'_>) -> Result<Option<char>, Stop> {
    if matches!(node.token, Token::Class(_, _)) {
        return Ok(None);
    }
    match read_member(alloc, node)? {
        Member::Char(c) => Ok(Some(c)),
        Member::Set(_) => Ok(None),
    }
}

/// Returns what the tokens with indexes from `start` up to `end` stand for in a class of `regex`.
/// They are one or more items of a class, or a whole class.
///
/// # Errors
///
/// Returns an error if one of them has no form, or if an allocation fails.
pub(crate) fn class_text(
    alloc: Global,
    nodes: &[Node<'_>],
    start: usize,
    end: usize,
) -> Result<String, Stop> {
    let mut writer = ClassWriter {
        alloc,
        nodes,
        text: String::new(alloc),
        before: Before::Start,
        next: start,
    };
    for index in start..end {
        if index < writer.next {
            continue;
        }
        let Some(node) = nodes.get(index) else {
            break;
        };
        writer.write_token(index, node)?;
    }
    Ok(writer.text)
}

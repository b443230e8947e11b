//! Finds where the parts of a regular expression end, as the syntax of `regex` has them. The texts
//! are parts of a regular expression that `regex` takes, without the flag `x`.

/// The form in which a `(` begins.
#[derive(Clone, Copy)]
pub(crate) enum Opening {
    /// A setting of flags such as `(?i)`, with its length in bytes.
    Setting(usize),
    /// The start of a group, such as `(?:` or `(?<name>`. `len` is its length in bytes.
    Group { len: usize, is_capturing: bool },
    /// A setting or a group with the flag `x`, after which blanks and comments mean nothing.
    Verbose,
}

pub(crate) fn after(text: &str, at: usize) -> &str {
    text.get(at..).unwrap_or("")
}

fn char_len(text: &str) -> usize {
    match text.chars().next() {
        Some(c) => c.len_utf8(),
        None => 0,
    }
}

fn braces_len(text: &str) -> usize {
    match text.find('}') {
        Some(end) => end.saturating_add(1),
        None => text.len(),
    }
}

/// Returns the length in bytes of the hexadecimal digits that a text begins with: `count` of them,
/// or any number in braces.
fn digits_len(text: &str, count: usize) -> usize {
    if text.starts_with('{') {
        braces_len(text)
    } else {
        count.min(text.len())
    }
}

/// Returns whether a text begins with the name of a word boundary, such as `{start}`. Other braces
/// after `\b` are a quantifier.
fn is_boundary_name(text: &str) -> bool {
    match text.strip_prefix('{') {
        Some(name) => name.starts_with(|c: char| c.is_ascii_alphabetic() || c == '-'),
        None => false,
    }
}

/// Returns the length in bytes of the escape that a text begins with, outside a class.
fn escape_len(text: &str) -> usize {
    let rest = after(text, 1);
    let letter = char_len(rest);
    let head = letter.saturating_add(1);
    let rest = after(rest, letter);
    let more = match after(text, 1).chars().next() {
        Some('x') => digits_len(rest, 2),
        Some('u') => digits_len(rest, 4),
        Some('U') => digits_len(rest, 8),
        Some('p' | 'P') if rest.starts_with('{') => braces_len(rest),
        Some('p' | 'P') => char_len(rest),
        Some('b') if is_boundary_name(rest) => braces_len(rest),
        _ => 0,
    };
    head.saturating_add(more)
}

/// Returns the length in bytes of the start of a class: its bracket, a `^`, and the hyphens or the
/// bracket after that which stand for themselves.
fn class_start_len(text: &str) -> usize {
    let inside = after(text, 1);
    let items = inside.strip_prefix('^').unwrap_or(inside);
    let hyphens = items.bytes().take_while(|b| *b == b'-').count();
    let literals = if hyphens == 0 && items.starts_with(']') {
        1
    } else {
        hyphens
    };
    text.len()
        .saturating_sub(items.len())
        .saturating_add(literals)
}

/// Returns the length in bytes of the character of a class that a text begins with, which may be
/// escaped.
fn member_len(text: &str) -> usize {
    match text.strip_prefix('\\') {
        Some(rest) => char_len(rest).saturating_add(1),
        None => char_len(text),
    }
}

/// Returns the length in bytes of the item of a class that a text begins with: an operator, a range
/// or a character. The item isn't a class itself.
fn item_len(text: &str) -> usize {
    if text.starts_with("&&") || text.starts_with("--") || text.starts_with("~~") {
        return 2;
    }
    let first = member_len(text);
    match after(text, first).strip_prefix('-') {
        Some(last) if !last.starts_with(']') && !last.starts_with('-') => {
            first.saturating_add(1).saturating_add(member_len(last))
        }
        _ => first,
    }
}

fn class_len(text: &str) -> usize {
    let mut at = class_start_len(text);
    let mut depth = 1usize;
    // Each step takes a byte at least.
    for _ in 0..text.len() {
        let rest = after(text, at);
        let len = if rest.starts_with('[') {
            depth = depth.saturating_add(1);
            class_start_len(rest)
        } else if rest.starts_with(']') {
            depth = depth.saturating_sub(1);
            1
        } else {
            item_len(rest)
        };
        at = at.saturating_add(len);
        if depth == 0 {
            break;
        }
    }
    at
}

/// Returns the length in bytes of what a text begins with: a character, a class or an escape.
pub(crate) fn atom_len(text: &str) -> usize {
    match text.chars().next() {
        Some('\\') => escape_len(text),
        Some('[') => class_len(text),
        Some(c) => c.len_utf8(),
        None => 0,
    }
}

/// Returns whether a text begins with a character that stands for itself.
pub(crate) fn is_literal(text: &str) -> bool {
    !text.starts_with(|c: char| matches!(c, '\\' | '[' | '.' | '^' | '$'))
}

fn quantifier_len(text: &str) -> usize {
    let len = match text.chars().next() {
        Some('?' | '*' | '+') => 1,
        Some('{') => braces_len(text),
        _ => return 0,
    };
    let lazy = after(text, len).starts_with('?');
    len.saturating_add(usize::from(lazy))
}

pub(crate) fn quantifiers_len(text: &str) -> usize {
    let mut at = 0usize;
    for _ in 0..text.len() {
        let len = quantifier_len(after(text, at));
        if len == 0 {
            break;
        }
        at = at.saturating_add(len);
    }
    at
}

/// Returns whether flags such as `i-x` set the flag `x`.
fn are_verbose(flags: &str) -> bool {
    flags.split('-').next().unwrap_or("").contains('x')
}

pub(crate) fn read_opening(text: &str) -> Opening {
    let Some(special) = text.strip_prefix("(?") else {
        return Opening::Group {
            len: 1,
            is_capturing: true,
        };
    };
    if special.starts_with('<') || special.starts_with("P<") {
        let end = text.find('>').unwrap_or(text.len());
        return Opening::Group {
            len: end.saturating_add(1),
            is_capturing: true,
        };
    }
    let end = special
        .find(|c: char| matches!(c, ':' | ')'))
        .unwrap_or(special.len());
    let len = end.saturating_add(3);
    if are_verbose(special.get(..end).unwrap_or("")) {
        Opening::Verbose
    } else if after(special, end).starts_with(')') {
        Opening::Setting(len)
    } else {
        Opening::Group {
            len,
            is_capturing: false,
        }
    }
}

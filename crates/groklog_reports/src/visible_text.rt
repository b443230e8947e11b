//! Shows foreign text, such as a name of a file or a part of a definition, so that a terminal can't take any of it as a
//! command.
ghost use Rattle.std.specs.Prelude.{◌≡◌, ◌++◌, IfOk, OnOk, false, true, string_bytes};
ghost use Rattle.std.specs.Str.{encode_utf8_all};
ghost use Rattle.groklog_reports.specs.Visible.{is_bidi_control, is_raw, has_raw, shown_char, visible};

use std::alloc::{AllocError, Global};

/// These are the characters with Unicode's property `Bidi_Control`, which change the direction of text.
fn is_bidi_control(c: char) -> bool
    ensures { result ≡ is_bidi_control c }
{
    match c {
        '\u{61c}' => true,
        '\u{200e}'..='\u{200f}' => true,
        '\u{202a}'..='\u{202e}' => true,
        '\u{2066}'..='\u{2069}' => true,
        _ => false,
    }
}

fn is_raw(c: char) -> bool
    ensures { result ≡ is_raw c }
{
    c.is_control() || is_bidi_control(c)
}

/// Returns whether all characters are of ASCII and print. Most texts are like that, and it is quick to see.
fn is_plain(text: &str) -> bool
    ensures { result ≡ true → has_raw text.now ≡ false }
{
    text.as_bytes().iter().all(|b| b' ' <= *b && *b <= b'~')
}

fn has_raw(text: &str) -> bool
    ensures { result ≡ has_raw text.now }
{
    if is_plain(text) {
        return false;
    }
    text.chars().any(|c| is_raw(c))
}

fn push_visible_char(shown: &mut String, c: char) -> Result<(), AllocError>
    ensures { OnOk result (string_bytes shown.new
        ≡ string_bytes shown.old ++ encode_utf8_all (shown_char c)) }
{
    if !is_raw(c) {
        return shown.push(c);
    }
    for escaped in c.escape_default() {
        shown.push(escaped)?;
    }
    Ok(())
}

/// Appends a text as [`visible`] shows it. If an allocation fails, a part of it may have been appended.
pub fn push_visible(shown: &mut String, text: &str) -> Result<(), AllocError>
    ensures { OnOk result (string_bytes shown.new ≡ string_bytes shown.old ++ visible text.now) }
{
    if !has_raw(text) {
        return shown.push_str(text);
    }
    for c in text.chars() {
        push_visible_char(shown, c)?;
    }
    Ok(())
}

/// Returns a text as messages show it: control characters and those that change the direction of
/// text are escaped as in Rust's `char::escape_default`, such as `\n` or `\u{1b}`. A text without
/// them stays as it is.
pub fn visible(alloc: Global, text: &str) -> Result<String, AllocError>
    ensures shown { IfOk result (λ shown. string_bytes shown ≡ visible text.now) }
    ensures safe { IfOk result (λ shown. has_raw (string_bytes shown) ≡ false) }
    ensures same { IfOk result (λ shown. has_raw text.now ≡ false → string_bytes shown ≡ text.now) }
{
    let mut shown = String::new(alloc);
    push_visible(&mut shown, text)?;
    Ok(shown)
}

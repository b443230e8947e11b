//! Characters that stand for themselves, as `regex` spells them.
ghost use Rattle.std.specs.Prelude.{◌≡◌, ◌++◌, OnOk, string_bytes};
ghost use Rattle.oniguruma_syntax.specs.Literals.{is_meta, is_class_meta, literal, class_literal};

use std::alloc::AllocError;

fn is_meta(c: char) -> bool
    ensures { result ≡ is_meta c }
{
    match c {
        '\\' | '.' | '+' | '*' | '?' => true,
        '(' | ')' | '|' | '[' | ']' => true,
        '{' | '}' | '^' | '$' => true,
        _ => false,
    }
}

fn is_class_meta(c: char) -> bool
    ensures { result ≡ is_class_meta c }
{
    match c {
        '\\' | '[' | ']' | '^' => true,
        '-' | '&' | '~' => true,
        _ => false,
    }
}

pub(crate) fn push_literal(text: &mut String, c: char) -> Result<(), AllocError>
    ensures { OnOk result (string_bytes text.new ≡ string_bytes text.old ++ literal c) }
{
    if is_meta(c) {
        text.push('\\')?;
    }
    text.push(c)
}

pub(crate) fn push_class_literal(text: &mut String, c: char) -> Result<(), AllocError>
    ensures { OnOk result (string_bytes text.new ≡ string_bytes text.old ++ class_literal c) }
{
    if is_class_meta(c) {
        text.push('\\')?;
    }
    text.push(c)
}

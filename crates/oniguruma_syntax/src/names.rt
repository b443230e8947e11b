//! Groups whose names `regex` doesn't take. Each of them becomes a placeholder with an inline
//! definition.
ghost use Rattle.std.specs.Prelude.{◌≡◌};
ghost use Rattle.oniguruma_syntax.specs.Forms.{begins_name, continues_name, is_group_name};

use grok_parser::parser::{GrokComponent, grok_split};
use std::alloc::{AllocError, Global};

/// The name of the inline definitions.
pub(crate) const GROUP_NAME: &str = "NAMED_GROUP";

fn begins_name(c: char) -> bool
    ensures { result ≡ begins_name c }
{
    c.is_alphabetic() || c == '_'
}

fn continues_name(c: char) -> bool
    ensures { result ≡ continues_name c }
{
    c.is_alphanumeric() || c == '_'
}

pub(crate) fn is_group_name(name: &str) -> bool
    ensures { result ≡ is_group_name name.now }
{
    match name.chars().next() {
        Some(first) => begins_name(first) && name.chars().all(|c| continues_name(c)),
        None => false,
    }
}

/// Returns the start of a placeholder with this alias, up to the `=` before its inline definition.
/// Returns `None` if a placeholder can't have this alias.
pub(crate) fn placeholder_start(alloc: Global, alias: &str) -> Result<Option<String>, AllocError> {
    let start = format!(in alloc; "%{{{GROUP_NAME}:{alias}=")?;
    let whole = format!(in alloc; "{}.}}", start.as_str())?;
    let mut pieces = grok_split(whole.as_str());
    let is_placeholder = match pieces.next() {
        Some(
            GrokComponent::GrokPattern {
                range,
                alias: read,
                ..
            },
        ) => range.end == whole.len() && read == alias,
        _ => false,
    };
    Ok(if is_placeholder { Some(start) } else { None })
}

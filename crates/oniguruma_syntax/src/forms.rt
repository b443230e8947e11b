//! The forms of Oniguruma's syntax that `regex` doesn't have.
ghost use Rattle.std.specs.Prelude.{◌≡◌, IfOk};
ghost use Rattle.oniguruma_syntax.specs.Forms.{is_own_form, FindsOwnForm};

use crate::names::is_group_name;
use crate::reader::read;
use crate::token::{Form, Node, Opening, Token};
use std::alloc::{AllocError, Global};

fn is_own_form(node: &Node<'_>) -> bool
    ensures { result ≡ is_own_form node.now.token }
{
    match node.token {
        Token::Open(opening, _) => !matches!(
            opening,
            Opening::Capture | Opening::Plain | Opening::Unknown
        ),
        Token::Enclosed(Form::Comment, _, _, _) => true,
        Token::Enclosed(Form::Name, _, name, _) => !is_group_name(name),
        Token::Escape(c) => matches!(c, 'h' | 'H' | 'Z' | 'R' | 'e'),
        _ => false,
    }
}

/// Returns whether a text has a form of Oniguruma's syntax that `regex` doesn't have, such as a
/// lookaround.
pub fn has_own_forms(alloc: Global, text: &str) -> Result<bool, AllocError>
    ensures { IfOk result (FindsOwnForm text.now) }
{
    let nodes = read(alloc, text)?;
    Ok(nodes.iter().any(|node| is_own_form(node)))
}

//! An example that uses the splitter: it lists the names of the placeholders of a pattern.
ghost use Rattle.std.specs.Prelude.{◌≡◌, IfOk, filter_map, map};
ghost use Rattle.grok.specs.{pieces, text_of};
ghost use Rattle.grok_uses.specs.Uses.{name_of};

use grok::parser::{GrokComponent, grok_split};
use std::alloc::{AllocError, Global};

/// Returns the names of the placeholders of a pattern, in their order. It fails only if an
/// allocation fails.
pub(crate) fn placeholder_names<'a>(
    alloc: Global,
    pattern: &'a str,
) -> Result<Vec<&'a str>, AllocError>
    ensures { IfOk result (λ names.
        map text_of names.items ≡ filter_map name_of (pieces pattern.now)) }
{
    let mut names = Vec::new(alloc);
    for piece in grok_split(pattern) {
        if let GrokComponent::GrokPattern { name, .. } = piece {
            names.push(name)?;
        }
    }
    Ok(names)
}

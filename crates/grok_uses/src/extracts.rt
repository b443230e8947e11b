//! An example of a filter by extracts: it keeps only those values of a match whose key has a given
//! extract.
ghost use Rattle.std.specs.Prelude.{◌≡◌, IfOk, map, string_bytes};
ghost use Rattle.grok_uses.specs.Uses.{pairs_in, values_of_kind};

use grok::{Engine, PatternOf};
use std::alloc::{AllocError, Global};

/// Returns the values that the pattern finds in the line and whose key has this extract, in the
/// byte order of their keys. It fails only if an allocation fails.
pub(crate) fn values_of_kind<E: Engine>(
    alloc: Global,
    pattern: &PatternOf<E>,
    kind: &str,
    line: &str,
) -> Result<Vec<String>, AllocError>
    ensures { IfOk result (λ values. map string_bytes values.items
        ≡ values_of_kind pattern.now kind.now (pairs_in E.finds pattern.now line.now)) }
{
    let mut values = Vec::new(alloc);
    if let Some(matches) = pattern.match_against(line)? {
        'pairs: for (key, value) in &matches {
            if pattern.get_extract(key) == Some(kind) {
                values.push(String::from_str(alloc, value)?)?;
            }
        }
    }
    Ok(values)
}

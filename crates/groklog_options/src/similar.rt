//! Finds the word that is meant by one that there isn't.

use std::alloc::{AllocError, Global};
use std::collections::BTreeSet;
use strsim::osa_distance;

/// How many characters a word may have that is compared with others.
const MOST_COMPARED: usize = 64;

fn in_lower_case(alloc: Global, word: &str) -> Result<String, AllocError> {
    let mut lower = String::from_str(alloc, word)?;
    lower.make_ascii_lowercase();
    Ok(lower)
}

/// Returns how many edits make one word from the other, or `None` if they are more than half of the characters of the
/// longer one. An edit inserts, drops or replaces a character, or swaps two neighbours. Upper and lower case count as the
/// same. Words of more than `MOST_COMPARED` characters aren't compared.
fn edits(alloc: Global, word: &str, other: &str) -> Result<Option<usize>, AllocError> {
    let longer = word.chars().count().max(other.chars().count());
    if longer > MOST_COMPARED {
        return Ok(None);
    }
    let (word, other) = (in_lower_case(alloc, word)?, in_lower_case(alloc, other)?);
    let edits = osa_distance(alloc, word.as_str(), other.as_str())?;
    Ok(if edits <= longer / 2 {
        Some(edits)
    } else {
        None
    })
}

/// Returns whether one name of an option is near to another one, by the measure of `edits`.
pub fn is_near(alloc: Global, word: &str, other: &str) -> Result<bool, AllocError> {
    let (word, other) = (word.trim_start_matches('-'), other.trim_start_matches('-'));
    Ok(edits(alloc, word, other)?.is_some())
}

/// Returns the first of the `known` words that is nearest to this one, or `None` if none is near.
pub fn nearest<'k>(
    alloc: Global,
    known: &BTreeSet<&'k str>,
    word: &str,
) -> Result<Option<&'k str>, AllocError> {
    let mut nearest = None;
    let mut fewest = usize::MAX;
    for other in known {
        let Some(edits) = edits(alloc, word, other)? else {
            continue;
        };
        if edits < fewest {
            fewest = edits;
            nearest = Some(*other);
        }
    }
    Ok(nearest)
}

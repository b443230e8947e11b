//! An example of an importer: it uses one matcher for many lines, and counts those that have a key.
ghost use Rattle.std.specs.Prelude.{◌≡◌, IfOk, count_by};
ghost use Rattle.grok_uses.specs.Uses.{has_key};

use grok::{HasMatcher, MatcherOf, PatternOf};
use std::alloc::AllocError;

/// Returns whether the key has a value in the line.
fn gives_key<'p, E: HasMatcher<'p>>(
    matcher: &mut MatcherOf<'p, E>,
    key: &str,
    line: &str,
) -> Result<bool, AllocError>
    ensures answer { IfOk result (λ gives.
        gives ≡ has_key E.finds matcher.old key.now line.now) }
    ensures same { matcher.new ≡ matcher.old }
{
    match matcher.find(line)? {
        Some(matches) => Ok(matches.iter().any(|(name, _)| name == key)),
        None => Ok(false),
    }
}

/// Returns in how many of the lines the key has a value. It fails only if an allocation fails.
#[tactic(auto, using(std::proofs::lemmas::List::Sums::count_by_more_yes, std::proofs::lemmas::List::Sums::count_by_more_no))]
pub(crate) fn count_of_key<'p, E: HasMatcher<'p>>(
    pattern: &'p PatternOf<E>,
    key: &str,
    lines: &[&str],
) -> Result<usize, AllocError>
    ensures { IfOk result (λ count.
        count ≡ count_by (λ line. has_key E.finds pattern.now key.now line.now) lines.now) }
{
    let mut matcher = pattern.matcher()?;
    let mut count = 0;
    for line in lines {
        if gives_key(&mut matcher, key, line)? {
            count += 1;
        }
    }
    Ok(count)
}

//! Counts of lines or events: those of `--summary`, and how many `--count` leaves out.
ghost use Rattle.std.specs.Prelude.{◌≡◌, ◌==◌, IfOk, is_none};

use groklog_answers::Searches;
use groklog_definitions::ordinal;
use groklog_options::GivenPattern;
use groklog_reports::{Unit, visible};
use std::alloc::{AllocError, Global};

/// Returns how many lines or events were read, how many each pattern was the first to match, how many
/// no pattern matched, and how many weren't UTF-8.
pub fn summary_of(
    alloc: Global,
    searches: &Searches<'_>,
    patterns: &[GivenPattern<'_>],
    unit: Unit,
) -> Result<String, AllocError> {
    let (unmatched, broken) = (searches.unmatched(), searches.broken());
    let matched = searches.matched(alloc)?;
    let mut lines = unmatched.saturating_add(broken);
    let mut parts = String::new(alloc);
    for (i, (pattern, count)) in patterns.iter().zip(&matched).enumerate() {
        lines = lines.saturating_add(*count);
        let part = if let Some(name) = pattern.name {
            let name = visible(alloc, name)?;
            format!(in alloc; "{count} matched by {name}, ")?
        } else if matched.len() == 1 {
            format!(in alloc; "{count} matched, ")?
        } else {
            let nth = ordinal(alloc, i.saturating_add(1))?;
            format!(in alloc; "{count} matched by the {nth} pattern, ")?
        };
        parts.push_str(part.as_str())?;
    }
    let word = unit.word(lines);
    format!(in alloc; "{lines} {word}, {parts}{unmatched} not matched, {broken} not UTF-8")
}

/// Returns a note on the lines or events whose values `--count` didn't count by themselves, since there is room for `most`
/// different ones, or `None` if there are none.
pub fn note_of_others(
    alloc: Global,
    others: u64,
    most: usize,
    unit: Unit,
) -> Result<Option<String>, AllocError>
    ensures { IfOk result (λ note. is_none note ≡ (others == 0)) }
{
    let word = unit.word(others);
    match others {
        0 => Ok(None),
        1 => Ok(Some(format!(in alloc;
            "1 more {word} has another value, which isn't counted: there is room for {most} different ones"
        )?)),
        others => Ok(Some(format!(in alloc;
            "{others} more {word} have other values, which aren't counted: there is room for {most} different ones"
        )?)),
    }
}

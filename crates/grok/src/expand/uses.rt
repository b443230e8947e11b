//! Counts how rows use one base key (a key before its number is added).
ghost use Rattle.std.specs.Prelude.{◌≡◌, ℕ, suc, ◌-◌, ◌^◌, List, [], ◌∷◌, ◌++◌, min, length, Decides, IfOk, MatchOption};
ghost use Rattle.grok.specs.Keys.{numbered};
ghost use Rattle.grok.specs.steps.Rows.{flat, AreKeysOfParts};
ghost use Rattle.grok.specs.steps.CountedUses.{no_uses, lesser, IsFreeAt, AreUsesOf, AreCountsOf};

use crate::expand::numbered::split_numbered;
use crate::expand::rows::Row;
use crate::numeral::number_of_numeral;
use std::alloc::{AllocError, Global};

/// How some base keys use the base key `x`.
#[derive(Clone, Copy)]
pub(crate) struct Uses {
    /// How often `x` is used, but at most `u128::MAX`.
    pub times: u128,
    /// The least number n from 1 up for which `x[n]` is used, but at most `usize::MAX`. `None` if no such
    /// key is used.
    pub least: Option<usize>,
}

fn number_of_base(base: &str, key: &str) -> Option<usize>
    ensures { MatchOption result ((count : ℕ) → key.now ≡ numbered base.now (suc count) → ⊥)
        (λ number. (count : ℕ) × (key.now ≡ numbered base.now (suc count)) × (number ≡ min (suc count) (2 ^ 64 - 1))) }
{
    let ending = key.strip_prefix(base)?;
    let (inner_base, digits) = split_numbered(ending)?;
    if !inner_base.is_empty() {
        return None;
    }
    Some(number_of_numeral(digits).unwrap_or(usize::MAX))
}

fn lesser(number: Option<usize>, other: Option<usize>) -> Option<usize>
    ensures { result ≡ lesser number other }
{
    match (number, other) {
        (Some(number), Some(other)) => Some(number.min(other)),
        (None, other) => other,
        (number, None) => number,
    }
}

impl Uses {
    pub fn none() -> Uses
        ensures { result ≡ no_uses }
    {
        Uses {
            times: 0,
            least: None,
        }
    }

    pub fn of_key(base: &str, key: &str) -> Uses
        ensures { AreUsesOf base.now (key.now ∷ []) result }
    {
        if key == base {
            return Uses {
                times: 1,
                least: None,
            };
        }
        Uses {
            times: 0,
            least: number_of_base(base, key),
        }
    }

    pub fn and(self, more: Uses) -> Uses
        ensures { (base : List ℕ) (keys others : List (List ℕ)) → AreUsesOf base keys self
            → AreUsesOf base others more → AreUsesOf base (keys ++ others) result }
    {
        Uses {
            times: self.times.saturating_add(more.times),
            least: lesser(self.least, more.least),
        }
    }

    pub fn are_free(self) -> bool
        ensures { Decides result (IsFreeAt self.times self.least) }
    {
        match self.least {
            Some(number) => self.times <= number as u128,
            None => true,
        }
    }

    pub fn of_row(row: Row<'_>, counts: &[Uses], base: &str) -> Uses
        ensures { (done : List (List (List ℕ))) → AreCountsOf base.now done counts.now
            → AreUsesOf base.now (flat done (row.entry ∷ [])) result }
    {
        match row {
            Row::Use(key) => Uses::of_key(base, key),
            Row::Part(index) => counts.get(index).copied().unwrap_or(Uses::none()),
        }
    }

    fn of_rows(rows: &[Row<'_>], counts: &[Uses], base: &str) -> Uses
        ensures { (done : List (List (List ℕ))) → AreCountsOf base.now done counts.now
            → AreUsesOf base.now (flat done rows.now) result }
    {
        let mut uses = Uses::none();
        'rows: for row in rows {
            uses = uses.and(Uses::of_row(*row, counts, base));
        }
        uses
    }
}

pub(crate) fn count_parts<'a>(
    alloc: Global,
    parts: &[Vec<Row<'a>>],
    base: &str,
) -> Result<Vec<Uses>, AllocError>
    ensures many { IfOk result (λ counts. length counts.items ≡ length parts.now) }
    ensures counts { IfOk result (λ counts. (done : List (List (List ℕ))) → AreKeysOfParts parts.now done
        → AreCountsOf base.now done counts.items) }
{
    let mut counts = Vec::new(alloc);
    'parts: for rows in parts {
        let uses = Uses::of_rows(rows, &counts, base);
        counts.push(uses)?;
    }
    Ok(counts)
}

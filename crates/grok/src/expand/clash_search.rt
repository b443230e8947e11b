//! Finds the first placeholder that gets the key of an earlier one.
//!
//! Two placeholders get the same key only if the alias of one of them is `x[n]`, with a number n from
//! 1 up, and the other one is use n of the base key `x` (a key before its number is added), counted
//! from 0. So `x` is free of clashes as long as it is used at most n times, where n is the least number
//! of such an alias. For each `x`, the search cuts the text before the placeholder with which `x` is
//! used too often. The text before the cut stays free of the clashes of the earlier ones. So at the end
//! the first clash comes right after it.
ghost use Rattle.std.specs.Prelude.{◌≡◌, ℕ, ◌<◌, true, List, [], ◌∷◌, IfOk, IfSome, OnOk, length};
ghost use Rattle.grok.specs.steps.KeyUses.{MayBeUsed};
ghost use Rattle.grok.specs.steps.Rows.{uses_in, flat, AreBelow, NameEarlierParts, AreKeysOfParts};
ghost use Rattle.grok.specs.steps.FirstClashes.{FindsClash};
ghost use Rattle.grok.specs.steps.CountedUses.{IsFreeAt, AreUsesOf, AreCountsOf, PassesRows, IsCutOrSame, has_base, HasBasesOf};

use crate::expand::numbered::base_of_numbered;
use crate::expand::rows::Row;
use crate::expand::uses::{Uses, count_parts};
use std::alloc::{AllocError, Global};
use std::collections::BTreeMap;

/// The first clash: two placeholders get the key `base[number]`.
#[derive(Clone, Copy)]
pub(crate) struct FoundClash<'a> {
    /// The base key of the placeholder that gets its key by its number.
    pub base: &'a str,
    /// That number, from 1 up. The key of both placeholders is `base[number]`.
    pub number: usize,
    /// Whether the placeholder that has the key as its alias comes first.
    pub is_alias_first: bool,
}

/// Adds the uses of rows to `so_far`, up to the first row with which `base` is used too often.
/// Returns the index of that row, or `None` if there is none.
fn pass(rows: &[Row<'_>], counts: &[Uses], base: &str, so_far: &mut Uses) -> Option<usize>
    ensures free { IsFreeAt so_far.old.times so_far.old.least → IsFreeAt so_far.new.times so_far.new.least }
    ensures index { IfSome result (λ index. index < length rows.now) }
    ensures passes { (done : List (List (List ℕ))) → AreCountsOf base.now done counts.now
        → (before : List (List ℕ)) → AreUsesOf base.now before so_far.old
        → PassesRows done base.now before rows.now so_far.new result }
{
    'rows: for (index, row) in rows.iter().enumerate() {
        let after = so_far.and(Uses::of_row(*row, counts, base));
        if !after.are_free() {
            return Some(index);
        }
        *so_far = after;
    }
    None
}

/// Cuts `top` before the placeholder with which `base` is used too often, if there is one. After that
/// `top` has the parts of the definitions that end before this placeholder, and of the definitions
/// around it only the rows before it.
///
/// If the number of the clash is `usize::MAX`, it isn't known whether there is one: the number may be
/// greater, and `base` may be used 2^64 times or more.
fn cut<'a>(
    alloc: Global,
    parts: &[Vec<Row<'a>>],
    top: &mut Vec<Row<'a>>,
    base: &'a str,
) -> Result<Option<FoundClash<'a>>, AllocError>
    requires falls { NameEarlierParts parts.now }
    requires below { AreBelow (length parts.now) top.old.items }
    ensures below { OnOk result (AreBelow (length parts.now) top.new.items) }
    ensures base { IfOk result (λ stop. IfSome stop (λ clash. clash.base.now ≡ base.now)) }
    ensures cut { IfOk result (λ stop. (done : List (List (List ℕ))) → AreKeysOfParts parts.now done
        → IsCutOrSame (flat done top.old.items) (flat done top.new.items) stop) }
    ensures free { OnOk result ((done : List (List (List ℕ))) → AreKeysOfParts parts.now done
        → MayBeUsed (uses_in (flat done top.new.items)) base.now (uses_in (flat done top.new.items) base.now)) }
{
    let counts = count_parts(alloc, parts, base)?;
    let mut so_far = Uses::none();
    let Some(index) = pass(top, &counts, base, &mut so_far) else {
        return Ok(None);
    };
    let mut row = top[index];
    top.truncate(index);
    'rows: loop {
        match row {
            Row::Use(key) => {
                let after = so_far.and(Uses::of_key(base, key));
                return Ok(Some(FoundClash {
                    base,
                    number: after.least.unwrap_or(usize::MAX),
                    is_alias_first: key == base,
                }));
            }
            Row::Part(part) => {
                let rows = parts[part].as_slice();
                let Some(index) = pass(rows, &counts, base, &mut so_far) else {
                    return Ok(None);
                };
                top.extend_from_slice(&rows[..index])?;
                row = rows[index];
            }
        }
    }
}

fn add_base<'a>(bases: &mut BTreeMap<&'a str, ()>, row: Row<'a>) -> Result<(), AllocError>
    ensures kept { OnOk result ((base : List ℕ) → has_base bases.old base ≡ true → has_base bases.new base ≡ true) }
    ensures added { OnOk result (HasBasesOf (flat [] (row.entry ∷ [])) bases.new) }
{
    match row {
        Row::Part(_) => Ok(()),
        Row::Use(key) => match base_of_numbered(key) {
            Some(base) => {
                bases.insert(base, ())?;
                Ok(())
            }
            None => Ok(()),
        },
    }
}

fn add_bases<'a>(bases: &mut BTreeMap<&'a str, ()>, rows: &[Row<'a>]) -> Result<(), AllocError>
    ensures kept { OnOk result ((base : List ℕ) → has_base bases.old base ≡ true → has_base bases.new base ≡ true) }
    ensures added { OnOk result (HasBasesOf (flat [] rows.now) bases.new) }
{
    'rows: for row in rows {
        add_base(bases, *row)?;
    }
    Ok(())
}

fn bases_of<'a>(
    alloc: Global,
    parts: &[Vec<Row<'a>>],
    top: &[Row<'a>],
) -> Result<BTreeMap<&'a str, ()>, AllocError>
    requires { AreBelow (length parts.now) top.now }
    ensures { IfOk result (λ bases. (done : List (List (List ℕ))) → AreKeysOfParts parts.now done
        → HasBasesOf (flat done top.now) bases) }
{
    let mut bases = BTreeMap::new(alloc);
    add_bases(&mut bases, top)?;
    'parts: for rows in parts {
        add_bases(&mut bases, rows)?;
    }
    Ok(bases)
}

/// Cuts `top` before the later placeholder of the first clash.
///
/// Fails as well if a base key `x` is used 2^64 times or more and the least number n of an alias `x[n]`
/// is `usize::MAX` or more, since then it isn't known whether they clash.
pub(crate) fn find_clash<'a>(
    alloc: Global,
    parts: &[Vec<Row<'a>>],
    top: &mut Vec<Row<'a>>,
) -> Result<Option<FoundClash<'a>>, AllocError>
    requires falls { NameEarlierParts parts.now }
    requires below { AreBelow (length parts.now) top.old.items }
    ensures { IfOk result (λ found. (done : List (List (List ℕ))) → AreKeysOfParts parts.now done
        → FindsClash (flat done top.old.items) found) }
{
    let bases = bases_of(alloc, parts, top)?;
    let mut found: Option<FoundClash<'a>> = None;
    'bases: for (base, _) in &bases {
        if let Some(clash) = cut(alloc, parts, top, base)? {
            found = Some(clash);
        }
    }
    match found {
        // own error: the base key is used 2^64 times or more, and the number may be greater than that.
        Some(clash) if clash.number == usize::MAX => Err(AllocError),
        _ => Ok(found),
    }
}

//! Base keys, and keys with a number such as `key[2]`: how they are written and read back.
ghost use Rattle.std.specs.Prelude.{◌≡◌, ℕ, suc, false, IfOk, MatchOption};
ghost use Rattle.std.specs.String.{string_bytes};
ghost use Rattle.grok.specs.Keys.{numbered, ends_in_number, base_key as base_key_of};
ghost use Rattle.grok.specs.Items.{label_view};
ghost use Rattle.grok.specs.Numeral.{numeral};

use crate::defs::items::Label;
use crate::numeral::is_numeral_from_one;
use std::alloc::{AllocError, Global};

pub(crate) fn base_key<'a>(label: Label<'a>) -> &'a str
    ensures { result.now ≡ base_key_of (label_view label.entry) }
{
    if label.alias.is_empty() {
        label.name
    } else {
        label.alias
    }
}

pub(crate) fn numbered_key(alloc: Global, base: &str, count: usize) -> Result<String, AllocError>
    ensures { IfOk result (λ key. string_bytes key ≡ numbered base.now count) }
{
    if count == 0 {
        String::from_str(alloc, base)
    } else {
        format!(in alloc; "{base}[{count}]")
    }
}

pub(crate) fn split_numbered(key: &str) -> Option<(&str, &str)>
    ensures { MatchOption result (ends_in_number key.now ≡ false)
        (λ parts. (count : ℕ) × (parts.1.now ≡ numeral (suc count))
        × (key.now ≡ numbered parts.0.now (suc count))) }
{
    let inside = key.strip_suffix(']')?;
    let (base, digits) = inside.rsplit_once('[')?;
    if is_numeral_from_one(digits) {
        Some((base, digits))
    } else {
        None
    }
}

/// Only an alias that ends in a number in brackets can be equal to the numbered key of another alias.
#[tactic(auto, using(crate::proofs::Keys::NumberedKeysEndInNumber::numbered_ends))]
pub(crate) fn ends_in_number(alias: &str) -> bool
    ensures { result ≡ ends_in_number alias.now }
{
    split_numbered(alias).is_some()
}

pub(crate) fn base_of_numbered(alias: &str) -> Option<&str>
    ensures { MatchOption result (ends_in_number alias.now ≡ false)
        (λ base. (count : ℕ) × (alias.now ≡ numbered base.now (suc count))) }
{
    let (base, _digits) = split_numbered(alias)?;
    Some(base)
}

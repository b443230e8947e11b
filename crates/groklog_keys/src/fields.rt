//! The keys of patterns that are written: those of `--fields`, or in records all of them.
ghost use Rattle.std.specs.Prelude.{◌≡◌, IfErr, IfOk, List, ℕ, None, Some, false, option_map, true};
ghost use Rattle.groklog_keys.specs.AllKeys.{all_keys, texts_of};
ghost use Rattle.groklog_options.specs.OptionFaults.{IsOptionFault};
ghost use Rattle.groklog_options.specs.Tasks.{fields_of, has_records};
ghost use denote.Ref.{Bor};

use crate::keys::{check_list, key_set};
use groklog_answers::NamedPattern;
use groklog_options::Task;
use groklog_reports::{Report, RunFault};
use std::alloc::{AllocError, Global};

fn all_keys<'p>(alloc: Global, patterns: &[NamedPattern<'p>]) -> Result<Vec<&'p str>, AllocError>
    ensures { IfOk result (λ keys. texts_of keys.items ≡ all_keys patterns.now) }
{
    let mut all = Vec::new(alloc);
    'keys: for key in &key_set(alloc, patterns)? {
        all.push(*key)?;
    }
    Ok(all)
}

/// Returns the keys of patterns that are written, in their order, or `None` if all of them are.
///
/// # Errors
///
/// Returns an error if `--fields` names a key that no pattern has, or a key twice, if records would
/// have no columns, or if an allocation fails.
pub fn chosen_fields<'p>(
    alloc: Global,
    task: &Task<'p>,
    patterns: &[NamedPattern<'p>],
) -> Result<Option<Vec<&'p str>>, RunFault>
    ensures fault { IfErr result IsOptionFault }
    ensures named { IfOk result (λ chosen. (keys : List (Bor (List ℕ))) → fields_of task.now ≡ Some keys
        → option_map (λ names. names.items) chosen ≡ Some keys) }
    ensures all { IfOk result (λ chosen. fields_of task.now ≡ None → has_records task.now ≡ false → chosen ≡ None) }
    ensures columns { IfOk result (λ chosen. fields_of task.now ≡ None → has_records task.now ≡ true
        → option_map (λ names. texts_of names.items) chosen ≡ Some (all_keys patterns.now)) }
{
    if let Some(fields) = task.fields() {
        check_list(alloc, patterns, "--fields", fields)?;
        return Ok(Some(Vec::from_slice(alloc, fields)?));
    }
    if !task.has_records() {
        return Ok(None);
    }
    let keys = all_keys(alloc, patterns)?;
    if keys.is_empty() && !task.has_additions() {
        let what = "--csv has no columns, since the pattern has no key";
        let advice = "give a placeholder an alias, as in %{NAME:key}";
        return Err(RunFault::Usage(Report::new(alloc, what, advice)?));
    }
    Ok(Some(keys))
}

//! Checks the keys that options such as `--tag` and `--count` name.
ghost use Rattle.std.specs.Prelude.{◌≡◌, IfOk, IfErr, OnOk, false};
ghost use Rattle.groklog_keys.specs.AllKeys.{all_keys, own_keys, set_texts, with_key, with_keys};
ghost use Rattle.groklog_keys.specs.Keys.{added_by_task, has_key, has_taken_key, some_has_key};
ghost use Rattle.groklog_options.specs.OptionFaults.{IsOptionFault};

use groklog_answers::{Added, NamedPattern};
use groklog_options::{AnswerOptions, Task, nearest, option_of};
use groklog_reports::{Report, RunFault};
use std::alloc::{AllocError, Global};
use std::collections::BTreeSet;

/// Returns the option that adds something under this key, or `None` if none of these does.
fn option_of_key(added: &[Added<'_>], key: &str) -> Option<&'static str> {
    for one in added {
        if one.key == key {
            return Some(option_of(one.what));
        }
    }
    None
}

/// Returns the fault that reports what is wrong with a key of an option.
fn key_fault(alloc: Global, what: String, advice: &str) -> Result<RunFault, AllocError>
    ensures { IfOk result IsOptionFault }
{
    Ok(RunFault::Usage(Report::new(alloc, what.as_str(), advice)?))
}

/// Returns the fault that reports that something else has the key that an option names.
fn taken_key(alloc: Global, what: String, option: &str) -> Result<RunFault, AllocError>
    ensures { IfOk result IsOptionFault }
{
    let advice = format!(in alloc; "name another key after --{option}")?;
    key_fault(alloc, what, advice.as_str())
}

/// Checks that no two options name the same key.
fn check_repeated(alloc: Global, answers: &AnswerOptions<'_>) -> Result<(), RunFault>
    ensures { IfErr result IsOptionFault }
{
    let added = &answers.added;
    if answers.tags_failures
        && let Some(option) = option_of_key(added, "tags")
    {
        let what = format!(in alloc; "--logstash and --{option} have the same key tags")?;
        return Err(taken_key(alloc, what, option)?);
    }
    for (i, one) in added.iter().enumerate() {
        let earlier = added.get(..i).unwrap_or(&[]);
        if let Some(first) = option_of_key(earlier, one.key) {
            let (second, key) = (option_of(one.what), one.key);
            let what = format!(in alloc; "--{first} and --{second} have the same key {key}")?;
            return Err(key_fault(alloc, what, "name another key after one of them")?);
        }
    }
    Ok(())
}

fn has_key(named: &NamedPattern<'_>, key: &str) -> bool
    ensures { result ≡ has_key named.now key.now }
{
    named.pattern.group_of(key).is_some()
}

fn some_has_key(patterns: &[NamedPattern<'_>], key: &str) -> bool
    ensures { result ≡ some_has_key patterns.now key.now }
{
    patterns.iter().any(|named| has_key(named, key))
}

/// Returns whether a key is a member of the object that the plan of a pattern describes.
fn is_member(named: &NamedPattern<'_>, key: &str) -> bool {
    named.plan.is_some_and(|plan| plan.has_member(key))
}

/// Checks that the key of what is added is neither a key of a pattern nor of the object that a plan
/// describes.
fn check_free(
    alloc: Global,
    patterns: &[NamedPattern<'_>],
    added: &Added<'_>,
) -> Result<(), RunFault>
    ensures fault { IfErr result IsOptionFault }
    ensures free { OnOk result (some_has_key patterns.now added.now.key.now ≡ false) }
{
    let (option, key) = (option_of(added.what), added.key);
    if some_has_key(patterns, key) || patterns.iter().any(|named| is_member(named, key)) {
        let what = format!(in alloc; "--{option} has the key {key}, which a pattern has too")?;
        return Err(taken_key(alloc, what, option)?);
    }
    Ok(())
}

/// Checks the same of the keys of all that is added.
fn check_all_free(
    alloc: Global,
    patterns: &[NamedPattern<'_>],
    added: &[Added<'_>],
) -> Result<(), RunFault>
    ensures fault { IfErr result IsOptionFault }
    ensures free { OnOk result (has_taken_key patterns.now added.now ≡ false) }
{
    'added: for one in added {
        check_free(alloc, patterns, one)?;
    }
    Ok(())
}

#[tactic(auto, using(crate::proofs::TextsOfSets::one_more_key))]
fn add_key<'p>(keys: &mut BTreeSet<&'p str>, key: &'p str) -> Result<(), AllocError>
    ensures { OnOk result (set_texts keys.new ≡ with_key (set_texts keys.old) key.now) }
{
    keys.insert(key)?;
    Ok(())
}

fn add_keys<'p>(keys: &mut BTreeSet<&'p str>, named: &NamedPattern<'p>) -> Result<(), AllocError>
    ensures { OnOk result (set_texts keys.new ≡ with_keys (set_texts keys.old) (own_keys named.now)) }
{
    'keys: for key in named.pattern.capture_names() {
        add_key(keys, key)?;
    }
    Ok(())
}

/// Returns all keys of the patterns.
pub fn key_set<'p>(
    alloc: Global,
    patterns: &[NamedPattern<'p>],
) -> Result<BTreeSet<&'p str>, AllocError>
    ensures { IfOk result (λ keys. set_texts keys ≡ all_keys patterns.now) }
{
    let mut keys = BTreeSet::new(alloc);
    'patterns: for named in patterns {
        add_keys(&mut keys, named)?;
    }
    Ok(keys)
}

/// How many keys of patterns a report lists.
const LISTED: usize = 20;

/// Returns the advice for a key that none of these patterns has, whose keys are `known`.
fn advice_for_key(alloc: Global, known: &BTreeSet<&str>, key: &str) -> Result<String, AllocError> {
    if known.is_empty() {
        return String::from_str(alloc, "give a placeholder an alias, as in %{NAME:key}");
    }
    let mut advice = match nearest(alloc, known, key)? {
        Some(near) => format!(in alloc; "write {near} if you mean that; keys of patterns: ")?,
        None => String::from_str(alloc, "write a key of a pattern: ")?,
    };
    for (i, key) in known.iter().take(LISTED).enumerate() {
        advice.push_str(if i > 0 { ", " } else { "" })?;
        advice.push_str(key)?;
    }
    if known.len() > LISTED {
        advice.push_str(", and others that --explain shows")?;
    }
    Ok(advice)
}

/// Checks that each of the keys that an option names is a key of a pattern, and is named once.
///
/// # Errors
///
/// Returns a fault if no pattern has one of them, or if it is named twice, or an error if an allocation fails.
pub fn check_list<'p>(
    alloc: Global,
    patterns: &[NamedPattern<'p>],
    option: &str,
    keys: &[&'p str],
) -> Result<(), RunFault>
    ensures { IfErr result IsOptionFault }
{
    let known = key_set(alloc, patterns)?;
    let mut named = BTreeSet::new(alloc);
    for key in keys {
        if !known.contains(key) {
            let what = format!(in alloc; "{option} has the key {key}, which no pattern has")?;
            let advice = advice_for_key(alloc, &known, key)?;
            return Err(key_fault(alloc, what, advice.as_str())?);
        }
        if !named.insert(*key)? {
            let what = format!(in alloc; "{option} has the key {key} twice")?;
            return Err(key_fault(alloc, what, "name each key once")?);
        }
    }
    Ok(())
}

/// Checks that the keys that options such as `--tag` name differ from each other and from the keys
/// of the patterns, and that a pattern has each key that `--count` names.
///
/// # Errors
///
/// Returns the first fault of these keys, or an error if an allocation fails.
pub fn check_keys(
    alloc: Global,
    task: &Task<'_>,
    patterns: &[NamedPattern<'_>],
) -> Result<(), RunFault>
    ensures fault { IfErr result IsOptionFault }
    ensures free { OnOk result (has_taken_key patterns.now (added_by_task task.now) ≡ false) }
{
    match task {
        Task::Answers(answers) => {
            check_repeated(alloc, answers)?;
            check_all_free(alloc, patterns, &answers.added)
        }
        Task::Counts(counts) => check_list(alloc, patterns, "--count", &counts.keys),
        Task::Shown(_) | Task::Page(_) | Task::Why(_) => Ok(()),
        Task::Suggestions(_) | Task::Explanation | Task::List(_) => Ok(()),
    }
}

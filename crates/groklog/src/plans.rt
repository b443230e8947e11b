//! Pairs patterns with their tags, and with the plans of where their values are written, for `--nested` and `--merge`.

use grok::Pattern;
use groklog_answers::{NamedPattern, Plan, PlanClash, PlanError, SharedKey};
use groklog_options::{GivenPattern, PlanOptions};
use groklog_patterns::RunPattern;
use groklog_reports::{Report, RunFault};
use std::alloc::{AllocError, Global};
use std::collections::BTreeSet;

/// Returns each key of a pattern with the key that its values are written under: with `--merge`, its
/// base key. The keys of placeholders come first, in reading order.
fn shared_keys<'p>(
    alloc: Global,
    plan: PlanOptions,
    pattern: &'p Pattern,
) -> Result<Vec<SharedKey<'p>>, AllocError> {
    let mut known = BTreeSet::new(alloc);
    let mut keys = Vec::new(alloc);
    for placeholder in pattern.placeholder_keys() {
        let key = placeholder.key.as_str();
        let base = if plan.is_merged {
            placeholder.base()
        } else {
            key
        };
        known.insert(key)?;
        keys.push(SharedKey { key, base })?;
    }
    for key in pattern.capture_names() {
        if !known.contains(&key) {
            keys.push(SharedKey { key, base: key })?;
        }
    }
    Ok(keys)
}

fn clash_fault(
    alloc: Global,
    plan: PlanOptions,
    words: &str,
    clash: PlanClash<'_>,
) -> Result<RunFault, AllocError> {
    let PlanClash { first, second } = clash;
    let what = format!(in alloc;
        "in {words}, the keys {first} and {second} can't be nested: both would be the same member, or one would be inside the value of the other"
    )?;
    let advice = if plan.is_merged {
        "give one of them another alias"
    } else {
        "give one of them another alias, or use --merge if the number at its end comes from several placeholders with one key"
    };
    let report = Report::new(alloc, what.as_str(), advice)?;
    Ok(RunFault::Usage(report))
}

fn plan_of<'p>(
    alloc: Global,
    plan: PlanOptions,
    pattern: &'p RunPattern,
) -> Result<Plan<'p>, RunFault> {
    let words = pattern.text.words.as_str();
    let keys = shared_keys(alloc, plan, &pattern.pattern)?;
    match Plan::new(alloc, &keys, plan.is_nested) {
        Ok(plan) => Ok(plan),
        // own error: an allocation failed, as the plan reported.
        Err(PlanError::Memory) => Err(RunFault::Memory),
        Err(PlanError::Clash(clash)) => Err(clash_fault(alloc, plan, words, clash)?),
    }
}

/// Returns the plan for the keys of each pattern, or nothing if no plan is wanted.
///
/// # Errors
///
/// Returns the fault of the first pattern that has two keys which can't both be written, or an error
/// if an allocation fails.
pub fn plan_all<'p>(
    alloc: Global,
    plan: PlanOptions,
    patterns: &'p [RunPattern],
) -> Result<Vec<Plan<'p>>, RunFault> {
    let mut plans = Vec::new(alloc);
    if !plan.is_planned() {
        return Ok(plans);
    }
    for pattern in patterns {
        plans.push(plan_of(alloc, plan, pattern)?)?;
    }
    Ok(plans)
}

/// Pairs each pattern with its tag, which is its name or else its text, and with its plan if there are
/// plans.
pub fn with_tags<'p>(
    alloc: Global,
    given: &[GivenPattern<'p>],
    patterns: &'p [RunPattern],
    plans: &'p [Plan<'p>],
) -> Result<Vec<NamedPattern<'p>>, AllocError> {
    let mut named = Vec::new(alloc);
    for (i, (given, RunPattern { pattern, .. })) in given.iter().zip(patterns).enumerate() {
        let (tag, plan) = (given.tag(), plans.get(i));
        named.push(NamedPattern { tag, pattern, plan })?;
    }
    Ok(named)
}

//! Rewrites what was made for Logstash: the patterns, and the definitions that they use.

use grok::Measure;
use grok::parser::uses_in;
use groklog_definitions::{DefinitionSource, Library, Origin, PatternText, common_definition};
use groklog_reports::{Report, RunFault, add_excerpt};
use oniguruma_syntax::{Outcome, Reason, RefusedPart, RewriteOptions, Rewritten, rewrite};
use std::alloc::{AllocError, Global};
use std::collections::BTreeSet;

/// The patterns as they are compiled, and notes on what was changed in them and in the definitions
/// that they use, ready to be shown.
#[derive(Drop)]
pub struct Adapted {
    pub texts: Vec<PatternText>,
    pub notes: Vec<String>,
}

/// Returns the user's definitions that patterns use, themselves or through other definitions. Each comes
/// once, in the byte order of their names.
fn used_sources<'a>(
    alloc: Global,
    library: &Library<'a>,
    patterns: &[PatternText],
) -> Result<Vec<DefinitionSource<'a>>, AllocError> {
    let mut found = Vec::new(alloc);
    let mut seen = BTreeSet::new(alloc);
    let mut left = Vec::new(alloc);
    for pattern in patterns {
        left.extend(uses_in(pattern.text.as_str()).map(|each| each.name))?;
    }
    for _ in 0..u64::MAX {
        let Some(name) = left.pop() else {
            break;
        };
        if !seen.insert(name)? {
            continue;
        }
        let (Some(source), Some(text)) = (library.source(name), library.grok.definition(name))
        else {
            continue;
        };
        left.extend(uses_in(text).map(|each| each.name))?;
        if source.origin.is_own() {
            found.push(source)?;
        }
    }
    found.sort_by_key(|source| source.name)?;
    Ok(found)
}

/// Replaces a definition of the user's by the common definition of the same name, if there is one. Returns
/// whether the common one has no fault then: the user's other definitions may lead it back to its own name.
fn can_leave_out<'a>(
    alloc: Global,
    library: &mut Library<'a>,
    source: DefinitionSource<'a>,
) -> Result<bool, AllocError> {
    let Some(text) = common_definition(source.name) else {
        return Ok(false);
    };
    if !library.has_common {
        return Ok(false);
    }
    library.store(source, text)?;
    let pattern = format!(in alloc; "%{{{}}}", source.name)?;
    let measure = library.grok.measure(pattern.as_str(), true)?;
    Ok(!matches!(measure, Measure::Fault(_)))
}

fn advice_for<'a>(
    alloc: Global,
    library: &mut Library<'a>,
    source: DefinitionSource<'a>,
    reason: Reason,
) -> Result<String, AllocError> {
    let advice = reason.advice();
    if can_leave_out(alloc, library, source)? {
        let name = source.name;
        format!(in alloc;
            "leave this definition out, since groklog has its own {name}; or {advice}"
        )
    } else {
        String::from_str(alloc, advice)
    }
}

fn refusal(
    alloc: Global,
    text: &str,
    location: &str,
    refused: RefusedPart,
    advice: &str,
) -> Result<RunFault, AllocError> {
    let RefusedPart { reason, range } = refused;
    let what = format!(in alloc; "--from-logstash can't rewrite this: {reason}")?;
    let mut report = Report::new(alloc, what.as_str(), advice)?;
    add_excerpt(alloc, &mut report, location, text, range)?;
    Ok(RunFault::Pattern(report))
}

/// Rewrites a text, and appends a note for each change.
fn adapt(
    alloc: Global,
    notes: &mut Vec<String>,
    text: &str,
    location: &str,
    rewrite_options: RewriteOptions,
) -> Result<Result<String, RefusedPart>, AllocError> {
    match rewrite(alloc, text, rewrite_options)? {
        Outcome::Refused(refused) => Ok(Err(refused)),
        Outcome::Kept => Ok(Ok(String::from_str(alloc, text)?)),
        Outcome::Rewritten(Rewritten { text, changes }) => {
            for change in &changes {
                notes.push(format!(in alloc; "in {location}, {change}")?)?;
            }
            Ok(Ok(text))
        }
    }
}

/// Returns words for a stored definition and for where it was given.
fn location_of(alloc: Global, source: DefinitionSource<'_>) -> Result<String, AllocError> {
    let DefinitionSource { name, origin } = source;
    format!(in alloc; "the definition {name} ({origin})")
}

/// Rewrites a stored definition that the patterns use, and appends a note for each change.
fn adapt_definition<'a>(
    alloc: Global,
    library: &mut Library<'a>,
    notes: &mut Vec<String>,
    source: DefinitionSource<'a>,
    rewrite_options: RewriteOptions,
) -> Result<(), RunFault> {
    let Some(text) = library.grok.definition(source.name) else {
        return Ok(());
    };
    let text = String::from_str(alloc, text)?;
    let location = location_of(alloc, source)?;
    let (text, location) = (text.as_str(), location.as_str());
    match adapt(alloc, notes, text, location, rewrite_options)? {
        Ok(rewritten) => Ok(library.store(source, rewritten.as_str())?),
        Err(refused) => {
            let advice = advice_for(alloc, library, source, refused.reason)?;
            Err(refusal(alloc, text, location, refused, advice.as_str())?)
        }
    }
}

/// Returns a pattern as it is rewritten, and appends a note for each change.
fn adapt_pattern(
    alloc: Global,
    notes: &mut Vec<String>,
    pattern: &PatternText,
    rewrite_options: RewriteOptions,
) -> Result<PatternText, RunFault> {
    let (text, words) = (pattern.text.as_str(), pattern.words.as_str());
    let whole = RewriteOptions {
        is_whole: true,
        ..rewrite_options
    };
    match adapt(alloc, notes, text, words, whole)? {
        Ok(text) => {
            let words = String::from_str(alloc, words)?;
            Ok(PatternText {
                text,
                words,
                with_alias_only: pattern.with_alias_only,
            })
        }
        Err(refused) => {
            let advice = refused.reason.advice();
            Err(refusal(alloc, text, words, refused, advice)?)
        }
    }
}

/// Rewrites the user's definitions that the patterns use, and then the patterns.
///
/// # Errors
///
/// Returns an error if a part of them has no form for the engine, or if an allocation fails.
pub fn adapt_all(
    alloc: Global,
    library: &mut Library<'_>,
    given: &[PatternText],
    rewrite_options: RewriteOptions,
) -> Result<Adapted, RunFault> {
    let mut notes = Vec::new(alloc);
    for source in &used_sources(alloc, library, given)? {
        adapt_definition(alloc, library, &mut notes, *source, rewrite_options)?;
    }
    let mut texts = Vec::new(alloc);
    for pattern in given {
        texts.push(adapt_pattern(alloc, &mut notes, pattern, rewrite_options)?)?;
    }
    Ok(Adapted { texts, notes })
}

/// Returns the names of the user's definitions that no other definition of the user uses, in byte order. These
/// are for whole texts, and not for parts of them.
pub fn own_wholes<'a>(alloc: Global, library: &Library<'a>) -> Result<Vec<&'a str>, AllocError> {
    let own = library.own_sources(alloc)?;
    let mut used = Vec::new(alloc);
    for source in &own {
        if let Some(text) = library.grok.definition(source.name) {
            used.extend(uses_in(text).map(|each| each.name))?;
        }
    }
    let mut wholes = Vec::new(alloc);
    for source in &own {
        if !used.contains(&source.name) {
            wholes.push(source.name)?;
        }
    }
    Ok(wholes)
}

/// Rewrites the user's definitions, and returns a note for each change, ready to be shown. A definition that has
/// a part without a form for the engine stays as it is.
pub fn adapt_own(
    alloc: Global,
    library: &mut Library<'_>,
    rewrite_options: RewriteOptions,
) -> Result<Vec<String>, AllocError> {
    let mut notes = Vec::new(alloc);
    for source in &library.own_sources(alloc)? {
        let Some(text) = library.grok.definition(source.name) else {
            continue;
        };
        let location = location_of(alloc, *source)?;
        if let Ok(text) = adapt(alloc, &mut notes, text, location.as_str(), rewrite_options)? {
            library.store(*source, text.as_str())?;
        }
    }
    Ok(notes)
}

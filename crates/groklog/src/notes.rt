//! Notes on what is allowed, but hardly what the user meant. They are shown before any line is read.

use grok::{Pattern, PlaceholderKey};
use groklog_answers::{Addition, Lines, OutputFormat, asks_for_numbers};
use groklog_definitions::Library;
use groklog_options::{Options, Task};
use groklog_patterns::{RunPattern, bare_name};
use groklog_reports::Unit;
use std::alloc::{AllocError, Global};
use std::collections::BTreeSet;
use std::fs;
use std::rt::Files;

/// Adds a note for each key of a placeholder that no group of the engine has. That is so inside a
/// character class, where the engine reads the placeholder's group as characters.
fn note_lost_keys(
    alloc: Global,
    run_pattern: &RunPattern,
    notes: &mut Vec<String>,
) -> Result<(), AllocError> {
    let RunPattern { text, pattern } = run_pattern;
    let words = text.words.as_str();
    for PlaceholderKey { key, .. } in pattern.placeholder_keys() {
        if pattern.group_of(key.as_str()).is_none() {
            notes.push(format!(in alloc;
                "in {words}, the key {key} never has a value: its placeholder is inside a character class [..], where it means its characters; write \\[ for the bracket itself"
            )?)?;
        }
    }
    Ok(())
}

/// Returns the names of groups that are also the keys of placeholders. They were written by hand, as
/// `(?<user>..)` was.
fn shared_names(alloc: Global, pattern: &Pattern) -> Result<Vec<&str>, AllocError> {
    let mut shared = Vec::new(alloc);
    // If each group with a name has a key of its own, nothing is shared.
    let named = pattern.group_names().iter().flatten().count();
    if named == pattern.capture_names().count() {
        return Ok(shared);
    }
    let mut of_placeholders = BTreeSet::new(alloc);
    for PlaceholderKey { key, .. } in pattern.placeholder_keys() {
        of_placeholders.insert(key.as_str())?;
    }
    for name in pattern.group_names().iter().flatten() {
        if of_placeholders.contains(&name.as_str()) {
            shared.push(name.as_str())?;
        }
    }
    Ok(shared)
}

/// Adds a note for each key that two groups of the engine have, one of which was written by hand.
fn note_shared_keys(
    alloc: Global,
    run_pattern: &RunPattern,
    notes: &mut Vec<String>,
) -> Result<(), AllocError> {
    let RunPattern { text, pattern } = run_pattern;
    let words = text.words.as_str();
    for key in &shared_names(alloc, pattern)? {
        notes.push(format!(in alloc;
            "in {words}, two groups have the key {key}, and only one of their values is written; give one of them another name"
        )?)?;
    }
    Ok(())
}

/// Adds a note for each key that is the name of an extract, as that of `%{IP:int}`.
fn note_extracts_as_keys(
    alloc: Global,
    run_pattern: &RunPattern,
    notes: &mut Vec<String>,
) -> Result<(), AllocError> {
    let RunPattern { text, pattern } = run_pattern;
    let words = text.words.as_str();
    for PlaceholderKey { key, .. } in pattern.placeholder_keys() {
        let name = key.as_str();
        if asks_for_numbers(name) && pattern.get_extract(name).is_none() {
            notes.push(format!(in alloc;
                "in {words}, {name} is the key of a placeholder and not its extract; for the extract write %{{NAME:KEY:{name}}}"
            )?)?;
        }
    }
    Ok(())
}

/// Returns the note on a pattern that is the name of a definition, with or without a `%` and braces, and no
/// placeholder. As a pattern it has no keys.
fn note_on_name(
    alloc: Global,
    library: &Library<'_>,
    run_pattern: &RunPattern,
) -> Result<Option<String>, AllocError> {
    let text = &run_pattern.text;
    let (pattern, words) = (text.text.as_str(), text.words.as_str());
    let Some(name) = bare_name(library, pattern) else {
        return Ok(None);
    };
    Ok(Some(format!(in alloc;
        "{words} means the text {pattern} itself; for the definition of this name write '%{{{name}}}'"
    )?))
}

/// Returns whether a pattern ends with a placeholder of `GREEDYDATA`, and then `$`.
fn ends_greedily(pattern: &str) -> bool {
    let Some(inside) = pattern.strip_suffix("}$") else {
        return false;
    };
    match inside.rsplit_once("%{GREEDYDATA") {
        Some((_, key)) => (key.is_empty() || key.starts_with(':')) && !key.contains('}'),
        None => false,
    }
}

/// Returns the note on a pattern for events that ends with `GREEDYDATA` and `$`, so that it finds only the last line of
/// an event.
fn note_on_greedy_data(
    alloc: Global,
    unit: Unit,
    run_pattern: &RunPattern,
) -> Result<Option<String>, AllocError> {
    let text = &run_pattern.text;
    let words = text.words.as_str();
    if unit != Unit::Event || !ends_greedily(text.text.as_str()) {
        return Ok(None);
    }
    Ok(Some(format!(in alloc;
        "in {words}, GREEDYDATA before $ is in the last line of an event, since it has no line feed; for several lines write (?<KEY>(?s:.*))$"
    )?))
}

/// Returns notes on a pattern: on keys that never have a value, that share one, or that are named
/// like an extract, on a pattern that is the name of a definition, and on one that finds less of an event than is meant.
pub fn notes_of_pattern(
    alloc: Global,
    library: &Library<'_>,
    unit: Unit,
    run_pattern: &RunPattern,
) -> Result<Vec<String>, AllocError> {
    let mut notes = Vec::new(alloc);
    note_lost_keys(alloc, run_pattern, &mut notes)?;
    note_shared_keys(alloc, run_pattern, &mut notes)?;
    note_extracts_as_keys(alloc, run_pattern, &mut notes)?;
    if let Some(note) = note_on_name(alloc, library, run_pattern)? {
        notes.push(note)?;
    }
    if let Some(note) = note_on_greedy_data(alloc, unit, run_pattern)? {
        notes.push(note)?;
    }
    Ok(notes)
}

/// Returns whether the answer to a line that matches is nothing but values of keys, so that it is of no use without
/// keys. `--csv` refuses that.
fn is_for_values(options: &Options<'_>) -> bool {
    let Task::Answers(answers) = &options.task else {
        return false;
    };
    // --failed adds something to other lines only.
    let is_bare = answers
        .added
        .iter()
        .all(|added| added.what == Addition::Failed);
    is_bare
        && !matches!(answers.lines, Lines::Unmatched)
        && !matches!(answers.format, OutputFormat::Csv)
        && !options.has_exit_status
}

/// Returns the note that no pattern has a key, or `None` if one has, or if the answers are of use without.
pub fn note_without_keys(
    alloc: Global,
    options: &Options<'_>,
    patterns: &[RunPattern],
) -> Result<Option<String>, AllocError> {
    let has_keys = patterns
        .iter()
        .any(|it| it.pattern.capture_names().next().is_some());
    if has_keys || !is_for_values(options) {
        return Ok(None);
    }
    Ok(Some(format!(in alloc;
        "no pattern has a key, so no value is found: add keys, as in '%{{WORD:word}}'"
    )?))
}

/// Returns a note for each key of a pattern that has an extract which `--typed` doesn't know.
pub fn notes_of_extracts(alloc: Global, pattern: &Pattern) -> Result<Vec<String>, AllocError> {
    let mut notes = Vec::new(alloc);
    for key in pattern.capture_names() {
        if let Some(extract) = pattern.get_extract(key)
            && !asks_for_numbers(extract)
        {
            notes.push(format!(in alloc;
                "the value of {key} is written as a text: --typed knows the extracts int and float, and not {extract}"
            )?)?;
        }
    }
    Ok(notes)
}

fn is_file(rt: &impl Files, name: &str) -> bool {
    fs::exists(rt, name).unwrap_or(false)
}

/// Returns notes on words that may be in the wrong order: a pattern that is the name of a file, and
/// names of files that look like patterns.
pub fn notes_of_words(
    rt: &(impl Files + AllocGlobal),
    options: &Options<'_>,
) -> Result<Vec<String>, AllocError> {
    let alloc = rt.alloc();
    let mut notes = Vec::new(alloc);
    if options.is_pattern_first
        && let Some(pattern) = options.patterns.as_slice().first()
        && is_file(rt, pattern.text)
    {
        notes.push(format!(in alloc;
            "the pattern {} is also the name of a file; the pattern comes first, then the files, and each -d takes one file or folder",
            pattern.text
        )?)?;
    }
    for file in &options.files {
        if file.contains("%{") && !is_file(rt, file) {
            notes.push(format!(in alloc;
                "there is no file {file}, which looks like a pattern; the pattern comes first, then the files; of several patterns each has -e before it"
            )?)?;
        }
    }
    Ok(notes)
}

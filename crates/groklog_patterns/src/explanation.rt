//! Explains patterns for `--explain`, without reading lines.

use crate::compiled::RunPattern;
use grok::{Measure, Pattern};
use groklog_definitions::{Library, PatternText};
use groklog_reports::visible;
use std::alloc::{AllocError, Global};

fn push_line(alloc: Global, lines: &mut String, line: &str) -> Result<(), AllocError> {
    let shown = visible(alloc, line)?;
    lines.push_str(shown.as_str())?;
    lines.push('\n')
}

fn push_key(
    alloc: Global,
    lines: &mut String,
    pattern: &Pattern,
    key: &str,
    group: usize,
) -> Result<(), AllocError> {
    let line = match pattern.get_extract(key) {
        Some(extract) => format!(in alloc; "  {key}: group {group}, extract {extract}")?,
        None => format!(in alloc; "  {key}: group {group}")?,
    };
    push_line(alloc, lines, line.as_str())
}

fn push_keys(alloc: Global, lines: &mut String, pattern: &Pattern) -> Result<(), AllocError> {
    for (group, key) in &pattern.keys_by_group()? {
        push_key(alloc, lines, pattern, key, *group)?;
    }
    Ok(())
}

fn size_line(
    alloc: Global,
    library: &Library<'_>,
    pattern: &PatternText,
) -> Result<String, AllocError> {
    let (grok, text) = (&library.grok, pattern.text.as_str());
    match grok.measure(text, pattern.with_alias_only)? {
        Measure::Size {
            length,
            groups,
            nesting,
        } => format!(in alloc; "size: length {length}, groups {groups}, nesting {nesting}\n"),
        // This doesn't happen: the pattern was compiled, so it has a size.
        _ => Ok(String::new(alloc)),
    }
}

/// Returns lines that explain a pattern: its text, its expanded text, its size, and its keys.
pub fn explain(
    alloc: Global,
    library: &Library<'_>,
    run_pattern: &RunPattern,
) -> Result<String, AllocError> {
    let RunPattern { text, pattern } = run_pattern;
    let expanded = pattern.text();
    let mut lines = String::new(alloc);
    let pattern_line = format!(in alloc; "pattern: {}", text.text)?;
    push_line(alloc, &mut lines, pattern_line.as_str())?;
    let expanded_line = format!(in alloc; "expands to: {expanded}")?;
    push_line(alloc, &mut lines, expanded_line.as_str())?;
    let size = size_line(alloc, library, text)?;
    lines.push_str(size.as_str())?;
    lines.push_str("keys:\n")?;
    push_keys(alloc, &mut lines, pattern)?;
    Ok(lines)
}

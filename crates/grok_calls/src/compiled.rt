//! Compiles a pattern over the definitions on standard input, and shows what came of it, or what it finds in a line.
use crate::libraries::library_of_input;
use anyhow::{Result, bail};
use grok::{Engine, Grok, MatchesOf, PatternOf, RegexEngine};
use grok_engines::{Bare, Heads};

/// Prints the expanded text of a pattern, its keys in their order, and the extracts of these names.
fn show_pattern<E: Engine>(
    rt: &HostRuntime,
    pattern: &PatternOf<E>,
    names: &[String],
) -> Result<()> {
    println!(rt; "text {}", pattern.text())?;
    for key in pattern.capture_names() {
        println!(rt; "key {key}")?;
    }
    for name in names {
        println!(rt; "extract {:?}", pattern.get_extract(name.as_str()))?;
    }
    Ok(())
}

/// Compiles the pattern, and prints the pattern or the error.
fn show_compiled<E: Engine>(
    rt: &HostRuntime,
    grok: &Grok,
    pattern: &str,
    with_alias_only: bool,
    names: &[String],
) -> Result<()> {
    match grok.compile_with::<E>(pattern, with_alias_only) {
        Ok(pattern) => show_pattern(rt, &pattern, names),
        Err(error) => {
            println!(rt; "error {error:?}")?;
            Ok(())
        }
    }
}

/// Compiles the pattern over `regex` or over an engine for tests, with the keys of all placeholders or of those with an alias.
pub(crate) fn call(rt: &HostRuntime, name: &str, pattern: &str, names: &[String]) -> Result<()> {
    let grok = library_of_input(rt)?;
    match name {
        "regex" => show_compiled::<RegexEngine>(rt, &grok, pattern, false, names),
        "regex_aliases" => show_compiled::<RegexEngine>(rt, &grok, pattern, true, names),
        "heads" => show_compiled::<Heads>(rt, &grok, pattern, false, names),
        "heads_aliases" => show_compiled::<Heads>(rt, &grok, pattern, true, names),
        "bare" => show_compiled::<Bare>(rt, &grok, pattern, false, names),
        _ => bail!("no engine has this name"),
    }
}

/// Prints what the match has for these keys.
fn show_values<E: Engine>(
    rt: &HostRuntime,
    matches: &MatchesOf<'_, E>,
    keys: &[String],
) -> Result<()> {
    for key in keys {
        println!(rt; "{:?}", matches.get(key.as_str()))?;
    }
    Ok(())
}

/// Prints the pattern, its match in the line, and what that has for these keys.
fn show_found<E: Engine>(
    rt: &HostRuntime,
    pattern: &PatternOf<E>,
    line: &str,
    keys: &[String],
) -> Result<()> {
    println!(rt; "{pattern:#?}")?;
    let found = pattern.match_against(line)?;
    println!(rt; "{found:#?}")?;
    match &found {
        Some(matches) => show_values(rt, matches, keys),
        None => Ok(()),
    }
}

/// Compiles the pattern with the keys of all placeholders, over `regex` or over an engine for tests, and shows what it finds
/// in the line.
pub(crate) fn find(
    rt: &HostRuntime,
    name: &str,
    (pattern, line): (&str, &str),
    keys: &[String],
) -> Result<()> {
    let grok = library_of_input(rt)?;
    match name {
        "regex" => show_found(rt, &grok.compile(pattern, false)?, line, keys),
        "heads" => show_found(rt, &grok.compile_with::<Heads>(pattern, false)?, line, keys),
        "bare" => show_found(rt, &grok.compile_with::<Bare>(pattern, false)?, line, keys),
        _ => bail!("no engine has this name"),
    }
}

//! Shows what calls return for a text on standard input, or for a pattern over the definitions there.
use crate::libraries::library_of_input;
use anyhow::{Result, bail};
use grok::Grok;
use grok::parser::{GrokComponent, Use, grok_split, uses_in};
use regex::Regex;
use std::io;

pub(crate) fn call(rt: &HostRuntime, name: &str, words: &[String]) -> Result<()> {
    match (name, words) {
        ("pieces", []) => show_pieces(rt),
        ("uses", []) => show_uses(rt),
        ("regex", []) => show_regex(rt),
        ("library", []) => show_library(rt),
        (_, [pattern]) => show_pattern(rt, name, &library_of_input(rt)?, pattern.as_str()),
        _ => bail!("no call of this name has these words"),
    }
}

/// Prints the range of a piece, or its fault, and the piece itself, as `Debug` writes them.
fn show_piece(rt: &HostRuntime, piece: &GrokComponent<'_>) -> Result<()> {
    match piece {
        GrokComponent::RegularExpression { range, .. } => println!(rt; "{range:?} {piece:#?}")?,
        GrokComponent::GrokPattern { range, .. } => println!(rt; "{range:?} {piece:#?}")?,
        GrokComponent::PatternError(fault) => println!(rt; "{fault:#?} {piece:#?}")?,
    }
    Ok(())
}

/// Splits the text on standard input.
fn show_pieces(rt: &HostRuntime) -> Result<()> {
    let text = io::read_to_string(rt.alloc(), rt.stdin())?;
    for piece in grok_split(text.as_str()) {
        show_piece(rt, &piece)?;
    }
    Ok(())
}

/// Prints the placeholders without a definition of their own in the text on standard input.
fn show_uses(rt: &HostRuntime) -> Result<()> {
    let text = io::read_to_string(rt.alloc(), rt.stdin())?;
    for Use { range, name, alias } in uses_in(text.as_str()) {
        println!(rt; "{range:?} {name:?} {alias:?}")?;
    }
    Ok(())
}

/// Compiles the text on standard input with `regex` alone.
fn show_regex(rt: &HostRuntime) -> Result<()> {
    let text = io::read_to_string(rt.alloc(), rt.stdin())?;
    let is_built = Regex::new(rt.alloc(), text.as_str()).is_ok();
    println!(rt; "built {is_built}")?;
    Ok(())
}

fn show_library(rt: &HostRuntime) -> Result<()> {
    let grok = library_of_input(rt)?;
    println!(rt; "{grok:#?}")?;
    Ok(())
}

fn show_pattern(rt: &HostRuntime, name: &str, grok: &Grok, pattern: &str) -> Result<()> {
    match name {
        "measure" => show_measure(rt, grok, pattern, false),
        "measure_aliases" => show_measure(rt, grok, pattern, true),
        "diagnosis" => show_diagnosis(rt, grok, pattern, false),
        "diagnosis_aliases" => show_diagnosis(rt, grok, pattern, true),
        "keys" => show_keys(rt, grok, pattern),
        _ => bail!("no call has this name"),
    }
}

/// Prints the measure of a pattern, and how many looks (pieces and ends that were read) it took.
fn show_measure(rt: &HostRuntime, grok: &Grok, pattern: &str, with_alias_only: bool) -> Result<()> {
    let (measure, looks) = grok.measure_counted(pattern, with_alias_only)?;
    println!(rt; "{measure:?} {looks:?}")?;
    Ok(())
}

fn show_diagnosis(
    rt: &HostRuntime,
    grok: &Grok,
    pattern: &str,
    with_alias_only: bool,
) -> Result<()> {
    let diagnosis = grok.diagnose(pattern, with_alias_only)?;
    println!(rt; "{diagnosis:?}")?;
    Ok(())
}

/// Prints how many keys the placeholders with an alias have, and the last of them.
fn show_keys(rt: &HostRuntime, grok: &Grok, pattern: &str) -> Result<()> {
    let keys = grok.keys(pattern, true)?;
    let last = keys.last().map(|key| key.key.as_str());
    println!(rt; "keys {} last {last:?}", keys.len())?;
    Ok(())
}

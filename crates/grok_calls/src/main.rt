//! Makes one call of the library or of the program's commands, the one that the words name.
//!
//! `pairs` compares the ways to match for `tests/pairs/run`, `devices` runs a command on devices that fail for
//! `tests/devices/run`, and `shown`, `compiled` and `found` show what calls return for `tests/rows/run`. Each other call is made
//! twice, for `tests/refusals/run`, which refuses each request for memory of the first one in turn. The lines `[call` and `[done`
//! on standard error mark where a call begins and ends, so that no request of the preparations is counted. Standard output has
//! what the calls return.
#![tactic(auto)]

mod compiled;
mod definitions;
mod devices;
mod engines;
mod errors;
mod libraries;
mod matches;
mod pairs;
mod patterns;
mod pieces;
mod shown;

use anyhow::{Result, bail};
use std::{env, fmt};

/// The labels of what a call returns the first time, and the second.
const LABELS: [&str; 2] = ["first", "again"];

/// Marks the beginning of a call on standard error.
fn begin(rt: &HostRuntime) -> Result<()> {
    eprintln!(rt; "[call")?;
    Ok(())
}

/// Marks the end of a call on standard error, and prints what it returned after the label.
fn finish<T: fmt::Debug + Drop>(rt: &HostRuntime, label: &str, returned: T) -> Result<()> {
    eprintln!(rt; "[done")?;
    println!(rt; "{label}: {returned:?}")?;
    Ok(())
}

/// Returns the words of the command line, without the program's name.
fn read_words(rt: &HostRuntime) -> Result<Vec<String>> {
    let mut words = Vec::new(rt.alloc());
    for word in env::args(rt)?.skip(1) {
        words.push(word)?;
    }
    Ok(words)
}

/// Makes the call `name` of the group `group`, with these words.
fn make_call(rt: &HostRuntime, group: &str, name: &str, words: &[String]) -> Result<()> {
    match (group, words) {
        ("shown", _) => shown::call(rt, name, words),
        ("compiled", [pattern, names @ ..]) => compiled::call(rt, name, pattern.as_str(), names),
        ("found", [pattern, line, keys @ ..]) => {
            compiled::find(rt, name, (pattern.as_str(), line.as_str()), keys)
        }
        ("patterns", [pattern, definitions @ ..]) => {
            patterns::call(rt, name, pattern.as_str(), definitions)
        }
        (_, []) => make_call_without_words(rt, group, name),
        _ => bail!("no call of this name has these words"),
    }
}

fn make_call_without_words(rt: &HostRuntime, group: &str, name: &str) -> Result<()> {
    match group {
        "pieces" => pieces::call(rt, name),
        "definitions" => definitions::call(rt, name),
        "errors" => errors::call(rt, name),
        "engines" => engines::call(rt, name),
        "matches" => matches::call(rt, name),
        _ => bail!("no calls have this name"),
    }
}

fn main(rt: HostRuntime) -> Result<()> {
    let words = read_words(&rt)?;
    match words.as_slice() {
        [group] if group.as_str() == "pairs" => pairs::call(&rt),
        [group, words @ ..] if group.as_str() == "runs" => devices::run_twice(&rt, words),
        [group, words @ ..] if group.as_str() == "devices" => devices::call(&rt, words),
        [group, call, words @ ..] => make_call(&rt, group.as_str(), call.as_str(), words),
        _ => bail!("usage: grok_calls CALLS CALL [WORD].. | grok_calls pairs < TEXT"),
    }
}

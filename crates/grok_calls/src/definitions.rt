//! Calls on libraries of definitions.
use crate::{LABELS, begin, finish};
use anyhow::{Result, bail};
use grok::Grok;
use grok_engines::Heads;
use std::fmt;

/// Three definitions, of which two have the same name.
const PAIRS: [(&str, &str); 3] = [
    ("A", "a"),
    ("B", "%{A:first}%{A:second:int}"),
    ("A", "(?:a|é)%{C=c}"),
];

/// Patterns that use these definitions, and one that uses a name which is added later.
const PATTERNS: [&str; 3] = ["%{A}", "%{B:key}-%{A}", "%{NEW}"];

pub(crate) fn call(rt: &HostRuntime, name: &str) -> Result<()> {
    match name {
        "add_new" => add_to_library(rt, "NEW"),
        "add_again" => add_to_library(rt, "A"),
        _ => call_on_library(rt, name, &Grok::from_iter(rt.alloc(), &PAIRS)?),
    }
}

fn call_on_library(rt: &HostRuntime, name: &str, grok: &Grok) -> Result<()> {
    'calls: for label in LABELS {
        begin(rt)?;
        ask(rt, label, name, grok)?;
    }
    Ok(())
}

fn ask(rt: &HostRuntime, label: &str, name: &str, grok: &Grok) -> Result<()> {
    match name {
        "names" => finish(rt, label, first_names(grok)),
        "definition" => finish(rt, label, (grok.definition("B"), grok.definition("NEW"))),
        "clone" => finish(rt, label, grok.clone()),
        _ => make(rt, label, name),
    }
}

/// Makes a library.
fn make(rt: &HostRuntime, label: &str, name: &str) -> Result<()> {
    let alloc = rt.alloc();
    match name {
        "empty" => finish(rt, label, Grok::empty(alloc)),
        "patterns" => finish(rt, label, grok::patterns()),
        "with_default_patterns" => finish(rt, label, Grok::with_default_patterns(alloc)),
        "default" => finish(rt, label, Grok::default(alloc)),
        "from_iter" => finish(rt, label, Grok::from_iter(alloc, &PAIRS)),
        _ => bail!("no call has this name"),
    }
}

fn first_names(grok: &Grok) -> [Option<&str>; 3] {
    let mut names = grok.names();
    [names.next(), names.next(), names.next()]
}

fn show<T: fmt::Debug + Drop>(rt: &HostRuntime, when: &str, value: T) -> Result<()> {
    println!(rt; "{when}: {value:?}")?;
    Ok(())
}

/// Prints all definitions of the library, and for each of `PATTERNS` its measure and the compiled pattern.
fn show_library(rt: &HostRuntime, when: &str, grok: &Grok) -> Result<()> {
    show(rt, when, grok)?;
    'patterns: for pattern in PATTERNS {
        show(rt, when, grok.measure(pattern, false))?;
        show(rt, when, grok.compile_with::<Heads>(pattern, false))?;
    }
    Ok(())
}

/// Sets the definition of `name`, and prints the library after that.
fn add_pattern(rt: &HostRuntime, label: &str, grok: &mut Grok, name: &str) -> Result<()> {
    begin(rt)?;
    finish(rt, label, grok.add_pattern(name, "x%{C=c}%{D:key:int=d}"))?;
    let when = format!(in rt.alloc(); "after {label}")?;
    show_library(rt, when.as_str(), grok)
}

/// Sets the definition of `name` twice, and prints the library before the first call and after each of them.
fn add_to_library(rt: &HostRuntime, name: &str) -> Result<()> {
    let mut grok = Grok::from_iter(rt.alloc(), &PAIRS)?;
    show_library(rt, "before", &grok)?;
    'calls: for label in LABELS {
        add_pattern(rt, label, &mut grok, name)?;
    }
    Ok(())
}

//! Calls on engines, without a pattern.
use crate::{LABELS, begin, finish};
use anyhow::{Result, bail};
use grok::{Engine, RegexEngine};
use grok_engines::Bare;

pub(crate) fn call(rt: &HostRuntime, name: &str) -> Result<()> {
    match name {
        "bare_captures" => call_on::<Bare>(rt, "captures", "(?<_n_0>a)"),
        "regex_text" => call_on::<RegexEngine>(rt, "text", "(?<key>a)(b)"),
        "regex_names" => call_on::<RegexEngine>(rt, "names", "(?<key>a)(b)"),
        _ => bail!("no call has this name"),
    }
}

fn call_on<E: Engine>(rt: &HostRuntime, name: &str, text: &str) -> Result<()> {
    match E::build(rt.alloc(), text) {
        Ok(engine) => ask_twice(rt, name, &engine),
        Err(_) => bail!("the engine refuses the text"),
    }
}

fn ask_twice<E: Engine>(rt: &HostRuntime, name: &str, engine: &E) -> Result<()> {
    'calls: for label in LABELS {
        begin(rt)?;
        ask(rt, label, name, engine)?;
    }
    Ok(())
}

fn ask<E: Engine>(rt: &HostRuntime, label: &str, name: &str, engine: &E) -> Result<()> {
    match name {
        "text" => finish(rt, label, engine.text()),
        "names" => finish(rt, label, engine.names()),
        _ => finish(rt, label, engine.captures(rt.alloc(), "q")),
    }
}

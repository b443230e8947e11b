//! Calls on the splitter, which makes no allocation.
use crate::{LABELS, begin, finish};
use anyhow::{Result, bail};
use grok::parser;

const PATTERN: &str = "Hello, %{name:alias[x]:extract=definition}! 100% %%{x} é%{b c}";

fn count_pieces() -> u64 {
    let mut count = 0u64;
    for _ in parser::grok_split(PATTERN) {
        count = count.saturating_add(1);
    }
    count
}

fn count_uses() -> u64 {
    let mut count = 0u64;
    for _ in parser::uses_in("%{A=a}%{A} %{B:key:int}") {
        count = count.saturating_add(1);
    }
    count
}

pub(crate) fn call(rt: &HostRuntime, name: &str) -> Result<()> {
    'calls: for label in LABELS {
        begin(rt)?;
        ask(rt, label, name)?;
    }
    Ok(())
}

fn ask(rt: &HostRuntime, label: &str, name: &str) -> Result<()> {
    match name {
        "split" => finish(rt, label, count_pieces()),
        "uses_in" => finish(rt, label, count_uses()),
        "is_name" => finish(rt, label, (parser::is_name("A_1"), parser::is_name("a-b"))),
        "split_name" => finish(rt, label, parser::split_name("NAME=definition")),
        _ => bail!("no call has this name"),
    }
}

//! The example of the library in README. The other modules of this crate are further callers of the
//! library.
#![tactic(auto)]

mod engine;
mod extracts;
mod importer;
mod names;

use anyhow::Result;
use grok::Grok;
use std::io::{BufRead, BufReader};

fn main(rt: HostRuntime) -> Result<()> {
    let alloc = rt.alloc();
    let mut grok = Grok::default(alloc)?; // the default definitions, USERNAME among them
    grok.add_pattern("NUM", r"\d+")?;
    let pattern = grok.compile("%{USERNAME:user} %{NUM:times:int}", true)?; // outlives `grok`

    // One line: every key with its value, in the keys' order.
    if let Some(matches) = pattern.match_against("root 42")? {
        for (key, value) in &matches {
            let kind = pattern.get_extract(key).unwrap_or("text");
            println!(rt; "{key} = {value} ({kind})")?;
        }
    }

    // Many lines: a matcher keeps its memory from line to line.
    let mut matcher = pattern.matcher()?;
    for line in BufReader::new(alloc, rt.reader())?.lines(alloc) {
        let line = line?;
        let text = line.as_str();
        match matcher.find(text)? {
            Some(found) => println!(rt; "hello, {}", found.get("user").unwrap_or("stranger"))?,
            None => println!(rt; "no match: {text}")?,
        }
    }
    Ok(())
}

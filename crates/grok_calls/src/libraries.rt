//! Libraries of definitions, which the input or the words of the command line give as `NAME=DEF`.
use anyhow::{Result, bail};
use grok::Grok;
use std::alloc::Global;
use std::io;

fn add_definition(grok: &mut Grok, definition: &str) -> Result<()> {
    let Some((name, text)) = definition.split_once("=") else {
        bail!("a definition without `=`");
    };
    grok.add_pattern(name, text)?;
    Ok(())
}

/// Returns the library of these lines. If a name comes twice, the later definition counts.
pub(crate) fn library_of_lines(alloc: Global, lines: &str) -> Result<Grok> {
    let mut grok = Grok::empty(alloc);
    for line in lines.lines() {
        add_definition(&mut grok, line)?;
    }
    Ok(grok)
}

/// Returns the library of these words. If a name comes twice, the later definition counts.
pub(crate) fn library_of_words(alloc: Global, words: &[String]) -> Result<Grok> {
    let mut grok = Grok::empty(alloc);
    for word in words {
        add_definition(&mut grok, word.as_str())?;
    }
    Ok(grok)
}

/// Returns the library of the lines on standard input.
pub(crate) fn library_of_input(rt: &HostRuntime) -> Result<Grok> {
    let lines = io::read_to_string(rt.alloc(), rt.stdin())?;
    library_of_lines(rt.alloc(), lines.as_str())
}

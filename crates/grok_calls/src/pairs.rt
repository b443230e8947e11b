//! Compares the ways to match on pairs of a pattern and a line, which `tests/pairs/run` makes. All ways have to return the
//! same.
use crate::libraries::library_of_lines;
use anyhow::{Result, bail};
use grok::{Grok, Matcher, Pattern};
use std::alloc::{AllocError, Global};
use std::{fmt, io};

/// Separates the definitions from the first pattern, and patterns from each other.
const BETWEEN_PATTERNS: char = '\u{1e}';

/// Separates the parts of a pattern: the letter `a` if only placeholders with an alias capture, its text, and its lines.
const BETWEEN_PARTS: char = '\u{1f}';

/// What each way to match returns for a line: the debug text of its match, which has all keys and values.
#[derive(Drop)]
struct MatchesByWay {
    /// The pattern's own call, whose search is built by its second call and kept from then on.
    own: String,
    /// A matcher that is kept for all lines.
    kept: String,
    /// A new matcher for each line.
    uncached: String,
}

impl MatchesByWay {
    /// Matches the line in each way. `matcher` is the one that is kept for all lines.
    fn of(
        alloc: Global,
        pattern: &Pattern,
        matcher: &mut Matcher<'_>,
        line: &str,
    ) -> Result<MatchesByWay, AllocError> {
        Ok(MatchesByWay {
            own: own_match(alloc, pattern, line)?,
            kept: kept_match(alloc, matcher, line)?,
            uncached: uncached_match(alloc, pattern, line)?,
        })
    }

    fn are_the_same(&self) -> bool {
        self.own == self.uncached && self.kept == self.uncached
    }

    fn is_match(&self) -> bool {
        self.uncached.as_str() != "None"
    }
}

impl fmt::Display for MatchesByWay {
    fn fmt<W: fmt::Write>(&self, f: &mut fmt::Formatter<W>) -> fmt::Result {
        let own = self.own.as_str();
        let kept = self.kept.as_str();
        let uncached = self.uncached.as_str();
        write!(f, "own {own}, kept {kept}, uncached {uncached}")
    }
}

fn shown<T: fmt::Debug>(alloc: Global, found: &T) -> Result<String, AllocError> {
    format!(in alloc; "{found:#?}")
}

fn own_match(alloc: Global, pattern: &Pattern, line: &str) -> Result<String, AllocError> {
    shown(alloc, &pattern.match_against(line)?)
}

fn kept_match(alloc: Global, matcher: &mut Matcher<'_>, line: &str) -> Result<String, AllocError> {
    shown(alloc, &matcher.find(line)?)
}

fn uncached_match(alloc: Global, pattern: &Pattern, line: &str) -> Result<String, AllocError> {
    kept_match(alloc, &mut pattern.matcher()?, line)
}

/// How many lines of a pattern were matched, how many of them match, and for how many the ways to match differ.
#[derive(Clone, Copy, Default)]
struct Counts {
    lines: u64,
    matches: u64,
    different: u64,
}

impl fmt::Display for Counts {
    fn fmt<W: fmt::Write>(&self, f: &mut fmt::Formatter<W>) -> fmt::Result {
        let lines = self.lines;
        let matches = self.matches;
        let different = self.different;
        write!(f, "lines {lines} matches {matches} different {different}")
    }
}

impl Counts {
    fn add(&mut self, matches: &MatchesByWay) {
        self.lines = self.lines.saturating_add(1);
        if matches.is_match() {
            self.matches = self.matches.saturating_add(1);
        }
        if !matches.are_the_same() {
            self.different = self.different.saturating_add(1);
        }
    }
}

/// Reads definitions and patterns with their lines from standard input. For each pattern it prints a line for each of
/// its lines on which the ways to match differ, and then its counts. If the pattern is refused, it prints the error.
pub(crate) fn call(rt: &HostRuntime) -> Result<()> {
    let text = io::read_to_string(rt.alloc(), rt.stdin())?;
    let Some((definitions, patterns)) = text.split_once(BETWEEN_PATTERNS) else {
        bail!("no pattern after the definitions");
    };
    let grok = library_of_lines(rt.alloc(), definitions)?;
    for pattern in patterns.split(BETWEEN_PATTERNS) {
        compare_pattern(rt, &grok, pattern)?;
    }
    Ok(())
}

/// Compiles a pattern and compares the ways to match for each of its lines.
fn compare_pattern(rt: &HostRuntime, grok: &Grok, parts: &str) -> Result<()> {
    let Some((mode, parts)) = parts.split_once(BETWEEN_PARTS) else {
        bail!("no parts");
    };
    let (text, lines) = parts.split_once(BETWEEN_PARTS).unwrap_or((parts, ""));
    match grok.compile(text, mode == "a") {
        Ok(pattern) => compare_lines(rt, &pattern, text, lines),
        Err(error) => {
            println!(rt; "refused: {error:?}")?;
            Ok(())
        }
    }
}

/// Reports the line if the ways to match differ on it.
fn check_line(rt: &HostRuntime, matches: &MatchesByWay, text: &str, line: &str) -> Result<()> {
    if !matches.are_the_same() {
        println!(rt; "different: {text:?} on {line:?}: {matches}")?;
    }
    Ok(())
}

/// Compares the ways to match for each of these lines, and returns the counts.
fn count_lines(
    rt: &HostRuntime,
    pattern: &Pattern,
    matcher: &mut Matcher<'_>,
    text: &str,
    lines: &str,
) -> Result<Counts> {
    let mut counts = Counts::default();
    for line in lines.split(BETWEEN_PARTS) {
        let matches = MatchesByWay::of(rt.alloc(), pattern, matcher, line)?;
        counts.add(&matches);
        check_line(rt, &matches, text, line)?;
    }
    Ok(counts)
}

fn compare_lines(rt: &HostRuntime, pattern: &Pattern, text: &str, lines: &str) -> Result<()> {
    let counts = count_lines(rt, pattern, &mut pattern.matcher()?, text, lines)?;
    println!(rt; "{counts}")?;
    Ok(())
}

//! Calls that match lines with the pattern `%{MAC}` over the default definitions, and calls on the matches.
use crate::{LABELS, begin, finish};
use anyhow::{Result, bail};
use grok::{
    Engine, Grok, LineSearch, Matcher, Matches, MatchesIter, MatchesRef, Pattern, PatternOf,
};
use grok_engines::Bare;
use std::alloc::AllocError;

const LINE: &str = "5E:FF:56:A2:AF:15";

const HALF_A_LINE: &str = "5E:FF";

const LINE_WITH_DOTS: &str = "5EFF.56A2.AF15";

/// A number of calls of `match_against` after which the shared search has filled its caches.
const CALLS_TO_FILL: u32 = 20;

/// A number of lines after which the search of a matcher has filled its caches.
const WARM: usize = 100;

pub(crate) fn call(rt: &HostRuntime, name: &str) -> Result<()> {
    call_on_library(rt, name, &Grok::with_default_patterns(rt.alloc())?)
}

fn call_on_library(rt: &HostRuntime, name: &str, grok: &Grok) -> Result<()> {
    match name {
        "bare" => match_twice(rt, &grok.compile_with::<Bare>("%{MAC}", false)?, "q"),
        "dropped" => drop_twice(rt, grok),
        _ => call_on_pattern(rt, name, &grok.compile("%{MAC::text}", false)?),
    }
}

fn call_on_pattern(rt: &HostRuntime, name: &str, pattern: &Pattern) -> Result<()> {
    match name {
        "match_against" => match_twice(rt, pattern, LINE),
        "no_match" => match_twice(rt, pattern, HALF_A_LINE),
        // The second call builds the search that the pattern keeps.
        "building_the_search" => match_after(rt, pattern, (1, LINE), LINE),
        "filling_the_search" => match_after(rt, pattern, (2, LINE), LINE),
        "with_full_caches" => match_after(rt, pattern, (CALLS_TO_FILL, LINE), LINE),
        "growing_caches" => match_after(rt, pattern, (CALLS_TO_FILL, LINE), LINE_WITH_DOTS),
        "no_match_with_full_caches" => {
            match_after(rt, pattern, (CALLS_TO_FILL, HALF_A_LINE), HALF_A_LINE)
        }
        "line_found" | "line_not_found" | "warm_line_found" | "range" => {
            call_on_matcher(rt, name, &mut pattern.matcher()?)
        }
        "last_match" => last_matches(rt, &mut pattern.line_search()?),
        "collect" | "collect_map" | "get" | "iter" | "into_iter" | "pattern" => {
            call_on_match(rt, name, &pattern.match_against(LINE)?)
        }
        _ => ask_pattern_twice(rt, name, pattern),
    }
}

fn first_names(pattern: &Pattern) -> [Option<&str>; 4] {
    let mut names = pattern.capture_names();
    [names.next(), names.next(), names.next(), names.next()]
}

fn ask_pattern_twice(rt: &HostRuntime, name: &str, pattern: &Pattern) -> Result<()> {
    'calls: for label in LABELS {
        begin(rt)?;
        ask_pattern(rt, label, name, pattern)?;
    }
    Ok(())
}

fn ask_pattern(rt: &HostRuntime, label: &str, name: &str, pattern: &Pattern) -> Result<()> {
    match name {
        "matcher" => finish(rt, label, is_found(pattern, LINE)),
        "line_search" => finish(rt, label, has_match(pattern, LINE)),
        "text" => finish(rt, label, pattern.text()),
        "capture_names" => finish(rt, label, first_names(pattern)),
        "get_extract" => {
            let extracts = (pattern.get_extract("MAC"), pattern.get_extract("USER"));
            finish(rt, label, extracts)
        }
        "group_of" => {
            let groups = (pattern.group_of("COMMONMAC"), pattern.group_of("nobody"));
            finish(rt, label, groups)
        }
        "group_names" => finish(rt, label, pattern.group_names()),
        "placeholder_keys" => finish(rt, label, pattern.placeholder_keys()),
        "keys_by_group" => finish(rt, label, pattern.keys_by_group()),
        _ => bail!("no call has this name"),
    }
}

fn call_on_match(rt: &HostRuntime, name: &str, found: &Option<Matches>) -> Result<()> {
    let Some(matches) = found else {
        bail!("the line should match");
    };
    'calls: for label in LABELS {
        begin(rt)?;
        ask_match(rt, label, name, matches)?;
    }
    Ok(())
}

fn first_pairs<'a>(mut pairs: MatchesIter<'a>) -> [Option<(&'a str, &'a str)>; 3] {
    [pairs.next(), pairs.next(), pairs.next()]
}

fn ask_match(rt: &HostRuntime, label: &str, name: &str, matches: &Matches) -> Result<()> {
    match name {
        "collect" => finish(rt, label, matches.collect(rt.alloc())),
        "collect_map" => finish(rt, label, matches.collect_map(rt.alloc())),
        "get" => {
            let values = (
                matches.get("MAC"),
                matches.get("CISCOMAC"),
                matches.get("nobody"),
            );
            finish(rt, label, values)
        }
        "iter" => finish(rt, label, first_pairs(matches.iter())),
        "into_iter" => finish(rt, label, first_pairs(matches.into_iter())),
        _ => finish(rt, label, matches.pattern()),
    }
}

fn match_twice<E: Engine>(rt: &HostRuntime, pattern: &PatternOf<E>, line: &str) -> Result<()> {
    'calls: for label in LABELS {
        begin(rt)?;
        finish(rt, label, pattern.match_against(line))?;
    }
    Ok(())
}

/// Matches `line` twice, after `count` calls for the line `earlier`.
fn match_after(
    rt: &HostRuntime,
    pattern: &Pattern,
    (count, earlier): (u32, &str),
    line: &str,
) -> Result<()> {
    'calls: for _ in 0..count {
        is_match(pattern, earlier)?;
    }
    match_twice(rt, pattern, line)
}

/// Returns whether the pattern itself finds a match in the line.
fn is_match(pattern: &Pattern, line: &str) -> Result<bool, AllocError> {
    Ok(pattern.match_against(line)?.is_some())
}

/// Returns whether a new matcher of the pattern finds a match in the line.
fn is_found(pattern: &Pattern, line: &str) -> Result<bool, AllocError> {
    let mut matcher = pattern.matcher()?;
    Ok(matcher.find(line)?.is_some())
}

/// Returns whether a new search of the pattern finds a match in the line.
fn has_match(pattern: &Pattern, line: &str) -> Result<bool, AllocError> {
    pattern.line_search()?.search(line)
}

/// Matches a line four times by the pattern and once by a matcher, and returns how many of these find a match.
fn count_found(pattern: &Pattern) -> Result<u32, AllocError> {
    let mut found = 0u32;
    for _ in 0..4u32 {
        found = found.saturating_add(u32::from(is_match(pattern, LINE)?));
    }
    Ok(found.saturating_add(u32::from(is_found(pattern, LINE)?)))
}

/// Compiles a pattern, matches a line with it, and drops all of that.
fn count_and_drop(grok: &Grok) -> Result<u32, grok::Error> {
    Ok(count_found(&grok.compile("%{MAC}", false)?)?)
}

fn drop_twice(rt: &HostRuntime, grok: &Grok) -> Result<()> {
    'calls: for label in LABELS {
        begin(rt)?;
        finish(rt, label, count_and_drop(grok))?;
    }
    Ok(())
}

fn call_on_matcher(rt: &HostRuntime, name: &str, matcher: &mut Matcher<'_>) -> Result<()> {
    match name {
        "line_found" => find_twice(rt, matcher, LINE),
        "line_not_found" => find_twice(rt, matcher, HALF_A_LINE),
        "warm_line_found" => {
            warm_up(matcher, LINE, WARM)?;
            find_twice(rt, matcher, LINE)
        }
        _ => match matcher.find(LINE)? {
            Some(found) => ranges_of(rt, found),
            None => bail!("the line should match"),
        },
    }
}

fn warm_up(matcher: &mut Matcher<'_>, line: &str, count: usize) -> Result<(), AllocError> {
    for _ in 0..count {
        let _found = matcher.find(line)?;
    }
    Ok(())
}

/// Calls `find` for the line twice. If an allocation failed in the first call, that doesn't change the result of the second one.
fn find_twice(rt: &HostRuntime, matcher: &mut Matcher<'_>, line: &str) -> Result<()> {
    'calls: for label in LABELS {
        begin(rt)?;
        finish(rt, label, matcher.find(line))?;
    }
    Ok(())
}

fn ranges_of(rt: &HostRuntime, found: MatchesRef<'_>) -> Result<()> {
    'calls: for label in LABELS {
        begin(rt)?;
        let ranges = (
            found.range("MAC"),
            found.range("CISCOMAC"),
            found.range("nobody"),
        );
        finish(rt, label, ranges)?;
    }
    Ok(())
}

/// Searches the line once, and returns twice the match that was found.
fn last_matches(rt: &HostRuntime, search: &mut LineSearch<'_>) -> Result<()> {
    if !search.search(LINE)? {
        bail!("the line should match");
    }
    'calls: for label in LABELS {
        begin(rt)?;
        finish(rt, label, search.last_match(LINE))?;
    }
    Ok(())
}

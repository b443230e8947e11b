//! Finds what to advise for lines: which definitions and which patterns fit them.

use crate::header::{Header, header_of};
use crate::heads::LineView;
use crate::proposals::{Proposal, propose, propose_after, propose_each_after};
use crate::starts::{SampleLines, events_of, start_after_blank, start_of};
use crate::text::whole_pattern;
use groklog_definitions::Library;
use log_samples::{Candidate, Fit, Recognizer, compile_valid, count, finds_each, separator_of};
use std::alloc::{AllocError, Global};
use std::cmp::Reverse;

/// A pattern counts as one for all lines if it leaves out at most one line in this many.
const LINES_FOR_ONE_LEFT: usize = 10;

/// Of the lines that a definition fits, one in this many may lack what it needs.
const LINES_FOR_ONE_UNSURE: usize = 4;

/// One line in this many is enough for a definition to be used with others.
const LINES_FOR_ONE_USE: usize = 50;

/// How many definitions are used together at most.
const MOST_TOGETHER: usize = 5;

/// A pattern, and how it fits the lines.
#[derive(Drop)]
pub struct Suggestion {
    pub text: String,
    pub fit: Fit,
}

/// One of several patterns that are used together.
#[derive(Drop)]
pub struct PatternShare {
    pub text: String,
    /// How many lines it fits that the patterns before it don't fit.
    pub lines: usize,
}

/// The advice for lines: which patterns to use.
#[derive(Drop)]
pub struct Advice {
    /// The pattern for the first lines of events, if the lines are parts of events.
    pub start: Option<String>,
    /// How many lines or events there are.
    pub lines: usize,
    /// The patterns that fit some of the lines, each by itself. The patterns that fit most lines come first, and
    /// among equal ones those with most fields.
    pub alternatives: Vec<Suggestion>,
    /// Patterns to be used together, in this order, if no pattern alone is for all lines.
    pub combined: Vec<PatternShare>,
}

/// A definition for whole lines.
#[derive(Clone, Copy)]
pub struct Format<'a> {
    pub name: &'a str,
    /// A pattern that finds something in the lines that are really of this format, if the definition also matches
    /// others.
    pub needs: Option<&'a str>,
}

/// The definitions that may be suggested.
#[derive(Clone, Copy)]
pub struct Formats<'a> {
    /// The definitions for whole lines.
    pub lines: &'a [Format<'a>],
    /// The definitions for whole lines that lines may begin with before they go on.
    pub beginnings: &'a [&'a str],
    /// The definitions for whole lines that end with any message.
    pub open: &'a [OpenFormat<'a>],
}

/// A definition for whole lines that end with any message.
#[derive(Clone, Copy)]
pub struct OpenFormat<'a> {
    pub name: &'a str,
    /// The definition of what comes before the message.
    pub beginning: &'a str,
}

/// Sorts patterns: those that fit most lines come first, and of these those with most fields.
fn sort(candidates: &mut Vec<Candidate>) -> Result<(), AllocError> {
    candidates.sort_by_key(|found| (Reverse(found.fit.lines), Reverse(found.fit.fields)))
}

fn marked_of<'l>(
    alloc: Global,
    lines: &[&'l str],
    are_marked: &[bool],
) -> Result<Vec<&'l str>, AllocError> {
    let mut marked = Vec::new(alloc);
    for (line, is_marked) in lines.iter().zip(are_marked) {
        if *is_marked {
            marked.push(*line)?;
        }
    }
    Ok(marked)
}

/// Returns whether three of four lines that a format fits are really of it.
fn has_its_needs(
    alloc: Global,
    library: &Library<'_>,
    format: Format<'_>,
    candidate: &Candidate,
    lines: &[&str],
) -> Result<bool, AllocError> {
    let Some(needs) = format.needs else {
        return Ok(true);
    };
    let Some(needs) = compile_valid(library, needs)? else {
        return Ok(false);
    };
    let fit = marked_of(alloc, lines, &candidate.each)?;
    let sure = count(&finds_each(alloc, &needs, &fit)?);
    let unsure = fit.len().saturating_sub(sure);
    Ok(unsure <= candidate.fit.lines / LINES_FOR_ONE_UNSURE)
}

/// Returns the definitions that fit some of the lines, and find fields in them.
fn fitting(
    alloc: Global,
    library: &Library<'_>,
    formats: &[Format<'_>],
    lines: &[&str],
    are_events: bool,
) -> Result<Vec<Candidate>, AllocError> {
    let mut found = Vec::new(alloc);
    for format in formats {
        let text = whole_pattern(alloc, format.name, are_events)?;
        if let Some(candidate) = Candidate::new(alloc, library, text, lines)?
            && candidate.fit.fields > 0
            && has_its_needs(alloc, library, *format, &candidate, lines)?
        {
            found.push(candidate)?;
        }
    }
    sort(&mut found)?;
    without_twins(alloc, found)
}

/// Returns whether two candidates fit the same lines and find the same keys in them.
fn are_twins(first: &Candidate, second: &Candidate) -> bool {
    first.fit == second.fit && first.each == second.each && first.keys == second.keys
}

/// Removes each candidate that fits the same lines as the one before it and finds the same keys: it says nothing new.
fn without_twins(alloc: Global, candidates: Vec<Candidate>) -> Result<Vec<Candidate>, AllocError> {
    let mut kept: Vec<Candidate> = Vec::new(alloc);
    for candidate in candidates {
        let is_twin = match kept.as_slice().last() {
            Some(last) => are_twins(last, &candidate),
            None => false,
        };
        if !is_twin {
            kept.push(candidate)?;
        }
    }
    Ok(kept)
}

/// Returns whether no further pattern is needed: at most one line in ten is left, or one of several.
fn are_few(left: usize, all: usize) -> bool {
    left <= all / LINES_FOR_ONE_LEFT || (left == 1 && all > 1)
}

/// Patterns that are used together, and the lines that none of them fits.
#[derive(Drop)]
struct Choice<'l> {
    patterns: Vec<PatternShare>,
    left: Vec<&'l str>,
}

fn count_left(candidate: &Candidate, is_left: &[bool]) -> usize {
    let mut count = 0usize;
    for (is_fit, is_left) in candidate.each.iter().zip(is_left) {
        if *is_fit && *is_left {
            count = count.saturating_add(1);
        }
    }
    count
}

/// Returns the candidate that fits most of the lines that are left, and how many of them it fits.
fn best_of<'c>(candidates: &'c [Candidate], is_left: &[bool]) -> Option<(&'c Candidate, usize)> {
    let mut best = None;
    let mut most = 0usize;
    for candidate in candidates {
        let count = count_left(candidate, is_left);
        if count > most {
            most = count;
            best = Some((candidate, count));
        }
    }
    best
}

/// Returns whether each line that one candidate fits is fit by the other one, too.
fn is_within(inner: &Candidate, outer: &Candidate) -> bool {
    let mut pairs = inner.each.iter().zip(&outer.each);
    pairs.all(|(inner, outer)| !*inner || *outer)
}

/// Returns whether a pattern that fits `fit` of all lines may be used with others.
fn are_enough(fit: usize, all: usize) -> bool {
    (fit > 1 || all == 1) && fit >= all / LINES_FOR_ONE_USE
}

/// Returns the candidate that fits most of the lines that are left, among those that find more than this one, and fit only
/// lines that this one fits.
fn more_specific<'c>(
    candidates: &'c [Candidate],
    general: &Candidate,
    is_left: &[bool],
) -> Option<(&'c Candidate, usize)> {
    let mut best = None;
    let mut most = 0usize;
    for candidate in candidates {
        let count = count_left(candidate, is_left);
        if count > most
            && are_enough(count, is_left.len())
            && candidate.fit.fields > general.fit.fields
            && is_within(candidate, general)
        {
            most = count;
            best = Some((candidate, count));
        }
    }
    best
}

/// Marks all lines as left.
fn all_of(alloc: Global, lines: &[&str]) -> Result<Vec<bool>, AllocError> {
    let mut is_left = Vec::new(alloc);
    for _ in lines {
        is_left.push(true)?;
    }
    Ok(is_left)
}

/// Unmarks the lines that a candidate fits, which are no longer left.
fn take_fit(is_left: &mut [bool], candidate: &Candidate) {
    for (is_left, is_fit) in is_left.iter_mut().zip(&candidate.each) {
        if *is_fit {
            *is_left = false;
        }
    }
}

/// Appends a candidate to the patterns that are used together, and takes its lines from those that are left.
fn choose(
    patterns: &mut Vec<PatternShare>,
    is_left: &mut [bool],
    candidate: &Candidate,
) -> Result<(), AllocError> {
    let lines = count_left(candidate, is_left);
    take_fit(is_left, candidate);
    let text = candidate.text.clone()?;
    Ok(patterns.push(PatternShare { text, lines })?)
}

/// Chooses candidates until they fit almost all lines, each for most of the lines that those before it don't fit. Those that
/// find more in some of its lines come before it. It comes after them even if none of these lines is left, since other lines
/// may have another form.
fn cover<'l>(
    alloc: Global,
    candidates: &[Candidate],
    lines: &[&'l str],
) -> Result<Choice<'l>, AllocError> {
    let mut patterns = Vec::new(alloc);
    let mut is_left = all_of(alloc, lines)?;
    for _ in 0..MOST_TOGETHER {
        if are_few(count(&is_left), lines.len()) {
            break;
        }
        let Some((general, fit)) = best_of(candidates, &is_left) else {
            break;
        };
        if !are_enough(fit, lines.len()) {
            break;
        }
        choose_specific(candidates, general, &mut patterns, &mut is_left)?;
        choose(&mut patterns, &mut is_left, general)?;
    }
    let left = marked_of(alloc, lines, &is_left)?;
    Ok(Choice { patterns, left })
}

/// Chooses the candidates that find more in some of the lines that a general one fits.
fn choose_specific(
    candidates: &[Candidate],
    general: &Candidate,
    patterns: &mut Vec<PatternShare>,
    is_left: &mut [bool],
) -> Result<(), AllocError> {
    for _ in 0..MOST_TOGETHER {
        let Some((candidate, _)) = more_specific(candidates, general, is_left) else {
            break;
        };
        choose(patterns, is_left, candidate)?;
    }
    Ok(())
}

fn fit_of_first(candidates: &[Candidate]) -> Fit {
    match candidates.first() {
        Some(first) => first.fit,
        None => Fit {
            lines: 0,
            fields: 0,
        },
    }
}

/// Appends the pattern for lines that begin with a definition and continue in one form.
fn add_continued(
    alloc: Global,
    recognizer: &Recognizer<'_, '_>,
    names: &[&str],
    lines: &[&str],
    candidates: &mut Vec<Candidate>,
) -> Result<(), AllocError> {
    let best = fit_of_first(candidates);
    let found = propose_after(alloc, recognizer, names, lines)?;
    let Some(candidate) = found else {
        return Ok(());
    };
    if candidate.fit.lines >= best.lines && candidate.fit.fields > best.fields {
        candidates.push(candidate)?;
        sort(candidates)?;
    }
    Ok(())
}

/// Returns the lines that no candidate fits which finds more than a definition that ends with any message.
fn open_lines<'l>(
    alloc: Global,
    candidates: &[Candidate],
    general: &Candidate,
    lines: &[&'l str],
) -> Result<Vec<&'l str>, AllocError> {
    let mut is_left = general.each.clone()?;
    for candidate in candidates {
        if candidate.fit.fields > general.fit.fields
            && are_enough(candidate.fit.lines, lines.len())
        {
            take_fit(&mut is_left, candidate);
        }
    }
    marked_of(alloc, lines, &is_left)
}

/// Appends patterns for the messages of lines that a definition fits which ends with any message: each has the
/// beginning of that definition, and what the messages have in common.
fn add_messages(
    alloc: Global,
    recognizer: &Recognizer<'_, '_>,
    format: OpenFormat<'_>,
    lines: &[&str],
    candidates: &mut Vec<Candidate>,
) -> Result<(), AllocError> {
    let text = whole_pattern(alloc, format.name, false)?;
    let Some(open) = candidates
        .iter()
        .find(|found: &&Candidate| found.text == text)
    else {
        return Ok(());
    };
    let fields = open.fit.fields;
    let open = open_lines(alloc, candidates, open, lines)?;
    for proposal in propose_each_after(alloc, recognizer, format.beginning, &open)? {
        let Proposal { text, fit } = proposal;
        if fit.fields > fields
            && are_enough(fit.lines, lines.len())
            && let Some(candidate) = Candidate::new(alloc, recognizer.library, text, lines)?
        {
            candidates.push(candidate)?;
        }
    }
    sort(candidates)
}

/// Appends patterns for lines that begin with a definition and then have more than it says.
fn add_longer(
    alloc: Global,
    recognizer: &Recognizer<'_, '_>,
    formats: Formats<'_>,
    lines: &[&str],
    candidates: &mut Vec<Candidate>,
) -> Result<(), AllocError> {
    for format in formats.open {
        add_messages(alloc, recognizer, *format, lines, candidates)?;
    }
    let best = fit_of_first(candidates).lines;
    if are_few(lines.len().saturating_sub(best), lines.len()) || separator_of(lines).is_some() {
        return Ok(());
    }
    add_continued(alloc, recognizer, formats.beginnings, lines, candidates)
}

/// The lines of a log.
#[derive(Clone, Copy)]
struct LinesOf<'s, 'l> {
    lines: &'s [&'l str],
    /// The names of their columns, if the log gives them.
    header: Option<Header<'l>>,
}

/// Returns the advice for lines that these definitions for whole lines fit.
fn advise_on(
    alloc: Global,
    recognizer: &Recognizer<'_, '_>,
    formats: Formats<'_>,
    sample: LinesOf<'_, '_>,
    candidates: Vec<Candidate>,
) -> Result<Advice, AllocError> {
    let LinesOf { lines, header } = sample;
    let mut candidates = candidates;
    if header.is_none() {
        add_longer(alloc, recognizer, formats, lines, &mut candidates)?;
    }
    let Choice {
        patterns: mut combined,
        left,
    } = cover(alloc, &candidates, lines)?;
    if !are_few(left.len(), lines.len()) {
        let view = LineView::new(alloc, &left, header);
        for Proposal { text, fit } in propose(recognizer, &view, &left)? {
            let lines = fit.lines;
            combined.push(PatternShare { text, lines })?;
        }
    }
    let mut alternatives = Vec::new(alloc);
    for candidate in candidates {
        let Candidate { text, fit, .. } = candidate;
        alternatives.push(Suggestion { text, fit })?;
    }
    Ok(Advice {
        start: None,
        lines: lines.len(),
        alternatives,
        combined,
    })
}

/// Returns the events that the lines are parts of, and the pattern for their first lines, or `None` if the lines aren't parts
/// of events.
fn events_in(
    alloc: Global,
    recognizer: &Recognizer<'_, '_>,
    sample: SampleLines<'_, '_>,
) -> Result<Option<(Vec<String>, String)>, AllocError> {
    let lines = sample.lines;
    let after_blank = start_after_blank(alloc, sample)?;
    let start = if after_blank.is_some() {
        after_blank
    } else {
        start_of(alloc, recognizer, lines)?
    };
    let Some(start) = start else {
        return Ok(None);
    };
    let compiled = compile_valid(recognizer.library, start.as_str())?;
    let Some(pattern) = compiled else {
        return Ok(None);
    };
    let events = events_of(alloc, &pattern, lines)?;
    Ok(Some((events, start)))
}

/// Returns the advice for the events that the lines are parts of, or `None` if the lines aren't parts of events.
fn advise_on_events(
    alloc: Global,
    recognizer: &Recognizer<'_, '_>,
    formats: Formats<'_>,
    sample: SampleLines<'_, '_>,
) -> Result<Option<Advice>, AllocError> {
    let Some((events, start)) = events_in(alloc, recognizer, sample)? else {
        return Ok(None);
    };
    let mut texts = Vec::new(alloc);
    for event in &events {
        texts.push(event.as_str())?;
    }
    let candidates = fitting(alloc, recognizer.library, formats.lines, &texts, true)?;
    let sample = LinesOf {
        lines: &texts,
        header: None,
    };
    let advice = advise_on(alloc, recognizer, formats, sample, candidates)?;
    let Advice {
        lines,
        alternatives,
        combined,
        ..
    } = advice;
    Ok(Some(Advice {
        start: Some(start),
        lines,
        alternatives,
        combined,
    }))
}

fn header_len(lines: &[&str]) -> usize {
    let mut len = 0usize;
    for line in lines {
        if !line.starts_with('#') {
            break;
        }
        len = len.saturating_add(1);
    }
    len
}

/// Removes the header: the lines at the front that begin with `#`. Keeps all lines if each of them begins with
/// `#`, or if one after the header does.
fn without_header<'s, 'l>(lines: &'s [&'l str]) -> &'s [&'l str] {
    let header = header_len(lines);
    let others = lines.get(header..).unwrap_or(&[]);
    let has_header = !others.is_empty() && !others.iter().any(|line| line.starts_with('#'));
    let skipped = if has_header { header } else { 0 };
    lines.get(skipped..).unwrap_or(&[])
}

/// Returns the advice for lines. If known definitions leave out more than one line of ten, and the lines are parts of events, it
/// is the advice for the events.
pub fn advise(
    alloc: Global,
    library: &Library<'_>,
    formats: Formats<'_>,
    sample: SampleLines<'_, '_>,
) -> Result<Advice, AllocError> {
    let SampleLines { lines, firsts } = sample;
    let header = header_of(lines);
    let lines = without_header(lines);
    let recognizer = Recognizer::new(alloc, library)?;
    let candidates = fitting(alloc, library, formats.lines, lines, false)?;
    let left = cover(alloc, &candidates, lines)?.left.len();
    if !are_few(left, lines.len()) && header.is_none() {
        let sample = SampleLines { lines, firsts };
        if let Some(advice) = advise_on_events(alloc, &recognizer, formats, sample)? {
            return Ok(advice);
        }
    }
    let sample = LinesOf { lines, header };
    advise_on(alloc, &recognizer, formats, sample, candidates)
}

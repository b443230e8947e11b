//! Writes what is suggested for the lines of a sample.

use crate::command::{Reading, command_of, push_other, reader_of};
use crate::sample::{Sample, SampledText, events_of, have_returns, lines_of};
use common_definitions::line_formats;
use groklog_definitions::Library;
use groklog_options::Options;
use groklog_patterns::own_wholes;
use groklog_reports::Unit;
use log_samples::{Fit, LogKind, ValueNames, compile_valid, count, finds_each, kind_of_log};
use std::alloc::{AllocError, Global};
use std::fmt::Write;
use suggestions::{Advice, Format, Formats, OpenFormat, PatternShare, SampleLines, advise};

/// How many patterns are shown at most.
const MOST_SHOWN: usize = 5;

/// The definitions for whole lines that end with any message, each with the one for what comes before it.
static OPEN: [OpenFormat<'static>; 3] = [
    OpenFormat {
        name: "SYSLOGLINE",
        beginning: "SYSLOGBASE",
    },
    OpenFormat {
        name: "JOURNALLINE",
        beginning: "JOURNALBASE",
    },
    OpenFormat {
        name: "SYSLOG5424LINE",
        beginning: "SYSLOG5424BASE",
    },
];

/// Appends the patterns that match some of the lines alone, each with its counts and a command.
fn push_alone(
    alloc: Global,
    report: &mut String,
    options: &Options<'_>,
    reading: Reading<'_>,
    advice: &Advice,
) -> Result<(), AllocError> {
    let alternatives = advice.alternatives.as_slice();
    if !alternatives.is_empty() {
        let word = unit_of(reading).word(0);
        writeln!(report, "{word}  fields")?;
    }
    for found in alternatives.iter().take(MOST_SHOWN) {
        let command = command_of(alloc, options, reading, &[found.text.as_str()])?;
        let Fit { lines, fields } = found.fit;
        writeln!(report, "{lines:>5}  {fields:>6}  {command}")?;
    }
    Ok(())
}

/// Returns what is counted.
fn unit_of(reading: Reading<'_>) -> Unit {
    match reading.start {
        Some(_) => Unit::Event,
        None => Unit::Line,
    }
}

/// Appends how many lines each of several patterns matches: `(60 + 60 + 52)`.
fn push_shares(report: &mut String, patterns: &[PatternShare]) -> Result<(), AllocError> {
    if patterns.len() < 2 {
        return Ok(());
    }
    for (index, pattern) in patterns.iter().enumerate() {
        let before = if index == 0 { " (" } else { " + " };
        let lines = pattern.lines;
        write!(report, "{before}{lines}")?;
    }
    report.push(')')
}

/// Appends the patterns that are for the lines together, with their counts and a command.
fn push_together(
    alloc: Global,
    report: &mut String,
    options: &Options<'_>,
    reading: Reading<'_>,
    advice: &Advice,
) -> Result<(), AllocError> {
    let patterns = advice.combined.as_slice();
    let all = advice.lines;
    let word = unit_of(reading).word(all as u64);
    let mut texts = Vec::new(alloc);
    let mut matched = 0usize;
    for pattern in patterns {
        texts.push(pattern.text.as_str())?;
        matched = matched.saturating_add(pattern.lines);
    }
    let words = match patterns {
        [] => return report.push_str("the lines have too little in common for a pattern\n"),
        [_] => "this pattern matches",
        _ => "these patterns match",
    };
    write!(report, "{words} {matched} of {all} {word}")?;
    push_shares(report, patterns)?;
    report.push_str(":\n")?;
    let command = command_of(alloc, options, reading, &texts)?;
    report.push_str(command.as_str())?;
    report.push('\n')
}

/// Returns the number of lines that the best pattern matches alone, and whether no others are needed.
fn best_alone(advice: &Advice) -> (usize, bool) {
    match (advice.alternatives.as_slice(), advice.combined.as_slice()) {
        ([first, ..], [only]) => (first.fit.lines, first.text.as_str() == only.text.as_str()),
        ([first, ..], _) => (first.fit.lines, false),
        _ => (0, false),
    }
}

/// Appends what is advised for the lines.
fn push_advice(
    alloc: Global,
    report: &mut String,
    options: &Options<'_>,
    reading: Reading<'_>,
    advice: &Advice,
) -> Result<(), AllocError> {
    let start = match &advice.start {
        Some(start) => Some(start.as_str()),
        None => None,
    };
    let reading = Reading {
        drops_return: reading.drops_return,
        start,
    };
    let all = advice.lines;
    let word = unit_of(reading).word(all as u64);
    if reading.start.is_some() {
        writeln!(report, "the lines are parts of {all} events")?;
    }
    push_alone(alloc, report, options, reading, advice)?;
    let (most, is_enough) = best_alone(advice);
    if is_enough {
        return Ok(());
    }
    if all == 1 && most == 0 {
        writeln!(report, "no definition matches the {word}")?;
    } else if most <= all / 2 {
        writeln!(
            report,
            "no definition matches more than half of the {all} {word}"
        )?;
    }
    push_together(alloc, report, options, reading, advice)
}

/// Returns the definitions for whole lines: those of the common definitions, and the user's.
fn formats_of<'a>(alloc: Global, library: &Library<'a>) -> Result<Vec<Format<'a>>, AllocError> {
    let mut formats = Vec::new(alloc);
    for name in &own_wholes(alloc, library)? {
        formats.push(Format {
            name: *name,
            needs: None,
        })?;
    }
    for format in &line_formats(alloc)? {
        formats.push(Format {
            name: format.name,
            needs: format.needs,
        })?;
    }
    Ok(formats)
}

/// Returns the definitions with which lines may begin: the formats that by themselves match only lines of their program.
fn beginnings_of<'a>(alloc: Global, formats: &[Format<'a>]) -> Result<Vec<&'a str>, AllocError> {
    let mut beginnings = Vec::new(alloc);
    for format in formats {
        if format.needs.is_none() {
            beginnings.push(format.name)?;
        }
    }
    Ok(beginnings)
}

/// Counts again, for these events, what a pattern is suggested for: what its command matches.
fn recount(
    alloc: Global,
    library: &Library<'_>,
    advice: &mut Advice,
    events: &[Option<String>],
) -> Result<(), AllocError> {
    let mut texts = Vec::new(alloc);
    let mut is_left = Vec::new(alloc);
    for event in events {
        if let Some(text) = event {
            texts.push(text.as_str())?;
            is_left.push(true)?;
        }
    }
    advice.lines = events.len();
    for found in advice.alternatives.iter_mut() {
        if let Some(pattern) = compile_valid(library, found.text.as_str())? {
            found.fit.lines = count(&finds_each(alloc, &pattern, &texts)?);
        }
    }
    for share in advice.combined.iter_mut() {
        if let Some(pattern) = compile_valid(library, share.text.as_str())? {
            let each = finds_each(alloc, &pattern, &texts)?;
            share.lines = take_found(&mut is_left, &each);
        }
    }
    Ok(())
}

/// Takes the texts in which something is found from those that are left, and returns how many these are.
fn take_found(is_left: &mut [bool], each: &[bool]) -> usize {
    let mut taken = 0usize;
    for (is_left, is_found) in is_left.iter_mut().zip(each) {
        if *is_left && *is_found {
            *is_left = false;
            taken = taken.saturating_add(1);
        }
    }
    taken
}

/// Appends which program reads the lines better than patterns do, if there is one. Returns whether no pattern is needed then.
fn push_reader(
    alloc: Global,
    report: &mut String,
    options: &Options<'_>,
    kind: LogKind,
) -> Result<bool, AllocError> {
    match kind {
        LogKind::Lines => Ok(false),
        LogKind::Json => {
            report.push_str("these lines look like JSON objects, which jq reads:\n")?;
            push_other(alloc, report, options, "jq -c .")?;
            Ok(true)
        }
        LogKind::Table {
            separator,
            columns,
            names,
        } => {
            let more = match names {
                ValueNames::FirstLine => ", after their names in the first line, which mlr reads",
                ValueNames::EachValue => " after their names, which mlr reads, too",
                ValueNames::None => ", which mlr reads, too",
            };
            writeln!(report, "each line has {columns} values{more}:")?;
            push_other(alloc, report, options, reader_of(separator, names))?;
            Ok(names == ValueNames::FirstLine)
        }
    }
}

/// Appends how many lines were too long, if there are any.
fn push_long(alloc: Global, report: &mut String, count: u64) -> Result<(), AllocError> {
    let words = match count {
        0 => return Ok(()),
        1 => String::from_str(
            alloc,
            "1 line is longer than 64 KiB, and wasn't looked at\n",
        )?,
        _ => format!(in alloc; "{count} lines are longer than 64 KiB, and weren't looked at\n")?,
    };
    report.push_str(words.as_str())
}

/// What is written about the lines of a sample.
#[derive(Drop)]
pub struct Suggestions {
    pub text: String,
    /// Whether a pattern is among it.
    pub has_pattern: bool,
}

impl Suggestions {
    /// Makes the suggestions without a pattern.
    fn without_pattern(text: String) -> Suggestions {
        let has_pattern = false;
        Suggestions { text, has_pattern }
    }
}

/// Returns the report on the lines of a sample: which definitions and which patterns match them, or which other program is
/// better for them.
pub fn report_of_sample(
    alloc: Global,
    options: &Options<'_>,
    library: &Library<'_>,
    sample: &Sample,
) -> Result<Suggestions, AllocError> {
    // With `--crlf`, the lines of the sample are read without one.
    let drops_return = !options.form.drops_return && have_returns(sample);
    let SampledText { lines, firsts } = lines_of(sample, drops_return)?;
    let mut report = String::new(alloc);
    push_long(alloc, &mut report, sample.too_long)?;
    if lines.is_empty() {
        report.push_str("there are no lines to suggest a pattern for\n")?;
        return Ok(Suggestions::without_pattern(report));
    }
    let formats = formats_of(alloc, library)?;
    let beginnings = beginnings_of(alloc, &formats)?;
    let formats = Formats {
        lines: &formats,
        beginnings: &beginnings,
        open: &OPEN,
    };
    if let LogKind::Json = kind_of_log(&lines) {
        push_reader(alloc, &mut report, options, LogKind::Json)?;
        return Ok(Suggestions::without_pattern(report));
    }
    let read = SampleLines {
        lines: &lines,
        firsts: &firsts,
    };
    let mut advice = advise(alloc, library, formats, read)?;
    if let Some(start) = &advice.start
        && let Some(start) = compile_valid(library, start.as_str())?
    {
        let events = events_of(sample, drops_return, &start)?;
        recount(alloc, library, &mut advice, &events)?;
    }
    if advice.alternatives.is_empty()
        && push_reader(alloc, &mut report, options, kind_of_log(&lines))?
    {
        return Ok(Suggestions::without_pattern(report));
    }
    let reading = Reading {
        drops_return: options.form.drops_return || drops_return,
        start: None,
    };
    push_advice(alloc, &mut report, options, reading, &advice)?;
    let has_pattern = !advice.alternatives.is_empty() || !advice.combined.is_empty();
    let text = report;
    Ok(Suggestions { text, has_pattern })
}

//! Reads the options of the program.
ghost use Rattle.std.specs.Prelude.{◌≡◌, ◌<◌, ◌⊎◌, ◌↔◌, IfOk, IsTrue, is_some, length, true, map, codes, unwrap_or, if◌then◌else◌};
ghost use Rattle.groklog_reports.specs.declared.unit.Unit.{Unit};
ghost use Rattle.groklog_options.specs.OptionFaults.{IsOptionFault};
ghost use Rattle.groklog_answers.specs.Layouts.{added_pair};
ghost use Rattle.groklog_options.specs.Additions.{added_in};
ghost use Rattle.groklog_options.specs.Tasks.{IsAskedBy, IsNumberOf, HasItsValue, has_patterns, value_in};
ghost use Rattle.clap.specs.Matches.{found_of};
ghost use Rattle.clap.specs.Values.{kind_of};

use crate::additions::added_of;
use crate::command_line::{check_partners, check_values, describe, is_given};
use crate::similar::is_near;
use crate::task::{
    AnswerOptions, Colours, CountOptions, PageOptions, PlanOptions, ShownOptions, Task,
};
use crate::words_error::WordsError;
use clap::error::ErrorKind;
use clap::{ArgMatches, Error};
use groklog_answers::{Lines, OutputFormat};
use groklog_input::LineForm;
use groklog_reports::{Report, RunFault, Unit};
use std::alloc::{AllocError, Global};
use std::collections::BTreeMap;
use std::num::NonZeroU64;

/// How many different values `--count` counts.
const VALUES: usize = 100_000;

/// How many bytes the expanded text of a pattern has at most, unless `--max-expansion` says how many. The engine
/// needs some 4 kB of memory for each byte of a text that has nothing but `\w`.
pub const EXPANSION: usize = 40_000;

/// How many lines `--html` reads, unless `--max` says how many.
const PAGE_LINES: usize = 1000;

/// How many lines an event has at most, unless `--max-lines` says how many.
pub const EVENT_LINES: u64 = 1000;

/// The advice for an option that there isn't.
const UNKNOWN_OPTION: &str =
    "groklog --help, which lists the options; for a pattern that begins with -, write -e before it";

/// A pattern of the command line.
#[derive(Clone, Copy)]
pub struct GivenPattern<'a> {
    pub name: Option<&'a str>,
    pub text: &'a str,
}

impl<'a> GivenPattern<'a> {
    /// Returns the name of the pattern in answers and reports: the name that it was given, or else its text.
    pub fn tag(self) -> &'a str
        ensures { result.now ≡ (unwrap_or self.entry.name self.entry.text).now }
    {
        self.name.unwrap_or(self.text)
    }
}

/// What the definitions and patterns of a run were made for.
#[derive(Clone, Copy, PartialEq, Eq)]
pub enum MadeFor {
    Groklog,
    /// They are rewritten. A lookaround that can't be is dropped if `is_loose`.
    Logstash { is_loose: bool },
}

/// The definitions of a run.
#[derive(Drop)]
pub struct GivenDefinitions<'a> {
    /// The files and folders after `-d`.
    pub files: Vec<&'a str>,
    /// The words after `-D`.
    pub words: Vec<&'a str>,
    /// Whether the common definitions are there.
    pub has_common: bool,
    /// How many bytes the expanded text of a pattern has at most.
    pub most_bytes: usize,
    pub made_for: MadeFor,
    /// The file that the user's definitions are written to, once they are rewritten.
    pub written: Option<&'a str>,
}

/// Which lines are an event.
#[derive(Clone, Copy)]
pub struct EventOptions<'a> {
    /// The pattern that is found in each line that begins an event.
    pub start: &'a str,
    /// How many lines an event has at most.
    pub most_lines: NonZeroU64,
}

/// What the command line asks for.
#[derive(Drop)]
pub struct Options<'a> {
    pub task: Task<'a>,
    pub definitions: GivenDefinitions<'a>,
    pub patterns: Vec<GivenPattern<'a>>,
    /// Whether the pattern is the first word, and not the value of `-e`.
    pub is_pattern_first: bool,
    /// Whether placeholders without an alias capture too.
    pub is_all: bool,
    pub files: Vec<&'a str>,
    /// How the lines of the files are read.
    pub form: LineForm,
    /// Which lines are an event, if events are answered in place of lines.
    pub events: Option<EventOptions<'a>>,
    pub has_summary: bool,
    /// Whether a run that finds nothing has an exit status of its own.
    pub has_exit_status: bool,
}

impl Options<'_> {
    /// Returns the unit that gets one answer: a line, or an event.
    pub fn unit(&self) -> Unit
        ensures { result ≡ (if is_some self.now.events then Unit.Event else Unit.Line) }
    {
        if self.events.is_some() {
            Unit::Event
        } else {
            Unit::Line
        }
    }
}

fn values_of<'a>(
    alloc: Global,
    matches: &ArgMatches<'a>,
    id: &str,
) -> Result<Vec<&'a str>, AllocError> {
    match matches.get_strs(id) {
        Some(values) => Vec::from_slice(alloc, values),
        None => Ok(Vec::new(alloc)),
    }
}

fn value_of<'a>(matches: &ArgMatches<'a>, option: &str) -> &'a str
    ensures { result.now ≡ value_in (found_of matches.now) option.now }
{
    matches.get_str(option).unwrap_or("")
}

/// Returns the number that an option has. `clap` has read it.
fn number_of(matches: &ArgMatches<'_>, option: &str) -> u64
    ensures { IsNumberOf (found_of matches.now) option.now result }
{
    matches.get_one(option).unwrap_or(0)
}

/// Returns which lines are answered, by `--matched` and `--unmatched`.
fn chosen_lines(matches: &ArgMatches<'_>) -> Lines {
    if matches.get_flag("matched") {
        Lines::Matched
    } else if matches.get_flag("unmatched") {
        Lines::Unmatched
    } else {
        Lines::All
    }
}

/// Returns when `--show` uses colours, by `--color`.
fn chosen_colours(matches: &ArgMatches<'_>) -> Colours {
    match matches.get_str("color") {
        Some("always") => Colours::Always,
        Some("never") => Colours::Never,
        _ => Colours::Auto,
    }
}

/// The patterns and files of the command line.
#[derive(Drop)]
struct GivenWords<'a> {
    patterns: Vec<GivenPattern<'a>>,
    files: Vec<&'a str>,
}

/// Reads a word after `--named`, such as `NAME=PATTERN`. Returns `Err` if it has no name.
fn named_pattern(word: &str) -> Result<GivenPattern<'_>, WordsError> {
    match word.split_once('=') {
        Some((name, text)) if !name.is_empty() => {
            let name = Some(name);
            Ok(GivenPattern { name, text })
        }
        _ => Err(WordsError::NoName),
    }
}

/// Returns the patterns after `-e` and `--named`, in the order of the command line.
fn given_patterns<'a>(
    alloc: Global,
    matches: &ArgMatches<'a>,
) -> Result<BTreeMap<usize, GivenPattern<'a>>, WordsError> {
    let mut patterns = BTreeMap::new(alloc);
    for id in ["pattern", "named"] {
        let (Some(words), Some(indices)) = (matches.get_strs(id), matches.indices_of(id)) else {
            continue;
        };
        for (word, index) in words.iter().zip(indices) {
            let pattern = if id == "named" {
                named_pattern(word)?
            } else {
                let (name, text) = (None, *word);
                GivenPattern { name, text }
            };
            patterns.insert(*index, pattern)?;
        }
    }
    Ok(patterns)
}

/// Returns the patterns and the files. The first word is the pattern, unless `-e` or `--named` gave
/// one or patterns are suggested.
fn given_words<'a>(alloc: Global, matches: &ArgMatches<'a>) -> Result<GivenWords<'a>, WordsError> {
    let mut patterns = Vec::new(alloc);
    for pattern in given_patterns(alloc, matches)?.values() {
        patterns.push(*pattern)?;
    }
    let mut files = values_of(alloc, matches, "words")?;
    if patterns.is_empty() && !matches.contains_id("suggest") && !files.is_empty() {
        let (name, text) = (None, files.remove(0));
        patterns.push(GivenPattern { name, text })?;
    }
    Ok(GivenWords { patterns, files })
}

fn split_keys(alloc: Global, keys: &str) -> Result<Vec<&str>, AllocError> {
    let mut split = Vec::new(alloc);
    for key in keys.split(',') {
        split.push(key)?;
    }
    Ok(split)
}

fn fields_of<'a>(
    alloc: Global,
    matches: &ArgMatches<'a>,
) -> Result<Option<Vec<&'a str>>, AllocError> {
    match matches.get_str("fields") {
        Some(keys) => Ok(Some(split_keys(alloc, keys)?)),
        None => Ok(None),
    }
}

/// Returns where values are written, by `--nested` and `--merge`, for which `--logstash` stands too.
fn plan_options(matches: &ArgMatches<'_>) -> PlanOptions {
    let is_logstash = matches.get_flag("logstash");
    PlanOptions {
        is_nested: is_logstash || matches.get_flag("nested"),
        is_merged: is_logstash || matches.get_flag("merge"),
    }
}

/// Returns how answers or counts are written.
fn chosen_format(matches: &ArgMatches<'_>) -> OutputFormat {
    if matches.get_flag("pairs") {
        OutputFormat::Pairs
    } else if matches.get_flag("csv") {
        OutputFormat::Csv
    } else {
        OutputFormat::Json
    }
}

fn answer_options<'a>(
    alloc: Global,
    matches: &ArgMatches<'a>,
) -> Result<AnswerOptions<'a>, AllocError>
    ensures { IfOk result (λ answers. map added_pair answers.added.items ≡ added_in (found_of matches.now)) }
{
    let is_logstash = matches.get_flag("logstash");
    Ok(AnswerOptions {
        lines: chosen_lines(matches),
        format: chosen_format(matches),
        added: added_of(alloc, matches)?,
        fields: fields_of(alloc, matches)?,
        is_typed: is_logstash || matches.get_flag("typed"),
        drops_empty: is_logstash || matches.get_flag("no-empty"),
        plan: plan_options(matches),
        tags_failures: is_logstash,
    })
}

fn count_options<'a>(
    alloc: Global,
    matches: &ArgMatches<'a>,
) -> Result<CountOptions<'a>, AllocError> {
    Ok(CountOptions {
        keys: split_keys(alloc, value_of(matches, "count"))?,
        most: VALUES,
        top: matches.get_one("top").unwrap_or(usize::MAX),
        format: chosen_format(matches),
    })
}

fn page_options<'a>(alloc: Global, matches: &ArgMatches<'a>) -> Result<PageOptions<'a>, AllocError>
    ensures { IfOk result (λ page. page.file.now ≡ value_in (found_of matches.now) (codes "html")) }
{
    Ok(PageOptions {
        file: value_of(matches, "html"),
        lines: chosen_lines(matches),
        fields: fields_of(alloc, matches)?,
        most: matches.get_one("max").unwrap_or(PAGE_LINES),
    })
}

fn shown_options<'a>(
    alloc: Global,
    matches: &ArgMatches<'a>,
) -> Result<ShownOptions<'a>, AllocError> {
    Ok(ShownOptions {
        lines: chosen_lines(matches),
        fields: fields_of(alloc, matches)?,
        colours: chosen_colours(matches),
    })
}

/// Returns the task of a run: that of the option that asks for one, or else to answer.
fn task_of<'a>(alloc: Global, matches: &ArgMatches<'a>) -> Result<Task<'a>, AllocError>
    ensures task { IfOk result (IsAskedBy (found_of matches.now)) }
    ensures value { IfOk result (HasItsValue (found_of matches.now)) }
{
    Ok(if is_given(matches, "list") {
        Task::List(value_of(matches, "list"))
    } else if is_given(matches, "explain") {
        Task::Explanation
    } else if is_given(matches, "suggest") {
        Task::Suggestions(number_of(matches, "suggest"))
    } else if is_given(matches, "why") {
        Task::Why(number_of(matches, "why"))
    } else if is_given(matches, "count") {
        Task::Counts(count_options(alloc, matches)?)
    } else if is_given(matches, "html") {
        Task::Page(page_options(alloc, matches)?)
    } else if is_given(matches, "show") {
        Task::Shown(shown_options(alloc, matches)?)
    } else {
        Task::Answers(answer_options(alloc, matches)?)
    })
}

/// Returns which lines are an event, if `--start` asks for events, or `Err` if they would have no line.
fn events_of<'a>(matches: &ArgMatches<'a>) -> Result<Option<EventOptions<'a>>, WordsError> {
    let Some(start) = matches.get_str("start") else {
        return Ok(None);
    };
    let most: u64 = matches.get_one("max-lines").unwrap_or(EVENT_LINES);
    match NonZeroU64::new(most) {
        Some(most_lines) => Ok(Some(EventOptions { start, most_lines })),
        None => Err(WordsError::Zero { name: "max-lines" }),
    }
}

fn definitions_of<'a>(
    alloc: Global,
    matches: &ArgMatches<'a>,
) -> Result<GivenDefinitions<'a>, AllocError> {
    let made_for = if matches.get_flag("from-logstash") {
        let is_loose = matches.get_flag("loose");
        MadeFor::Logstash { is_loose }
    } else {
        MadeFor::Groklog
    };
    Ok(GivenDefinitions {
        files: values_of(alloc, matches, "definitions")?,
        words: values_of(alloc, matches, "define")?,
        has_common: !matches.get_flag("no-common"),
        most_bytes: matches.get_one("max-expansion").unwrap_or(EXPANSION),
        made_for,
        written: matches.get_str("write-definitions"),
    })
}

fn options_of<'a>(alloc: Global, matches: &ArgMatches<'a>) -> Result<Options<'a>, WordsError>
    ensures { IfOk result (λ options. has_patterns options.task ≡ true → 0 < length options.patterns.items) }
{
    check_partners(matches)?;
    check_values(matches)?;
    let GivenWords { patterns, files } = given_words(alloc, matches)?;
    let task = task_of(alloc, matches)?;
    if patterns.is_empty() && task.has_patterns() {
        return Err(WordsError::NoPattern);
    }
    let events = events_of(matches)?;
    Ok(Options {
        task,
        definitions: definitions_of(alloc, matches)?,
        is_pattern_first: !matches.contains_id("pattern") && !matches.contains_id("named"),
        patterns,
        is_all: matches.get_flag("all"),
        files,
        form: LineForm {
            drops_return: matches.get_flag("crlf"),
            is_lossy: matches.get_flag("lossy"),
        },
        events,
        has_summary: matches.get_flag("summary"),
        has_exit_status: matches.get_flag("exit-status"),
    })
}

/// Reads the options from the words of the command line. The first word is the name of the program.
///
/// # Errors
///
/// Returns an error if the words are wrong, if a pattern is missing, if they ask for the help or the version, or
/// if an allocation fails.
pub fn read_options<'a>(alloc: Global, words: &'a [String]) -> Result<Options<'a>, Error>
    ensures { IfOk result (λ options. has_patterns options.task ≡ true → 0 < length options.patterns.items) }
{
    let mut command = describe(alloc)?;
    let matches = command.try_get_matches_from_mut(words)?;
    match options_of(alloc, &matches) {
        Ok(options) => Ok(options),
        Err(error) => Err(error.clap_error(alloc, &mut command)?),
    }
}

/// Returns whether the error of clap is not a fault, but the help or the version that the words ask
/// for.
pub fn is_answer(error: &Error) -> bool
    ensures { IsTrue result ↔ ((kind_of error.now ≡ ErrorKind.DisplayHelp)
        ⊎ (kind_of error.now ≡ ErrorKind.DisplayVersion)) }
{
    matches!(
        error.kind(),
        ErrorKind::DisplayHelp | ErrorKind::DisplayVersion
    )
}

/// Returns the lines of a message of clap as one line, such as that with the possible values of an
/// option.
fn in_one_line(alloc: Global, lines: &str) -> Result<String, AllocError> {
    let mut line = String::new(alloc);
    for part in lines.trim_end().split("\n  ") {
        line.push_str(if line.is_empty() { "" } else { " " })?;
        line.push_str(part)?;
    }
    Ok(line)
}

/// Returns the name between quotation marks in a message of clap.
fn quoted(message: &str) -> &str {
    message.split('\'').nth(1).unwrap_or("")
}

/// Returns the advice for what clap reports, from the lines that come after that.
fn advice_of<'t>(alloc: Global, what: &str, rest: &'t str) -> Result<&'t str, AllocError> {
    let Some(tip) = rest.trim_start().strip_prefix("tip: ") else {
        return Ok("groklog --help");
    };
    // Clap's own advice for an option that it doesn't know is how to pass it as a value.
    if tip.starts_with("to pass ") {
        return Ok(UNKNOWN_OPTION);
    }
    let tip = tip.split('\n').next().unwrap_or(tip);
    // For clap, --output is similar to --count.
    if tip.starts_with("a similar ") && !is_near(alloc, quoted(what), quoted(tip))? {
        return Ok(UNKNOWN_OPTION);
    }
    Ok(tip)
}

/// Returns the fault that reports why clap refuses the words.
pub fn usage_fault(alloc: Global, error: &Error) -> Result<RunFault, AllocError>
    ensures { IfOk result IsOptionFault }
{
    if error.kind() == ErrorKind::OutOfMemory {
        // own error: clap reported that an allocation failed.
        return Ok(RunFault::Memory);
    }
    let text = error.to_string(alloc)?;
    let text = text
        .as_str()
        .strip_prefix("error: ")
        .unwrap_or(text.as_str());
    let (what, rest) = text.split_once("\n\n").unwrap_or((text, ""));
    let advice = advice_of(alloc, what, rest)?;
    let what = in_one_line(alloc, what)?;
    Ok(RunFault::Usage(Report::new(alloc, what.as_str(), advice)?))
}

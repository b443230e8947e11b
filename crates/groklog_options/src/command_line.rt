//! Describes the command line: the options, and what its help says.
ghost use Rattle.std.specs.Prelude.{◌≡◌};
ghost use Rattle.clap.specs.Matches.{found_of};
ghost use Rattle.groklog_options.specs.Tasks.{is_given};

use crate::words_error::WordsError;
use clap::parser::ValueSource;
use clap::{Arg, ArgAction, ArgMatches, Command, value_parser};
use std::alloc::{AllocError, Global};

/// The description of the program in its help.
const ABOUT: &str = "Reads lines of logs by grok patterns and writes what they found.";

/// The usage lines in the help.
const USAGE: &str =
    "groklog [OPTIONS] PATTERN [FILE]...\n       groklog [OPTIONS] -e PATTERN... [FILE]...";

/// The examples at the end of the help.
const EXAMPLES: &str =
    "A pattern is a regular expression with placeholders: %{NAME}, %{NAME:key} or %{NAME:key:int}.\n\
    Standard input is read if no file is named, and for the file -.\n\
    The names that users of Logstash know are defined, and --list shows their definitions.\n\n\
    Examples:\n  \
    groklog --suggest access.log\n  \
    groklog --why '%{COMMONAPACHELOG}' access.log\n  \
    groklog --html page.html '%{COMMONAPACHELOG}' access.log\n  \
    groklog --count response '%{COMMONAPACHELOG}' access.log\n  \
    groklog --typed '%{COMMONAPACHELOG}' access.log | jq .response\n  \
    groklog -D 'NUM=\\d+' '%{USERNAME:user} took %{NUM:n}' auth.log\n\n\
    Exit status: 0, 1 for a fault of a pattern or a definition, 2 for wrong options, 3 if memory, reading or writing fails,\n\
    4 with --exit-status if nothing is found.";

/// What an option takes. The text is the name of its value in the help.
#[derive(Clone, Copy)]
enum Takes {
    /// Nothing. It may be given several times, so that a script can add it to words that may have it
    /// already.
    Nothing,
    Value(&'static str),
    /// The key under which something is written.
    Key,
    /// Keys of patterns, with commas between them.
    Keys,
    ValueOrNothing(&'static str),
    /// A value that may begin with `-`, as a pattern may.
    Pattern(&'static str),
    /// A value that may begin with `-`, as that of `Pattern`. The option may be given several times, each time
    /// with one. It may also have a name of one letter.
    Patterns(Option<char>, &'static str),
    /// A whole number above 0.
    Number,
    /// Such a number after `=`, or this one if there is none.
    NumberOr(&'static str),
    /// One of these words. Without the option it is the word `auto`.
    WordOrAuto(&'static str, &'static [&'static str]),
}

/// What a run does: the tasks by which the options are compared.
#[derive(Clone, Copy, PartialEq, Eq)]
enum TaskKind {
    /// It answers with JSON objects that have the values under their keys.
    Objects,
    /// It answers with JSON objects in which a plan says where values are written.
    PlannedObjects,
    /// It answers with lines `KEY=VALUE`.
    Pairs,
    /// It answers with records of comma-separated values.
    Records,
    /// It counts the values of a key.
    Counts,
    /// It shows lines with their fields marked.
    Shown,
    Page,
    /// It explains why lines don't match.
    Why,
    Suggestions,
    Explanation,
    List,
}

const ALL: &[TaskKind] = &[
    TaskKind::Objects,
    TaskKind::PlannedObjects,
    TaskKind::Pairs,
    TaskKind::Records,
    TaskKind::Counts,
    TaskKind::Shown,
    TaskKind::Page,
    TaskKind::Why,
    TaskKind::Suggestions,
    TaskKind::Explanation,
    TaskKind::List,
];

/// The tasks on which an option has an effect.
#[derive(Clone, Copy)]
enum Effect {
    On(&'static [TaskKind]),
    OnAllBut(&'static [TaskKind]),
    /// On the tasks of these options, one of which has to be given.
    With(&'static [&'static str]),
}

/// On all tasks that use definitions.
const DEFINITIONS: Effect = Effect::OnAllBut(&[TaskKind::List]);

/// On all tasks that use patterns.
const PATTERNS: Effect = Effect::OnAllBut(&[TaskKind::Suggestions, TaskKind::List]);

/// On all tasks that read lines.
const LINES: Effect = Effect::OnAllBut(&[TaskKind::Explanation, TaskKind::List]);

/// On all tasks that search lines.
const SEARCHES: Effect = Effect::OnAllBut(&[
    TaskKind::Suggestions,
    TaskKind::Explanation,
    TaskKind::List,
]);

/// On all tasks that search lines or events. A line `KEY=VALUE` has no place for an event.
const EVENTS: Effect = Effect::OnAllBut(&[
    TaskKind::Pairs,
    TaskKind::Suggestions,
    TaskKind::Explanation,
    TaskKind::List,
]);

/// On all tasks that write something of each line.
const WRITTEN_LINES: Effect = Effect::On(&[
    TaskKind::Objects,
    TaskKind::PlannedObjects,
    TaskKind::Pairs,
    TaskKind::Records,
    TaskKind::Shown,
    TaskKind::Page,
]);

/// On all tasks that write the values of a line under the keys of the pattern.
const FIELDS: Effect = Effect::On(&[
    TaskKind::Objects,
    TaskKind::Pairs,
    TaskKind::Records,
    TaskKind::Shown,
    TaskKind::Page,
]);

/// On the tasks that write answers.
const ANSWERS: Effect = Effect::On(&[
    TaskKind::Objects,
    TaskKind::PlannedObjects,
    TaskKind::Pairs,
    TaskKind::Records,
]);

/// On the tasks that answer with JSON.
const OBJECTS: Effect = Effect::On(&[TaskKind::Objects, TaskKind::PlannedObjects]);

/// On the task that answers with JSON in which a plan says where values are written.
const PLANNED: Effect = Effect::On(&[TaskKind::PlannedObjects]);

/// These options exclude each other, though they have the same tasks.
const OPPOSITES: [&str; 2] = ["matched", "unmatched"];

/// An option of the command line.
#[derive(Clone, Copy)]
struct CommandOption {
    /// Its name after `--`.
    name: &'static str,
    takes: Takes,
    help: &'static str,
    /// Options whose effects have no task in common exclude each other.
    effect: Effect,
}

impl Effect {
    /// Returns whether an option has an effect on this task, as far as it doesn't depend on others.
    fn is_on(self, task: TaskKind) -> bool {
        match self {
            Effect::On(tasks) => tasks.contains(&task),
            Effect::OnAllBut(tasks) => !tasks.contains(&task),
            Effect::With(_) => true,
        }
    }
}

impl CommandOption {
    /// Returns whether the other option can't be given with this one.
    fn excludes(&self, other: &CommandOption) -> bool {
        let are_opposite = self.name != other.name
            && OPPOSITES.contains(&self.name)
            && OPPOSITES.contains(&other.name);
        are_opposite
            || !ALL.iter().any(|task| self.effect.is_on(*task) && other.effect.is_on(*task))
    }

    /// Returns `Err` if its value is the number 0, or has an empty key.
    fn check_value(&self, matches: &ArgMatches<'_>) -> Result<(), WordsError> {
        let name = self.name;
        let text = matches.get_str(name);
        match self.takes {
            Takes::Number | Takes::NumberOr(_) if matches.get_one(name) == Some(0_u64) => {
                Err(WordsError::Zero { name })
            }
            Takes::Key if text == Some("") => Err(WordsError::EmptyKey { name }),
            Takes::Keys if text.is_some_and(has_empty_key) => Err(WordsError::EmptyKey { name }),
            _ => Ok(()),
        }
    }
}

/// Returns whether one of the keys between commas is empty.
fn has_empty_key(keys: &str) -> bool {
    keys.split(',').any(|key| key.is_empty())
}

/// Makes options of rows: the name of an option, what it takes, on which tasks it has an effect, and its help.
macro_rules! options {
    ($($name:literal, $takes:expr, $effect:expr => $help:literal;)*) => {
        &[$(CommandOption {
            name: $name,
            takes: $takes,
            help: $help,
            effect: $effect,
        }),*]
    };
}

const WORKING: &[CommandOption] = options! {
    "suggest", Takes::NumberOr("1000"), Effect::On(&[TaskKind::Suggestions]) =>
        "Suggest patterns for the first N lines, in place of answers; all words are files";
    "why", Takes::NumberOr("3"), Effect::On(&[TaskKind::Why]) =>
        "Show where the pattern stops in the first N lines that don't match, in place of answers";
    "explain", Takes::Nothing, Effect::On(&[TaskKind::Explanation]) =>
        "Explain the pattern, or its first fault, and read no lines";
};

const SOURCES: &[CommandOption] = options! {
    "pattern", Takes::Patterns(Some('e'), "PATTERN"), PATTERNS =>
        "A pattern; the first of several that matches a line gives the answer";
    "named", Takes::Patterns(None, "NAME=PATTERN"), PATTERNS =>
        "A pattern with a name, which --tag and --summary write in place of its text";
    "definitions", Takes::Patterns(Some('d'), "FILE"), DEFINITIONS =>
        "Definitions: lines NAME=DEF, or NAME DEF as Logstash has them; also a folder of such files";
    "define", Takes::Patterns(Some('D'), "NAME=DEF"), DEFINITIONS =>
        "A definition; it replaces one of a file";
    "no-common", Takes::Nothing, DEFINITIONS =>
        "Leave out the common definitions, which --list shows";
    "max-expansion", Takes::Number, DEFINITIONS =>
        "At most N bytes of regular expression for a pattern with its definitions [default: 40000]";
    "list", Takes::ValueOrNothing("TEXT"), Effect::On(&[TaskKind::List]) =>
        "Write the common definitions, or those whose name has this text, and read no lines";
    "from-logstash", Takes::Nothing, DEFINITIONS =>
        "Rewrite what the engine doesn't know in definitions made for Logstash, and report each change";
    "loose", Takes::Nothing, Effect::With(&["from-logstash"]) =>
        "With --from-logstash, drop each lookaround that can't be rewritten, and report it";
    "write-definitions", Takes::Value("FILE"), DEFINITIONS =>
        "Also write the definitions of -d and -D to this file, rewritten by --from-logstash";
};

const READING: &[CommandOption] = options! {
    "crlf", Takes::Nothing, LINES =>
        "Take one carriage return off the end of each line";
    "lossy", Takes::Nothing, LINES =>
        "Read bytes that aren't UTF-8 as U+FFFD, so that their line can match";
    "start", Takes::Pattern("PATTERN"), EVENTS =>
        "Answer events of several lines, which begin at each line in which this pattern is found";
    "max-lines", Takes::Number, Effect::With(&["start"]) =>
        "At most N lines in an event of --start; 1000 without this option";
};

const WRITING: &[CommandOption] = options! {
    "all", Takes::Nothing, PATTERNS =>
        "Also write placeholders without an alias, under their name";
    "matched", Takes::Nothing, WRITTEN_LINES =>
        "Only lines that match";
    "unmatched", Takes::Nothing, WRITTEN_LINES =>
        "Only lines that don't match";
    "typed", Takes::Nothing, OBJECTS =>
        "Write values with the extract int or float as numbers";
    "no-empty", Takes::Nothing, Effect::On(&[TaskKind::Objects, TaskKind::PlannedObjects, TaskKind::Pairs]) =>
        "Leave out fields whose value is empty";
    "nested", Takes::Nothing, PLANNED =>
        "Write keys such as [a][b] as nested objects";
    "merge", Takes::Nothing, PLANNED =>
        "Let placeholders with one key share it; several values are a list";
    "logstash", Takes::Nothing, PLANNED =>
        "Write what Logstash would: --nested --merge --typed --no-empty, and a tag in lines that don't match";
    "pairs", Takes::Nothing, Effect::On(&[TaskKind::Pairs]) =>
        "Write lines KEY=VALUE in place of JSON";
    "csv", Takes::Nothing, Effect::On(&[TaskKind::Records, TaskKind::Counts]) =>
        "Write comma-separated values with a header in place of JSON";
    "fields", Takes::Keys, FIELDS =>
        "Only write these keys, as a,b,c; --csv and --pairs write them in this order";
    "count", Takes::Keys, Effect::On(&[TaskKind::Counts]) =>
        "Count the values of this key, or of several as a,b together, in place of answers";
    "top", Takes::Number, Effect::With(&["count"]) =>
        "Only the N values of --count that come most often";
    "summary", Takes::Nothing, SEARCHES =>
        "At the end, also report how many lines matched, on standard error";
    "exit-status", Takes::Nothing, LINES =>
        "End with status 4 if no line matches, or --suggest finds no pattern";
    "keep", Takes::Key, ANSWERS =>
        "Also write the line itself, under this key";
    "tag", Takes::Key, ANSWERS =>
        "Also write the pattern that matched, under this key";
    "number", Takes::Key, ANSWERS =>
        "Also write the number of the line, under this key";
    "file", Takes::Key, ANSWERS =>
        "Also write the name of the line's file, under this key";
    "failed", Takes::Key, ANSWERS =>
        "Also write why a line has no fields, under this key";
    "show", Takes::Nothing, Effect::On(&[TaskKind::Shown]) =>
        "Show each line with its fields in colours, or with letters under them, in place of answers";
    "color", Takes::WordOrAuto("WHEN", &["auto", "always", "never"]), Effect::With(&["show"]) =>
        "When --show uses colours; auto is on a terminal, unless NO_COLOR is set";
    "html", Takes::Value("FILE"), Effect::On(&[TaskKind::Page]) =>
        "Write a page about the first lines to this file, in place of answers";
    "max", Takes::Number, Effect::With(&["html"]) =>
        "At most N lines for --html [default: 1000]";
};

/// The headings of the help, with the options below each.
const HEADINGS: [(&str, &[CommandOption]); 4] = [
    ("Working on a pattern", WORKING),
    ("Patterns and definitions", SOURCES),
    ("How lines are read", READING),
    ("What is written", WRITING),
];

fn with_value<'a>(arg: Arg<'a>, value: &'a str) -> Arg<'a> {
    arg.value_name(value).action(ArgAction::Set)
}

fn with_number(arg: Arg<'_>) -> Arg<'_> {
    with_value(arg, "N").value_parser(value_parser!(u64))
}

fn with_values<'a>(arg: Arg<'a>, short: Option<char>, value: &'a str) -> Arg<'a> {
    let arg = arg
        .value_name(value)
        .action(ArgAction::Append)
        .allow_hyphen_values(true);
    match short {
        Some(short) => arg.short(short),
        None => arg,
    }
}

impl Takes {
    fn describe<'a>(self, arg: Arg<'a>) -> Arg<'a> {
        match self {
            Takes::Nothing => arg.action(ArgAction::SetTrue),
            Takes::Value(value) => with_value(arg, value),
            Takes::Key => with_value(arg, "KEY"),
            Takes::Keys => with_value(arg, "KEYS"),
            Takes::ValueOrNothing(value) => with_value(arg, value).num_args(0..=1),
            Takes::Pattern(value) => with_value(arg, value).allow_hyphen_values(true),
            Takes::Patterns(short, value) => with_values(arg, short, value),
            Takes::Number => with_number(arg),
            Takes::NumberOr(number) => with_number(arg)
                .num_args(0..=1)
                .require_equals(true)
                .default_missing_value(number),
            Takes::WordOrAuto(value, words) => with_value(arg, value)
                .value_parser(words)
                .default_value("auto"),
        }
    }
}

fn arg_of<'a>(alloc: Global, option: &'a CommandOption) -> Result<Arg<'a>, AllocError> {
    let arg = Arg::new(alloc, option.name)
        .long(option.name)
        .help(option.help);
    let mut arg = option.takes.describe(arg);
    for (_, others) in HEADINGS {
        for other in others {
            if option.excludes(other) {
                arg = arg.conflicts_with(other.name)?;
            }
        }
    }
    match option.takes {
        Takes::Nothing => arg.overrides_with(option.name),
        _ => Ok(arg),
    }
}

fn args_of<'a>(alloc: Global, options: &'a [CommandOption]) -> Result<Vec<Arg<'a>>, AllocError> {
    let mut args = Vec::new(alloc);
    for option in options {
        args.push(arg_of(alloc, option)?)?;
    }
    Ok(args)
}

/// Returns whether an option stands on the command line.
pub fn is_given(matches: &ArgMatches<'_>, name: &str) -> bool
    ensures { result ≡ is_given (found_of matches.now) name.now }
{
    matches!(matches.value_source(name), Some(ValueSource::CommandLine))
}

/// Describes the command line to clap. The words that aren't options come before the first heading, so
/// that the help has them below one of their own.
pub fn describe<'a>(alloc: Global) -> Result<Command<'a>, AllocError> {
    let words = Arg::new(alloc, "words")
        .value_names(&["PATTERN", "FILE"])
        .help("The pattern, unless -e gives one, and then the files")
        .num_args(0..)
        .action(ArgAction::Append)
        .conflicts_with("list")?;
    let mut command = Command::new(alloc, "groklog")
        .version("1.0.0")
        .about(ABOUT)
        .override_usage(USAGE)
        .after_help(EXAMPLES)
        .arg(words)?;
    for (heading, options) in HEADINGS {
        let args = args_of(alloc, options)?;
        command = command.next_help_heading(heading).args(args)?;
    }
    Ok(command)
}

/// Returns `Err` if an option is given without one of those that it needs.
pub fn check_partners(matches: &ArgMatches<'_>) -> Result<(), WordsError> {
    for (_, options) in HEADINGS {
        for option in options {
            if let Effect::With(partners) = option.effect
                && is_given(matches, option.name)
                && !partners.iter().any(|partner| is_given(matches, partner))
            {
                let name = option.name;
                return Err(WordsError::NoPartner { name, partners });
            }
        }
    }
    Ok(())
}

/// Returns `Err` if a value that clap takes is none for its option: the number 0, or an empty key.
pub fn check_values(matches: &ArgMatches<'_>) -> Result<(), WordsError> {
    for (_, options) in HEADINGS {
        for option in options {
            option.check_value(matches)?;
        }
    }
    Ok(())
}

//! Which lines are answered, and how an answer is written.
ghost use Rattle.std.specs.Prelude.{◌≡◌};
ghost use Rattle.groklog_answers.specs.Layouts.{layout_value, is_chosen, failure_words};

/// Which lines are answered.
#[derive(Clone, Copy)]
pub enum Lines {
    /// All lines.
    All,
    /// Only lines that a pattern matches.
    Matched,
    /// Only lines that no pattern matches.
    Unmatched,
}

/// How an answer is written.
#[derive(Clone, Copy)]
pub enum OutputFormat {
    /// As a JSON object on a line of its own.
    Json,
    /// As lines `KEY=VALUE` and an empty line.
    Pairs,
    /// As a record of comma-separated values on a line of its own. A value that has a comma, a quote or a
    /// line break is in quotes.
    Csv,
}

/// What is added to the fields of an answer.
#[derive(Clone, Copy, PartialEq, Eq)]
pub enum Addition {
    /// The number of the line. `LogAnswers` counts the lines from 1.
    Number,
    /// The name of the file that the line comes from.
    File,
    /// Why the line has no fields. A line with fields hasn't this.
    Failed,
    /// The tag of the matching pattern. A line without fields hasn't this.
    Tag,
    /// The line itself.
    Line,
}

/// What is added to the fields of an answer, with its key.
#[derive(Clone, Copy)]
pub struct Added<'a> {
    pub what: Addition,
    pub key: &'a str,
}

/// Which lines are answered, and how an answer is written.
#[derive(Clone, Copy)]
pub struct Layout<'a> {
    pub lines: Lines,
    pub format: OutputFormat,
    /// What an answer has before the fields of patterns, in this order. A record has an empty value for what
    /// its line hasn't.
    pub before: &'a [Added<'a>],
    /// What an answer has after the fields of patterns.
    pub after: &'a [Added<'a>],
    /// The name of the file that the lines come from.
    pub file_name: &'a str,
    /// Whether a value is written as a JSON number if the extract of its key is `int` and the value
    /// is an integer, or if the extract is `float` and the value is any number.
    pub typed: bool,
    /// Whether fields with an empty value are left out. A record has them nevertheless.
    pub drops_empty: bool,
    /// The keys of patterns that are written, or `None` if all are. An object has its members in the
    /// byte order of their keys all the same. Lines `KEY=VALUE` and records have them in this order, and
    /// a record has no others: if this is `None`, it has none.
    pub fields: Option<&'a [&'a str]>,
    /// Whether a line that has no fields has the member `"tags":["_grokparsefailure"]`, as
    /// Logstash gives it. Only a JSON object has it.
    pub tags_failures: bool,
}

impl Layout<'_> {
    pub(crate) fn chooses(&self, key: &str) -> bool
        ensures { result ≡ is_chosen (layout_value self.now).fields key.now }
    {
        match self.fields {
            None => true,
            Some(fields) => fields.contains(&key),
        }
    }
}

/// Why a line has no fields.
#[derive(Clone, Copy)]
pub enum Failure {
    /// No pattern matches it.
    NoMatch,
    /// It isn't UTF-8.
    NotUtf8,
}

impl Failure {
    /// Returns the words that are written for this reason.
    pub fn words(self) -> &'static str
        ensures { result.now ≡ failure_words self }
    {
        match self {
            Failure::NoMatch => "no match",
            Failure::NotUtf8 => "not UTF-8",
        }
    }
}

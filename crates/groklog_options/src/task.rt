//! What a run does, with what belongs to it.
ghost use Rattle.std.specs.Prelude.{◌≡◌, ◌||◌, option_map};
ghost use Rattle.groklog_options.specs.Tasks.{fields_of, has_additions, has_patterns, has_records, plan_of};

use groklog_answers::{Added, Lines, OutputFormat};

/// When `--show` writes in colours.
#[derive(Clone, Copy, PartialEq, Eq)]
pub enum Colours {
    /// If standard output is a terminal, and `NO_COLOR` isn't set or is empty.
    Auto,
    Always,
    Never,
}

/// What a run does.
#[derive(Drop)]
pub enum Task<'a> {
    /// It writes an answer to each line or event.
    Answers(AnswerOptions<'a>),
    /// It counts the values of a key, or of several together.
    Counts(CountOptions<'a>),
    /// It shows each line or event with its fields marked.
    Shown(ShownOptions<'a>),
    /// It writes a page about the first lines or events to a file.
    Page(PageOptions<'a>),
    /// It explains why lines or events don't match, for at most this many.
    Why(u64),
    /// It suggests patterns for the first lines, for at most this many.
    Suggestions(u64),
    /// It explains the patterns, and reads no lines.
    Explanation,
    /// It lists the common definitions whose names have this text, and reads no lines.
    List(&'a str),
}

/// Where the values of keys are written.
#[derive(Clone, Copy)]
pub struct PlanOptions {
    /// Whether keys of the form `[a][b]` are nested objects.
    pub is_nested: bool,
    /// Whether placeholders that ask for the same key share it.
    pub is_merged: bool,
}

impl PlanOptions {
    /// Returns whether a plan says where values are written.
    pub fn is_planned(self) -> bool
        ensures { result ≡ (self.is_nested || self.is_merged) }
    {
        self.is_nested || self.is_merged
    }
}

/// How answers are written.
#[derive(Drop)]
pub struct AnswerOptions<'a> {
    /// Which lines or events are answered.
    pub lines: Lines,
    pub format: OutputFormat,
    /// What is added to the fields, in this order.
    pub added: Vec<Added<'a>>,
    /// The keys of patterns that are written, in this order, or `None` if all are.
    pub fields: Option<Vec<&'a str>>,
    pub is_typed: bool,
    /// Whether fields with an empty value are left out.
    pub drops_empty: bool,
    pub plan: PlanOptions,
    /// Whether lines that have no fields have the tag of Logstash for that.
    pub tags_failures: bool,
}

/// What is counted, and how the counts are written.
#[derive(Drop)]
pub struct CountOptions<'a> {
    /// The keys whose values are counted together.
    pub keys: Vec<&'a str>,
    /// How many different values are counted at most.
    pub most: usize,
    /// How many of those that come most often are written at most.
    pub top: usize,
    pub format: OutputFormat,
}

/// How lines or events are shown.
#[derive(Drop)]
pub struct ShownOptions<'a> {
    /// Which lines or events are shown.
    pub lines: Lines,
    /// The keys that are marked, or `None` if all are.
    pub fields: Option<Vec<&'a str>>,
    pub colours: Colours,
}

/// What a page shows, and where it is written.
#[derive(Drop)]
pub struct PageOptions<'a> {
    /// The name of the page's file.
    pub file: &'a str,
    /// Which lines or events the page lists.
    pub lines: Lines,
    /// The keys that are marked, or `None` if all are.
    pub fields: Option<Vec<&'a str>>,
    /// How many lines or events the page is about at most.
    pub most: usize,
}

impl<'a> Task<'a> {
    /// Returns whether answers are nested and merged objects. Tasks without answers have neither.
    pub fn plan(&self) -> PlanOptions
        ensures { result ≡ plan_of self.now }
    {
        match self {
            Task::Answers(answers) => answers.plan,
            _ => PlanOptions {
                is_nested: false,
                is_merged: false,
            },
        }
    }

    /// Returns the keys of patterns that `--fields` names, or `None` if all count.
    pub fn fields(&self) -> Option<&[&'a str]>
        ensures { option_map (λ keys. keys.now) result ≡ fields_of self.now }
    {
        match self {
            Task::Answers(answers) => answers.fields.as_deref(),
            Task::Shown(shown) => shown.fields.as_deref(),
            Task::Page(page) => page.fields.as_deref(),
            Task::Counts(_) | Task::Why(_) | Task::Suggestions(_) => None,
            Task::Explanation | Task::List(_) => None,
        }
    }

    /// Returns whether the task answers with records.
    pub fn has_records(&self) -> bool
        ensures { result ≡ has_records self.now }
    {
        match self {
            Task::Answers(answers) => matches!(answers.format, OutputFormat::Csv),
            _ => false,
        }
    }

    /// Returns whether it adds something to the fields of answers.
    pub fn has_additions(&self) -> bool
        ensures { result ≡ has_additions self.now }
    {
        match self {
            Task::Answers(answers) => !answers.added.is_empty(),
            _ => false,
        }
    }

    /// Returns whether it uses patterns: suggestions and a list of definitions don't.
    pub fn has_patterns(&self) -> bool
        ensures { result ≡ has_patterns self.now }
    {
        !matches!(self, Task::Suggestions(_) | Task::List(_))
    }
}

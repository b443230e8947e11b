//! Does the task of a run: one search of each line or event, and one writer or view of what was found.

use crate::inputs::{LogLines, RunOutcome, answer_each, answer_inputs};
use crate::output::{Outlet, show_note, write_bytes, write_output};
use crate::page::Page;
use crate::run::PAGE;
use crate::show::Show;
use crate::summary::{note_of_others, summary_of};
use crate::terminal::is_coloured;
use crate::why::Why;
use grok_lines::SkipLines;
use groklog_answers::{
    KeyCounts, LineTask, LogAnswers, NamedPattern, SearchedLines, Searches, header_of,
};
use groklog_definitions::Library;
use groklog_files::{ReadFiles, WholeFile};
use groklog_input::FormedAnswers;
use groklog_options::{
    AnswerOptions, CountOptions, GivenPattern, Options, PageOptions, ShownOptions, Task, layout_of,
};
use groklog_patterns::{Explainer, RunPattern, explain, titles_of};
use groklog_reports::RunFault;
use groklog_views::{LocatedFields, PageContent, Scope, page_html};
use std::alloc::{AllocError, Global};
use suggestion_reports::{Sample, report_of_sample};

/// A run whose patterns are compiled, before it reads a line.
#[derive(Clone, Copy)]
pub struct CompiledRun<'r, 'a, 'd> {
    pub outlet: &'r Outlet<'r>,
    pub options: &'a Options<'a>,
    pub library: &'a Library<'d>,
    pub patterns: &'a [RunPattern],
    /// The pattern of `--start`, if events are answered.
    pub start: Option<&'a RunPattern>,
    /// The patterns with their tags and plans.
    pub named: &'a [NamedPattern<'a>],
    /// The keys of patterns that are written, or `None` if all are.
    pub fields: Option<&'a [&'a str]>,
    /// The files that are read, of which none is written over.
    pub read: &'a ReadFiles,
}

/// How the reading of a run ended, with the counts of its lines or events.
#[derive(Drop)]
struct Ended<'a> {
    searches: Searches<'a>,
    outcome: RunOutcome,
}

/// Returns the patterns as they stand in the words: one with a name as `NAME=PATTERN`.
fn words_of(alloc: Global, patterns: &[GivenPattern<'_>]) -> Result<Vec<String>, AllocError> {
    let mut words = Vec::new(alloc);
    for GivenPattern { name, text } in patterns {
        words.push(match name {
            Some(name) => format!(in alloc; "{name}={text}")?,
            None => String::from_str(alloc, text)?,
        })?;
    }
    Ok(words)
}

impl<'r, 'a, 'd> CompiledRun<'r, 'a, 'd> {
    /// Does the task, and then reports the counts of the lines or events if that is wanted.
    ///
    /// # Errors
    ///
    /// If an allocation, a file or the output fails.
    pub fn perform(self) -> Result<RunOutcome, RunFault> {
        let ended = match &self.options.task {
            Task::Answers(answers) => self.answer(answers)?,
            Task::Counts(counts) => self.count(counts)?,
            Task::Shown(shown) => self.show(shown)?,
            Task::Page(page) => return self.write_page(page),
            Task::Why(most) => self.explain_lines(*most)?,
            Task::Explanation => return self.explain_patterns(),
            // They compile no patterns.
            Task::Suggestions(_) | Task::List(_) => return Ok(RunOutcome::AllRead),
        };
        self.summarize(&ended.searches)?;
        Ok(ended.outcome)
    }

    /// Reports the counts of the lines or events if that is wanted.
    fn summarize(self, searches: &Searches<'_>) -> Result<(), AllocError> {
        if self.options.has_summary {
            let (names, unit) = (&self.options.patterns, self.options.unit());
            let line = summary_of(self.rt().alloc(), searches, names, unit)?;
            // The run goes on if the line can't be written.
            let _ = eprintln!(self.rt(); "groklog: {line}");
        }
        Ok(())
    }

    fn rt(self) -> &'r HostRuntime {
        self.outlet.rt
    }

    /// Returns what searches lines or events, and gives them to this task.
    fn searched<T: LineTask<'a> + Drop>(self, task: T) -> Result<SearchedLines<'a, T>, AllocError> {
        let alloc = self.rt().alloc();
        let searches = Searches::new(alloc, self.named)?;
        Ok(SearchedLines::with_task(alloc, searches, task))
    }

    /// Reads all lines or events. Returns what searched them, and how that ended.
    fn read<A: LogLines<'a> + SkipLines + Drop>(
        self,
        lines: A,
    ) -> Result<(A, RunOutcome), RunFault> {
        answer_each(self.outlet, self.options, self.start, lines)
    }

    /// Returns what finds where the values of keys are.
    fn located(self) -> Result<LocatedFields<'a>, AllocError> {
        LocatedFields::new(self.rt().alloc(), self.named, self.fields)
    }

    /// Returns what explains where the patterns stop.
    fn explainer(self) -> Result<Explainer<'a, 'd>, AllocError> {
        Explainer::new(self.rt().alloc(), self.library, self.patterns)
    }

    /// Writes the answers.
    fn answer(self, answers: &'a AnswerOptions<'a>) -> Result<Ended<'a>, RunFault> {
        let alloc = self.rt().alloc();
        let layout = layout_of(answers, self.fields);
        if self.options.task.has_records() {
            write_bytes(self.rt(), &header_of(alloc, &layout)?)?;
        }
        let (answers, outcome) = self.read(LogAnswers::new(alloc, self.named, layout)?)?;
        let searches = answers.searches;
        Ok(Ended { searches, outcome })
    }

    /// Counts the values of keys, and writes them with their counts.
    fn count(self, options: &CountOptions<'a>) -> Result<Ended<'a>, RunFault> {
        let alloc = self.rt().alloc();
        let keys = Vec::from_slice(alloc, &options.keys)?;
        let counts = KeyCounts::new(alloc, keys, options.format, options.most);
        let (lines, outcome) = self.read(self.searched(counts)?)?;
        let counts = &lines.task;
        write_bytes(self.rt(), &counts.text(options.top)?)?;
        let (others, unit) = (counts.counts.others(), self.options.unit());
        if let Some(note) = note_of_others(alloc, others, options.most, unit)? {
            show_note(self.rt(), note.as_str())?;
        }
        let searches = lines.searches;
        Ok(Ended { searches, outcome })
    }

    /// Shows the lines or events with their fields marked.
    fn show(self, options: &ShownOptions<'a>) -> Result<Ended<'a>, RunFault> {
        let show = Show {
            alloc: self.rt().alloc(),
            outlet: self.outlet,
            located: self.located()?,
            lines: options.lines,
            is_coloured: is_coloured(self.rt(), options.colours)?,
        };
        write_output(self.rt(), show.legend()?.as_str())?;
        let (lines, outcome) = self.read(self.searched(show)?)?;
        let searches = lines.searches;
        Ok(Ended { searches, outcome })
    }

    /// Returns what a page has before a line is read.
    fn page_content(self, options: &PageOptions<'a>) -> Result<PageContent<'a>, AllocError> {
        let alloc = self.rt().alloc();
        let located = self.located()?;
        let titles = titles_of(alloc, self.library, self.patterns, &located.keys)?;
        let scope = Scope {
            unit: self.options.unit(),
            lines: options.lines,
            most: options.most,
        };
        PageContent::new(alloc, scope, located, titles)
    }

    /// Writes the page to the file that the options name.
    fn write_html(
        self,
        options: &PageOptions<'a>,
        lines: &SearchedLines<'a, Page<'a, 'a, 'd>>,
        outcome: RunOutcome,
    ) -> Result<(), RunFault> {
        let alloc = self.rt().alloc();
        let words = words_of(alloc, &self.options.patterns)?;
        let patterns: Vec<&str> = words.iter().map(|word| word.as_str()).collect(alloc)?;
        let html = page_html(
            alloc,
            &self.options.files,
            &patterns,
            &lines.searches,
            &lines.task.content,
        )?;
        let file = WholeFile {
            option: PAGE,
            name: options.file,
            read: self.read,
        };
        file.write(self.rt(), outcome != RunOutcome::SomeUnread, html.as_str())
    }

    /// Reads the first lines or events, and writes a page about them to a file, after their counts: it isn't written if a log failed.
    fn write_page(self, options: &PageOptions<'a>) -> Result<RunOutcome, RunFault> {
        let page = Page::new(self.explainer()?, self.page_content(options)?);
        let flow = page.content.flow();
        let mut lines = self.searched(page)?;
        lines.flow = flow;
        let (lines, outcome) = self.read(lines)?;
        self.summarize(&lines.searches)?;
        self.write_html(options, &lines, outcome)?;
        Ok(outcome)
    }

    /// Explains the first lines or events that don't match, and writes how many more there are.
    fn explain_lines(self, most: u64) -> Result<Ended<'a>, RunFault> {
        let (alloc, unit) = (self.rt().alloc(), self.options.unit());
        let why = Why::new(alloc, self.outlet, self.explainer()?, unit, most);
        let (lines, outcome) = self.read(self.searched(why)?)?;
        write_output(self.rt(), lines.task.rest()?.as_str())?;
        let searches = lines.searches;
        Ok(Ended { searches, outcome })
    }

    /// Writes the explanation of each pattern.
    fn explain_patterns(self) -> Result<RunOutcome, RunFault> {
        for pattern in self.patterns {
            let lines = explain(self.rt().alloc(), self.library, pattern)?;
            write_output(self.rt(), lines.as_str())?;
        }
        Ok(RunOutcome::AllRead)
    }
}

/// Takes the first lines of the files that the options name, or of standard input, and writes which
/// patterns are suggested for them.
///
/// # Errors
///
/// If an allocation or the output fails.
pub fn suggest(
    outlet: &Outlet<'_>,
    options: &Options<'_>,
    library: &Library<'_>,
    most: u64,
) -> Result<RunOutcome, RunFault> {
    let alloc = outlet.rt.alloc();
    let sample = Sample::new(alloc, most);
    let flow = sample.flow();
    let mut lines = SearchedLines::with_task(alloc, Searches::new(alloc, &[])?, sample);
    lines.flow = flow;
    let mut formed = FormedAnswers::new(alloc, lines, options.form);
    let outcome = answer_inputs(outlet, options, &mut formed)?;
    let report = report_of_sample(alloc, options, library, &formed.answers.task)?;
    write_output(outlet.rt, report.text.as_str())?;
    Ok(outcome.with_found(options, report.has_pattern))
}

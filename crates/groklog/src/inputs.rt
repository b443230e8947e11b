//! Reads the files of a run, or standard input, and answers their lines or events.

use crate::hints::{Hints, Matched};
use crate::output::{Outlet, show_note};
use crate::terminal::shows_progress;
use grok_lines::{EventAnswers, EventStarts, LineHandler, SkipLines};
use groklog_answers::{Flow, LineTask, Missed, SearchedLines, StartPattern};
use groklog_files::{STANDARD_INPUT, StandardInput, shown_name};
use groklog_input::{Answered, FormedAnswers, Watched, answer_input};
use groklog_options::Options;
use groklog_patterns::RunPattern;
use groklog_reports::{FileFailure, RunFault, Unit, file_fault, visible};
use std::alloc::{AllocError, Global};
use std::fs::File;

/// How a run ended in which nothing failed but reading.
#[derive(Clone, Copy, PartialEq, Eq)]
pub enum RunOutcome {
    /// All files were read, or as much of them as was wanted.
    AllRead,
    /// The same, and nothing was found, which `--exit-status` asks about.
    NothingFound,
    /// A file couldn't be read, which was reported. The other files were read.
    SomeUnread,
}

impl RunOutcome {
    /// Returns how a run ends with these options that ended so far like this. `is_found` is whether it found
    /// something: a line or an event that matches, or a pattern for the lines.
    pub fn with_found(self, options: &Options<'_>, is_found: bool) -> RunOutcome {
        if self == RunOutcome::AllRead && options.has_exit_status && !is_found {
            RunOutcome::NothingFound
        } else {
            self
        }
    }
}

/// Reads the lines of a log, or its events, and has each of them searched.
pub trait LogLines<'p>: LineHandler {
    /// Says that the next lines are those of the file with this name.
    fn begin_file(&mut self, name: &'p str);

    /// Returns whether no more lines are wanted. If an answer fails then, that is no fault.
    fn has_enough(&self) -> bool;

    /// Returns whether any of the lines or events matched.
    fn matched(&self, alloc: Global) -> Result<Matched, AllocError>;

    /// Returns what the lines or events of this file showed that no pattern matches.
    fn missed(&self) -> Missed;
}

impl<'p, T: LineTask<'p>> LogLines<'p> for SearchedLines<'p, T> {
    fn begin_file(&mut self, name: &'p str) {
        SearchedLines::begin_file(self, name);
    }

    fn has_enough(&self) -> bool {
        self.flow == Flow::Enough
    }

    fn matched(&self, alloc: Global) -> Result<Matched, AllocError> {
        Matched::of(alloc, &self.searches)
    }

    fn missed(&self) -> Missed {
        self.missed
    }
}

impl<'p, A: LogLines<'p> + SkipLines, S: EventStarts> LogLines<'p> for EventAnswers<A, S> {
    fn begin_file(&mut self, name: &'p str) {
        self.answers.begin_file(name);
    }

    fn has_enough(&self) -> bool {
        self.answers.has_enough()
    }

    fn matched(&self, alloc: Global) -> Result<Matched, AllocError> {
        self.answers.matched(alloc)
    }

    fn missed(&self) -> Missed {
        self.answers.missed()
    }
}

/// Returns the file as an input that is watched while it is read. It shows the progress if `shows`
/// is set and the size of the file is known and isn't 0.
fn watch<'a>(rt: &'a HostRuntime, file: File, name: &'a str, shows: bool) -> Watched<'a, File> {
    let size = match file.metadata() {
        Ok(metadata) => metadata.len(),
        Err(_) => 0,
    };
    let watched = Watched::new(file);
    if shows && size > 0 {
        watched.with_progress(rt, name, size)
    } else {
        watched
    }
}

/// Answers each line or event of a file, and shows the progress if `shows` is set. The name `-` means
/// standard input, which has no progress.
fn answer_file<A: LineHandler>(
    mut outlet: &Outlet<'_>,
    answers: &mut FormedAnswers<A>,
    name: &str,
    shows: bool,
) -> Result<Answered, RunFault> {
    let rt = outlet.rt;
    let alloc = rt.alloc();
    answers.begin_input();
    if name == "-" {
        let mut input = Watched::new(StandardInput::new(rt, rt.stdin()));
        return answer_input(alloc, answers, &mut input, &mut outlet, shown_name(name));
    }
    match File::open(rt, name) {
        Ok(file) => {
            let shown = visible(alloc, name)?;
            let mut input = watch(rt, file, shown.as_str(), shows);
            answer_input(alloc, answers, &mut input, &mut outlet, name)
        }
        Err(error) => Err(file_fault(alloc, name, FileFailure::of(&error))?),
    }
}

/// Answers each line or event of each file, and shows the hints at its lines, and its progress if `shows` is
/// set. Reports each file that can't be read, and goes on with the next one.
fn answer_files<'p, A: LogLines<'p>>(
    outlet: &Outlet<'_>,
    answers: &mut FormedAnswers<A>,
    files: &[&'p str],
    hints: &mut Hints,
    shows: bool,
) -> Result<RunOutcome, RunFault> {
    let rt = outlet.rt;
    let mut outcome = RunOutcome::AllRead;
    for file in files {
        if answers.answers.has_enough() {
            break;
        }
        answers.answers.begin_file(file);
        let answered = answer_file(outlet, answers, file, shows);
        let missed = answers.answers.missed();
        if let Some(hint) = hints.of_input(rt.alloc(), shown_name(file), answers.signs, missed)? {
            show_note(rt, hint.as_str())?;
        }
        match answered {
            Ok(Answered::All) => {}
            Ok(Answered::Enough) => break,
            Err(_) if answers.answers.has_enough() => break,
            Err(RunFault::Read(report)) => {
                // The run goes on if the report can't be written.
                let _ = eprint!(rt; "{report}");
                outcome = RunOutcome::SomeUnread;
            }
            Err(fault) => return Err(fault),
        }
    }
    Ok(outcome)
}

/// Answers each line or event of the files that the options name, or of standard input.
///
/// # Errors
///
/// Returns an error if an allocation or the output fails. A file that can't be read is only reported.
pub fn answer_inputs<'p, A: LogLines<'p>>(
    outlet: &Outlet<'_>,
    options: &Options<'p>,
    answers: &mut FormedAnswers<A>,
) -> Result<RunOutcome, RunFault> {
    let rt = outlet.rt;
    let mut hints = Hints::new(answers.form, options.unit());
    let outcome = if options.files.is_empty() {
        answer_files(outlet, answers, STANDARD_INPUT, &mut hints, false)?
    } else {
        let shows = shows_progress(rt);
        answer_files(outlet, answers, &options.files, &mut hints, shows)?
    };
    let matched = answers.answers.matched(rt.alloc())?;
    if let Some(hint) = hints.at_end(rt.alloc(), matched, options)? {
        show_note(rt, hint.as_str())?;
    }
    Ok(outcome.with_found(options, !matches!(matched, Matched::NoneOf(_))))
}

/// Searches each line of the inputs, or each event if `start` is the pattern of `--start`.
/// Returns what searched them, and how that ended.
pub fn answer_each<'p, A: LogLines<'p> + SkipLines + Drop>(
    outlet: &Outlet<'_>,
    options: &Options<'p>,
    start: Option<&RunPattern>,
    lines: A,
) -> Result<(A, RunOutcome), RunFault> {
    let alloc = outlet.rt.alloc();
    let (Some(start), Some(events)) = (start, options.events) else {
        let mut lines = FormedAnswers::new(alloc, lines, options.form);
        let outcome = answer_inputs(outlet, options, &mut lines)?;
        return Ok((lines.into_answers(), outcome));
    };
    let start = StartPattern::new(&start.pattern)?;
    let events = EventAnswers::new(alloc, lines, start, events.most_lines);
    let mut lines = FormedAnswers::new(alloc, events, options.form);
    let outcome = answer_inputs(outlet, options, &mut lines)?;
    Ok((lines.into_answers().into_answers(), outcome))
}

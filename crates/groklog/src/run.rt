//! Runs the program over files, or over standard input: from the options come the definitions and the patterns,
//! and then the task of the run is done.

use crate::inputs::RunOutcome;
use crate::notes::{note_without_keys, notes_of_extracts, notes_of_pattern, notes_of_words};
use crate::output::{Outlet, show_note, show_notes, write_output};
use crate::plans::{plan_all, with_tags};
use crate::tasks::{CompiledRun, suggest};
use groklog_answers::Plan;
use groklog_definitions::{
    Library, PatternText, list_common_definitions, patterns_of, start_pattern,
};
use groklog_files::{ReadFiles, WholeFile, check_logs, is_same_file, read_definition_files};
use groklog_keys::{check_keys, chosen_fields};
use groklog_options::{GivenDefinitions, MadeFor, Options, Task};
use groklog_patterns::{Adapted, RunPattern, adapt_all, adapt_own, compile_all, definition_lines};
use groklog_reports::{Report, RunFault, TextFile};
use oniguruma_syntax::RewriteOptions;
use std::alloc::{AllocError, Global};
use std::fs::File;
use std::rt::Files;

/// The options that ask for a file.
pub const PAGE: &str = "--html";

const DEFINITIONS: &str = "--write-definitions";

/// Returns how definitions and patterns are rewritten, or `None` if they stay as they are.
fn rewrite_options_of(given: &GivenDefinitions<'_>) -> Option<RewriteOptions> {
    match given.made_for {
        MadeFor::Groklog => None,
        MadeFor::Logstash { is_loose } => Some(RewriteOptions {
            is_whole: false,
            is_loose,
        }),
    }
}

/// Returns the patterns of the run as they are compiled, that of `--start` last. If they were made for Logstash, they are rewritten, with
/// the definitions that they use, and notes say what was changed.
fn texts_of(
    rt: &(impl Eprint + AllocGlobal),
    library: &mut Library<'_>,
    options: &Options<'_>,
) -> Result<Vec<PatternText>, RunFault> {
    let alloc = rt.alloc();
    let words: Vec<&str> = options
        .patterns
        .iter()
        .map(|pattern| pattern.text)
        .collect(alloc)?;
    let mut given = patterns_of(alloc, &words, !options.is_all)?;
    if let Some(events) = options.events {
        given.push(start_pattern(alloc, events.start)?)?;
    }
    let Some(rewrite_options) = rewrite_options_of(&options.definitions) else {
        return Ok(given);
    };
    let Adapted { texts, notes } = adapt_all(alloc, library, &given, rewrite_options)?;
    show_notes(rt, &notes)?;
    Ok(texts)
}

/// Rewrites the definitions made for Logstash that the patterns don't use, if patterns are suggested or if the
/// definitions are written to a file. Notes say what was changed in what is written.
fn adapt_others(
    rt: &(impl Eprint + AllocGlobal),
    library: &mut Library<'_>,
    options: &Options<'_>,
) -> Result<(), AllocError> {
    let Some(rewrite_options) = rewrite_options_of(&options.definitions) else {
        return Ok(());
    };
    let is_written = options.definitions.written.is_some();
    if is_written || matches!(options.task, Task::Suggestions(_)) {
        let notes = adapt_own(rt.alloc(), library, rewrite_options)?;
        if is_written {
            show_notes(rt, &notes)?;
        }
    }
    Ok(())
}

/// Shows the notes on the patterns, before any line is read.
fn show_notes_of_patterns(
    rt: &(impl Eprint + AllocGlobal),
    options: &Options<'_>,
    library: &Library<'_>,
    patterns: &[RunPattern],
) -> Result<(), AllocError> {
    let alloc = rt.alloc();
    if let Task::Answers(answers) = &options.task
        && answers.is_typed
    {
        for RunPattern { pattern, .. } in patterns {
            show_notes(rt, &notes_of_extracts(alloc, pattern)?)?;
        }
    }
    let mut has_notes = false;
    for pattern in patterns {
        let notes = notes_of_pattern(alloc, library, options.unit(), pattern)?;
        show_notes(rt, &notes)?;
        has_notes = has_notes || !notes.is_empty();
    }
    if !has_notes && let Some(note) = note_without_keys(alloc, options, patterns)? {
        show_note(rt, note.as_str())?;
    }
    Ok(())
}

fn written_twice(alloc: Global, name: &str) -> Result<RunFault, AllocError> {
    let what = format!(in alloc; "{PAGE} and {DEFINITIONS} would both write {name}")?;
    let advice = "name another file after one of them";
    Ok(RunFault::Usage(Report::new(alloc, what.as_str(), advice)?))
}

/// Checks, before a line is read, that each file can be written that the options ask for, that it isn't one
/// of those that are read, and that the logs can be opened.
fn check_files(
    rt: &(impl Files<File = File> + AllocGlobal),
    options: &Options<'_>,
    read: &ReadFiles,
) -> Result<(), RunFault> {
    let page = match &options.task {
        Task::Page(page) => Some(page.file),
        _ => None,
    };
    if let (Some(page), Some(definitions)) = (page, options.definitions.written)
        && is_same_file(rt, page, definitions)
    {
        return Err(written_twice(rt.alloc(), page)?);
    }
    for (option, name) in [(PAGE, page), (DEFINITIONS, options.definitions.written)] {
        if let Some(name) = name {
            WholeFile { option, name, read }.check(rt)?;
            check_logs(rt, &options.files)?;
        }
    }
    Ok(())
}

/// Returns the keys of patterns that are written, or `None` if all are. Checks the keys that the options name.
fn checked_fields<'p>(
    alloc: Global,
    options: &'p Options<'p>,
    patterns: &'p [RunPattern],
    plans: &'p [Plan<'p>],
) -> Result<Option<Vec<&'p str>>, RunFault> {
    let named = with_tags(alloc, &options.patterns, patterns, plans)?;
    check_keys(alloc, &options.task, &named)?;
    chosen_fields(alloc, &options.task, &named)
}

/// Does the task. Unless patterns are suggested, compiles those of the run.
fn run_task(
    rt: &HostRuntime,
    options: &Options<'_>,
    library: &Library<'_>,
    texts: Vec<PatternText>,
    read: &ReadFiles,
) -> Result<RunOutcome, RunFault> {
    let alloc = rt.alloc();
    let outlet = Outlet::new(rt);
    if let Task::Suggestions(most) = options.task {
        return suggest(&outlet, options, library, most);
    }
    let mut patterns = compile_all(alloc, library, texts)?;
    let start = match options.events {
        Some(_) => patterns.pop(),
        None => None,
    };
    let plans = plan_all(alloc, options.task.plan(), &patterns)?;
    let fields = checked_fields(alloc, options, &patterns, &plans)?;
    show_notes_of_patterns(rt, options, library, &patterns)?;
    let named = with_tags(alloc, &options.patterns, &patterns, &plans)?;
    CompiledRun {
        outlet: &outlet,
        options,
        library,
        patterns: &patterns,
        start: start.as_ref(),
        named: &named,
        fields: fields.as_deref(),
        read,
    }
    .perform()
}

/// Returns the fault that reports that there are no definitions to write.
fn nothing_to_write(alloc: Global) -> Result<RunFault, AllocError> {
    let what = format!(in alloc; "{DEFINITIONS} has no definitions to write")?;
    Ok(RunFault::Usage(Report::new(alloc, what.as_str(), "give them by -d FILE or -D NAME=DEF")?))
}

/// Checks the files of a run, and does its task. After that, writes the definitions to a file if that is wanted.
fn run_over(
    rt: &HostRuntime,
    options: &Options<'_>,
    files: &[TextFile],
    library: &Library<'_>,
    texts: Vec<PatternText>,
) -> Result<RunOutcome, RunFault> {
    let read = ReadFiles::of(rt, &options.files, files)?;
    check_files(rt, options, &read)?;
    let given = &options.definitions;
    let Some(name) = given.written else {
        return run_task(rt, options, library, texts, &read);
    };
    let lines = definition_lines(rt.alloc(), files, &given.words, rewrite_options_of(given))?;
    if lines.is_empty() {
        return Err(nothing_to_write(rt.alloc())?);
    }
    let outcome = run_task(rt, options, library, texts, &read)?;
    let file = WholeFile {
        option: DEFINITIONS,
        name,
        read: &read,
    };
    file.write(rt, outcome != RunOutcome::SomeUnread, lines.as_str())?;
    Ok(outcome)
}

/// Returns the fault that reports that no common definition has this text in its name.
fn nothing_to_list(alloc: Global, text: &str) -> Result<RunFault, AllocError> {
    let what = format!(in alloc; "no name of a common definition has {text} in it")?;
    Ok(RunFault::Usage(Report::new(alloc, what.as_str(), "groklog --list, which lists all")?))
}

/// Lists the common definitions whose names have this text.
fn list(rt: &(impl Print + AllocGlobal), text: &str) -> Result<RunOutcome, RunFault> {
    let lines = list_common_definitions(rt.alloc(), text)?;
    if lines.is_empty() {
        return Err(nothing_to_list(rt.alloc(), text)?);
    }
    write_output(rt, lines.as_str())?;
    Ok(RunOutcome::AllRead)
}

/// Does what the options ask for.
///
/// # Errors
///
/// Returns the first fault of a definition, a pattern, a key or a file that is written, before any line is
/// read. After that, returns an error if an allocation, a file or the output fails.
pub fn run(rt: &HostRuntime, options: &Options<'_>) -> Result<RunOutcome, RunFault> {
    let alloc = rt.alloc();
    if let Task::List(text) = options.task {
        return list(rt, text);
    }
    show_notes(rt, &notes_of_words(rt, options)?)?;
    let given = &options.definitions;
    let files = read_definition_files(rt, &given.files)?;
    let mut library = Library::new(
        alloc,
        given.has_common,
        &files,
        &given.words,
        given.most_bytes,
    )?;
    let texts = texts_of(rt, &mut library, options)?;
    adapt_others(rt, &mut library, options)?;
    run_over(rt, options, &files, &library, texts)
}

//! Writes the command that is suggested, as it is written in a shell.

use groklog_options::{EXPANSION, MadeFor, Options};
use groklog_reports::visible;
use log_samples::ValueNames;
use std::alloc::{AllocError, Global};
use std::fmt::Write;

/// How the lines of a suggested command are read, beside what the options ask for.
#[derive(Clone, Copy)]
pub(crate) struct Reading<'a> {
    /// Whether a carriage return is taken off the end of each line.
    pub drops_return: bool,
    /// The pattern of `--start`, if the lines are parts of events.
    pub start: Option<&'a str>,
}

/// Returns whether a character means nothing special in a word of a shell.
fn is_plain(c: char) -> bool {
    c.is_ascii_alphanumeric() || matches!(c, '_' | '-' | '.' | '/' | ',' | ':' | '=' | '@' | '+')
}

/// Appends a word in the quotes of a shell that have escapes, `$'..'`. Only those of its characters that can be seen
/// are written as they are.
fn push_escaped(command: &mut String, word: &str) -> Result<(), AllocError> {
    command.push_str("$'")?;
    for byte in word.bytes() {
        match byte {
            b'\\' => command.push_str("\\\\")?,
            b'\'' => command.push_str("\\'")?,
            b' '..=b'~' => command.push(char::from(byte))?,
            _ => write!(command, "\\x{byte:02x}")?,
        }
    }
    command.push('\'')
}

/// Appends a word as it is written in a shell, after a blank. No byte of it is one that a terminal could take as a
/// command.
fn push_word(alloc: Global, command: &mut String, word: &str) -> Result<(), AllocError> {
    command.push(' ')?;
    if !word.is_empty() && word.chars().all(is_plain) {
        return command.push_str(word);
    }
    if visible(alloc, word)?.as_str() != word {
        return push_escaped(command, word);
    }
    command.push('\'')?;
    for c in word.chars() {
        if c == '\'' {
            command.push_str("'\\''")?;
        } else {
            command.push(c)?;
        }
    }
    command.push('\'')
}

/// Appends an option with each of its values.
fn push_option(
    alloc: Global,
    command: &mut String,
    option: &str,
    values: &[&str],
) -> Result<(), AllocError> {
    for value in values {
        push_word(alloc, command, option)?;
        push_word(alloc, command, value)?;
    }
    Ok(())
}

/// Appends the files that the options name. If one begins with `-`, it is none of the options.
pub(crate) fn push_files(
    alloc: Global,
    command: &mut String,
    options: &Options<'_>,
) -> Result<(), AllocError> {
    let mut is_like_option = false;
    for file in &options.files {
        is_like_option = is_like_option || (file.len() > 1 && file.starts_with('-'));
    }
    if is_like_option {
        push_word(alloc, command, "--")?;
    }
    for file in &options.files {
        push_word(alloc, command, file)?;
    }
    Ok(())
}

/// Returns the command that reads the same lines with these patterns.
pub(crate) fn command_of(
    alloc: Global,
    options: &Options<'_>,
    reading: Reading<'_>,
    patterns: &[&str],
) -> Result<String, AllocError> {
    let made_for = options.definitions.made_for;
    let mut command = String::from_str(alloc, "groklog")?;
    let flags = [
        (reading.drops_return, "--crlf"),
        (options.form.is_lossy, "--lossy"),
        (!options.definitions.has_common, "--no-common"),
        (made_for != MadeFor::Groklog, "--from-logstash"),
        (made_for == MadeFor::Logstash { is_loose: true }, "--loose"),
    ];
    for (is_given, flag) in flags {
        if is_given {
            push_word(alloc, &mut command, flag)?;
        }
    }
    let most_bytes = options.definitions.most_bytes;
    if most_bytes != EXPANSION {
        write!(command, " --max-expansion {most_bytes}")?;
    }
    push_option(alloc, &mut command, "-d", &options.definitions.files)?;
    push_option(alloc, &mut command, "-D", &options.definitions.words)?;
    if let Some(start) = reading.start {
        push_option(alloc, &mut command, "--start", &[start])?;
    }
    match patterns {
        [pattern] => push_word(alloc, &mut command, pattern)?,
        _ => push_option(alloc, &mut command, "-e", patterns)?,
    }
    push_files(alloc, &mut command, options)?;
    Ok(command)
}

/// Appends the command of another program that reads the same files.
pub(crate) fn push_other(
    alloc: Global,
    report: &mut String,
    options: &Options<'_>,
    program: &str,
) -> Result<(), AllocError> {
    report.push_str(program)?;
    push_files(alloc, report, options)?;
    report.push('\n')
}

/// Returns the program that reads values between this separator.
pub(crate) fn reader_of(separator: char, names: ValueNames) -> &'static str {
    match (separator, names) {
        ('\t', ValueNames::FirstLine) => "mlr --itsv --ojson cat",
        ('\t', ValueNames::EachValue) => "mlr --idkvp --ifs tab --ojson cat",
        ('\t', ValueNames::None) => "mlr --itsv --implicit-tsv-header --ojson cat",
        (';', ValueNames::FirstLine) => "mlr --icsv --ifs ';' --ojson cat",
        (';', ValueNames::EachValue) => "mlr --idkvp --ifs ';' --ojson cat",
        (';', ValueNames::None) => "mlr --icsv --ifs ';' --implicit-csv-header --ojson cat",
        (_, ValueNames::FirstLine) => "mlr --icsv --ojson cat",
        (_, ValueNames::EachValue) => "mlr --idkvp --ojson cat",
        (_, ValueNames::None) => "mlr --icsv --implicit-csv-header --ojson cat",
    }
}

//! Reports what is wrong with a pattern that can't be compiled, where, and what to do.

use grok::{
    Clash, Diagnosis, Grok, Location, MAX_NESTING, MalformedReason, PathStep, RefusalReason,
    Refused,
};
use groklog_definitions::{Library, PatternText, ordinal};
use groklog_reports::{Report, add_excerpt};
use oniguruma_syntax::has_own_forms;
use regex_syntax::ErrorKind;
use std::alloc::{AllocError, Global};
use std::ops::Range;
use strsim::osa_distance;

/// How many of the definitions that lead to a fault are named at most.
const MOST_STEPS: usize = 8;

/// The advice for a malformed placeholder.
const PLACEHOLDERS: &str =
    "write %{NAME}, %{NAME:alias} or %{NAME:alias:extract}, where a NAME has a-z A-Z 0-9 _, and an alias or extract a-z A-Z 0-9 _ - . [ ]; give definitions that have braces by -D or -d";

/// The advice for a form that only Logstash's engine knows.
const FROM_LOGSTASH: &str =
    "use --from-logstash, which rewrites what was made for Logstash, and reports what changes";

/// The advice for an `@` in a placeholder. Logstash takes it there, and the crate `grok` doesn't.
const NO_AT_SIGN: &str =
    "leave out the @, as in %{NAME:timestamp}: the grok crate takes none in a placeholder, though Logstash does";

/// The advice for `%%{`, in which the first `%` makes the second one a literal.
const DOUBLED_PERCENT: &str =
    "write [%]%{NAME} for a % before a placeholder: %% is a literal %%, and so %%{ begins no placeholder";

/// The advice for any other text that the engine refuses.
const REGEX_SYNTAX: &str =
    "write it in the syntax of Rust's regex crate, which https://docs.rs/regex/#syntax shows";

/// The advice for a placeholder inside a character class.
const NOT_IN_CLASS: &str = "write \\[ for the bracket itself";

fn in_upper_case(alloc: Global, name: &str) -> Result<String, AllocError> {
    let mut upper = String::new(alloc);
    for c in name.chars() {
        upper.push(c.to_ascii_uppercase())?;
    }
    Ok(upper)
}

/// How many bytes a name may have that is compared with the names of definitions.
const MOST_COMPARED: usize = 64;

/// Returns the name of a definition that has the smallest edit distance from `name`, or `None` if
/// none is close enough. An edit inserts, drops or replaces a character, or swaps two neighbours.
/// One edit is allowed for each three characters, but at least one if there are two. Upper and
/// lower case count as the same. Names of more than `MOST_COMPARED` bytes have no nearest one, and
/// names whose lengths differ by more than the edits that are allowed aren't compared.
fn nearest_name(alloc: Global, grok: &Grok, name: &str) -> Result<Option<String>, AllocError> {
    if name.len() > MOST_COMPARED {
        return Ok(None);
    }
    let upper_name = in_upper_case(alloc, name)?;
    let most = (name.len() / 3).max(1).min(name.len().saturating_sub(1));
    let mut nearest = None;
    let mut fewest = most.saturating_add(1);
    for known in grok.names() {
        if known.len().abs_diff(name.len()) >= fewest {
            continue;
        }
        let upper = in_upper_case(alloc, known)?;
        let edits = osa_distance(alloc, upper_name.as_str(), upper.as_str())?;
        if edits < fewest {
            fewest = edits;
            nearest = Some(String::from_str(alloc, known)?);
        }
    }
    Ok(nearest)
}

fn advice_for_name(alloc: Global, grok: &Grok, name: &str) -> Result<String, AllocError> {
    match nearest_name(alloc, grok, name)? {
        Some(nearest) => format!(in alloc;
            "write {nearest} if you mean that, or define {name} by -d FILE or -D {name}=DEF"
        ),
        None => format!(in alloc;
            "define {name} by -d FILE or -D {name}=DEF, or look for another name by --list"
        ),
    }
}

/// Returns the words that describe where a fault is: in the pattern, or in the definition of the
/// last of these names. For a definition they say where it was given, and which definitions lead to
/// it.
pub fn describe_location(
    alloc: Global,
    library: &Library<'_>,
    pattern: &PatternText,
    names: &[&str],
) -> Result<String, AllocError> {
    let Some((name, through)) = names.split_last() else {
        return String::from_str(alloc, pattern.words.as_str());
    };
    let mut words = format!(in alloc; "the definition {name}")?;
    if let Some(source) = library.source(name) {
        let origin = format!(in alloc; " ({})", source.origin)?;
        words.push_str(origin.as_str())?;
    }
    for (number, user) in through.iter().take(MOST_STEPS).enumerate() {
        words.push_str(if number == 0 { ", used by " } else { " > " })?;
        words.push_str(user)?;
    }
    if through.len() > MOST_STEPS {
        words.push_str(" > ...")?;
    }
    Ok(words)
}

fn push_names<'a>(names: &mut Vec<&'a str>, path: &[PathStep<'a>]) -> Result<(), AllocError> {
    for step in path {
        names.push(step.name)?;
    }
    Ok(())
}

fn add_location(
    alloc: Global,
    library: &Library<'_>,
    pattern: &PatternText,
    report: &mut Report,
    location: &Location<'_>,
) -> Result<(), AllocError> {
    let mut names = Vec::new(alloc);
    push_names(&mut names, location.path.as_slice())?;
    let words = describe_location(alloc, library, pattern, names.as_slice())?;
    let range = location.range.start..location.range.end;
    add_excerpt(alloc, report, words.as_str(), location.text, range)
}

fn empty_report(alloc: Global, pattern: &PatternText) -> Result<Report, AllocError> {
    let what = format!(in alloc; "{} is empty", pattern.words)?;
    Report::new(
        alloc,
        what.as_str(),
        "write a regular expression, with placeholders such as %{USERNAME:user}",
    )
}

fn malformed_words(alloc: Global, reason: MalformedReason) -> Result<String, AllocError> {
    let words = match reason {
        MalformedReason::InvalidCharacter(c) => {
            return format!(in alloc; "a placeholder can't have {c:?} here");
        }
        MalformedReason::Unclosed | MalformedReason::UnclosedDefinition => {
            "this placeholder isn't closed by }"
        }
        MalformedReason::NoName => "this placeholder has no name",
        MalformedReason::NoAlias => "the alias of this placeholder is empty",
        MalformedReason::NoExtract => "the extract of this placeholder is empty",
        MalformedReason::FourthWord => {
            "this placeholder has more than a name, an alias and an extract"
        }
        MalformedReason::NoDefinition => "the definition in this placeholder is empty",
        MalformedReason::BraceInDefinition => "a definition inside a placeholder can't have a {",
    };
    String::from_str(alloc, words)
}

fn advice_for_malformed(reason: MalformedReason) -> &'static str {
    match reason {
        MalformedReason::InvalidCharacter('@') => NO_AT_SIGN,
        _ => PLACEHOLDERS,
    }
}

/// The report doesn't say yet where the placeholder is.
fn malformed_report(alloc: Global, reason: MalformedReason) -> Result<Report, AllocError> {
    let what = malformed_words(alloc, reason)?;
    Report::new(alloc, what.as_str(), advice_for_malformed(reason))
}

/// Returns the location of what is wrong with the malformed placeholder at `location`: the character
/// at the byte position `byte` of the text, or the whole placeholder if the text ends there.
fn wrong_part<'a>(location: Location<'a>, byte: usize) -> Location<'a> {
    let Location { path, text, range } = location;
    let rest = text.get(byte..).unwrap_or("");
    let range = match rest.chars().next() {
        Some(c) => byte..byte.saturating_add(c.len_utf8()),
        None => range,
    };
    Location { path, text, range }
}

/// The report doesn't say yet where the name is.
fn missing_report(alloc: Global, grok: &Grok, name: &str) -> Result<Report, AllocError> {
    let what = format!(in alloc; "there is no definition of {name}")?;
    let advice = advice_for_name(alloc, grok, name)?;
    Report::new(alloc, what.as_str(), advice.as_str())
}

/// Returns the first name that occurs in the path for the second time, or `None` if each name
/// occurs once.
fn repeated<'a>(path: &[PathStep<'a>]) -> Option<&'a str> {
    for (number, step) in path.iter().enumerate() {
        if path
            .iter()
            .take(number)
            .any(|before| before.name == step.name)
        {
            return Some(step.name);
        }
    }
    None
}

/// `path` leads to the innermost placeholder. The report doesn't say yet where that is.
fn too_deep_report(alloc: Global, path: &[PathStep<'_>]) -> Result<Report, AllocError> {
    let Some(name) = repeated(path) else {
        let what = format!(in alloc;
            "placeholders are nested more than {},{:03} levels deep",
            MAX_NESTING / 1000,
            MAX_NESTING % 1000
        )?;
        let advice = "use fewer definitions that use one another";
        return Report::new(alloc, what.as_str(), advice);
    };
    let what = format!(in alloc; "the definition {name} uses itself")?;
    let advice = format!(in alloc;
        "change {name}, or a definition that it uses, so that it doesn't lead back to {name}"
    )?;
    Report::new(alloc, what.as_str(), advice.as_str())
}

/// Describes how two placeholders get the same key. For one of them the key is its alias. The other one
/// gets it because the keys of placeholders with the same base key are numbered.
fn clashing(alloc: Global, clash: &Clash<'_>) -> Result<String, AllocError> {
    let key = clash.key.as_str();
    let base = clash.base.as_str();
    let nth = ordinal(alloc, clash.number.saturating_add(1))?;
    format!(in alloc;
        "two placeholders get the key {key}: one has this alias, and the other is the {nth} that asks for {base}"
    )
}

fn clash_report(
    alloc: Global,
    library: &Library<'_>,
    pattern: &PatternText,
    clash: &Clash<'_>,
) -> Result<Report, AllocError> {
    let what = clashing(alloc, clash)?;
    let mut report = Report::new(alloc, what.as_str(), "give one of them another alias")?;
    add_location(alloc, library, pattern, &mut report, &clash.first)?;
    add_location(alloc, library, pattern, &mut report, &clash.second)?;
    Ok(report)
}

/// Returns the name of a definition if a text is that name, with or without a `%` and braces, and isn't a
/// placeholder.
pub fn bare_name<'t>(library: &Library<'_>, text: &'t str) -> Option<&'t str> {
    if text.starts_with("%{") {
        return None;
    }
    let name = text.strip_prefix('%').unwrap_or(text);
    let name = name.strip_prefix('{').unwrap_or(name);
    let name = name.strip_suffix('}').unwrap_or(name);
    if library.grok.definition(name).is_none() {
        return None;
    }
    Some(name)
}

fn advice_for_refusal(
    alloc: Global,
    library: &Library<'_>,
    text: &str,
) -> Result<String, AllocError> {
    if let Some(name) = bare_name(library, text) {
        return format!(in alloc; "write '%{{{name}}}' for the definition of this name");
    }
    String::from_str(
        alloc,
        if has_own_forms(alloc, text)? {
            FROM_LOGSTASH
        } else if text.contains("%%{") {
            DOUBLED_PERCENT
        } else {
            REGEX_SYNTAX
        },
    )
}

/// Where in a regular expression a character stands: inside which brackets, and after what.
#[derive(Clone, Copy)]
struct ReadSoFar {
    /// How many character classes are open, one inside the other.
    classes: usize,
    /// Whether the character before is a backslash that escapes the next one.
    is_escape: bool,
    /// Whether a class has just begun, so that a `]` stands for itself.
    is_class_start: bool,
}

impl ReadSoFar {
    fn after(self, c: char) -> ReadSoFar {
        let classes = self.classes;
        let (is_escape, is_class_start) = (false, false);
        let plain = ReadSoFar {
            classes,
            is_escape,
            is_class_start,
        };
        match c {
            _ if self.is_escape => plain,
            '\\' => ReadSoFar {
                is_escape: true,
                ..plain
            },
            '[' => ReadSoFar {
                classes: classes.saturating_add(1),
                is_class_start: true,
                ..plain
            },
            '^' if self.is_class_start => self,
            ']' if !self.is_class_start => ReadSoFar {
                classes: classes.saturating_sub(1),
                ..plain
            },
            _ => plain,
        }
    }
}

fn is_in_class(text: &str, position: usize) -> bool {
    let mut read = ReadSoFar {
        classes: 0,
        is_escape: false,
        is_class_start: false,
    };
    for c in text.get(..position).unwrap_or(text).chars() {
        read = read.after(c);
    }
    read.classes > 0
}

fn push_steps<'a>(steps: &mut Vec<PathStep<'a>>, path: &[PathStep<'a>]) -> Result<(), AllocError> {
    for step in path {
        steps.push(PathStep {
            name: step.name,
            range: step.range.start..step.range.end,
        })?;
    }
    Ok(())
}

/// Appends the step of the placeholder that stands at this range of a text, if one does. Its name isn't needed,
/// since nothing inside of it is refused.
fn push_placeholder(
    steps: &mut Vec<PathStep<'_>>,
    text: &str,
    range: &Range<usize>,
) -> Result<(), AllocError> {
    let part = text.get(range.start..range.end).unwrap_or("");
    if part.starts_with("%{") {
        steps.push(PathStep {
            name: "",
            range: range.start..range.end,
        })?;
    }
    Ok(())
}

/// Returns the outermost of these placeholders that is inside a character class, or `None` if none is. Each
/// of them leads to the text of the next one, and the first one is in the pattern.
fn first_in_class<'a>(
    library: &'a Library<'_>,
    pattern: &'a PatternText,
    steps: &[PathStep<'_>],
) -> Option<(usize, &'a str)> {
    let mut text = pattern.text.as_str();
    for (number, step) in steps.iter().enumerate() {
        if is_in_class(text, step.range.start) {
            return Some((number, text));
        }
        text = library.grok.definition(step.name).unwrap_or("");
    }
    None
}

/// Returns the report that a placeholder is inside a character class, where the engine reads the text of its
/// definition as single characters, and refuses that for the reason `kind`. `steps` are the placeholders that
/// lead to what it refuses. Returns `None` if none of them is in a class.
fn class_report(
    alloc: Global,
    library: &Library<'_>,
    pattern: &PatternText,
    steps: &[PathStep<'_>],
    kind: ErrorKind,
) -> Result<Option<Report>, AllocError> {
    let Some((number, text)) = first_in_class(library, pattern, steps) else {
        return Ok(None);
    };
    let mut names = Vec::new(alloc);
    push_names(&mut names, steps.get(..number).unwrap_or(&[]))?;
    let words = describe_location(alloc, library, pattern, names.as_slice())?;
    let range = match steps.get(number) {
        Some(step) => step.range.start..step.range.end,
        None => 0..0,
    };
    let what = format!(in alloc;
        "a placeholder inside a character class [..] means its characters, which the engine refuses: {}",
        kind.message()
    )?;
    let mut report = Report::new(alloc, what.as_str(), NOT_IN_CLASS)?;
    add_excerpt(alloc, &mut report, words.as_str(), text, range)?;
    Ok(Some(report))
}

fn syntax_report(
    alloc: Global,
    library: &Library<'_>,
    pattern: &PatternText,
    refused: Refused<'_>,
    kind: ErrorKind,
) -> Result<Report, AllocError> {
    let Refused {
        path,
        part,
        location,
        ..
    } = refused;
    let mut steps = Vec::new(alloc);
    push_steps(&mut steps, path.as_slice())?;
    let (text, range) = match location {
        Some(location) => {
            push_steps(&mut steps, location.path.as_slice())?;
            (location.text, location.range)
        }
        None => (part, 0..part.len()),
    };
    let mut placeholders = Vec::new(alloc);
    push_steps(&mut placeholders, &steps)?;
    push_placeholder(&mut placeholders, text, &range)?;
    if let Some(report) = class_report(alloc, library, pattern, &placeholders, kind)? {
        return Ok(report);
    }
    let mut names = Vec::new(alloc);
    push_names(&mut names, steps.as_slice())?;
    let what = format!(in alloc; "the engine refuses this: {}", kind.message())?;
    let advice = advice_for_refusal(alloc, library, text)?;
    let mut report = Report::new(alloc, what.as_str(), advice.as_str())?;
    let words = describe_location(alloc, library, pattern, names.as_slice())?;
    add_excerpt(alloc, &mut report, words.as_str(), text, range)?;
    Ok(report)
}

fn too_large_report(alloc: Global, pattern: &PatternText) -> Result<Report, AllocError> {
    let what = format!(in alloc; "{} is too large for the engine", pattern.words)?;
    Report::new(
        alloc,
        what.as_str(),
        "make repetitions such as {1,1000} fewer or smaller, or let \\w and \\d stand for ASCII only: (?-u:\\w)",
    )
}

fn refusal_report(
    alloc: Global,
    library: &Library<'_>,
    pattern: &PatternText,
    refused: Refused<'_>,
) -> Result<Report, AllocError> {
    match refused.reason {
        RefusalReason::Syntax(error) => {
            syntax_report(alloc, library, pattern, refused, error.kind)
        }
        RefusalReason::TooBig => too_large_report(alloc, pattern),
    }
}

/// Returns the report of why a pattern can't be compiled.
pub fn report_of(
    alloc: Global,
    library: &Library<'_>,
    pattern: &PatternText,
) -> Result<Report, AllocError> {
    let diagnosis = library
        .grok
        .diagnose(pattern.text.as_str(), pattern.with_alias_only)?;
    let (mut report, location) = match diagnosis {
        // own error: nothing is wrong with this pattern, so compiling it failed because an
        // allocation did.
        None => return Err(AllocError),
        // own error: the expanded text would be longer than any allocation.
        Some(Diagnosis::TooLong) => return Err(AllocError),
        Some(Diagnosis::Empty) => return empty_report(alloc, pattern),
        Some(
            Diagnosis::Malformed {
                reason,
                byte,
                location,
            },
        ) => (malformed_report(alloc, reason)?, wrong_part(location, byte)),
        Some(Diagnosis::Missing { name, location }) => {
            (missing_report(alloc, &library.grok, name)?, location)
        }
        Some(Diagnosis::TooDeep(location)) => {
            (too_deep_report(alloc, location.path.as_slice())?, location)
        }
        Some(Diagnosis::Clash(clash)) => return clash_report(alloc, library, pattern, &clash),
        Some(Diagnosis::Refused(refused)) => {
            return refusal_report(alloc, library, pattern, refused);
        }
    };
    add_location(alloc, library, pattern, &mut report, &location)?;
    Ok(report)
}

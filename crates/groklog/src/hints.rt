//! Hints at what an input is, for a user whose lines have no fields. They are shown after its lines
//! were answered.

use groklog_answers::{Lines, Missed, Searches};
use groklog_input::{Encoding, LineForm, Signs};
use groklog_options::{Options, Task};
use groklog_reports::Unit;
use std::alloc::{AllocError, Global};

/// Whether the patterns of a run match any line or event.
#[derive(Clone, Copy, PartialEq, Eq)]
pub enum Matched {
    /// One of them matches one.
    Any,
    /// None of them matches any of this many.
    NoneOf(u64),
    /// There are no patterns: they are suggested.
    NoPatterns,
}

impl Matched {
    /// Returns whether any line or event matched so far.
    pub fn of(alloc: Global, searches: &Searches<'_>) -> Result<Matched, AllocError> {
        let counts = searches.matched(alloc)?;
        Ok(if counts.is_empty() {
            Matched::NoPatterns
        } else if counts.iter().any(|count| *count > 0) {
            Matched::Any
        } else {
            Matched::NoneOf(searches.unmatched().saturating_add(searches.broken()))
        })
    }
}

/// Returns whether a user would otherwise not be told that nothing matched: `--why`, `--summary` and `--exit-status` tell
/// it, and `--unmatched` asks for such lines.
fn is_news(options: &Options<'_>) -> bool {
    let lines = match &options.task {
        Task::Answers(answers) => answers.lines,
        Task::Shown(shown) => shown.lines,
        Task::Page(page) => page.lines,
        Task::Counts(_) => Lines::All,
        Task::Why(_) | Task::Suggestions(_) | Task::Explanation | Task::List(_) => return false,
    };
    !matches!(lines, Lines::Unmatched) && !options.has_summary && !options.has_exit_status
}

/// Returns the program that compressed an input and the one that unpacks it, or `None` if it isn't compressed.
fn packer_of(encoding: Encoding) -> Option<(&'static str, &'static str)> {
    match encoding {
        Encoding::Gzip => Some(("gzip", "zcat")),
        Encoding::Xz => Some(("xz", "xzcat")),
        Encoding::Zstd => Some(("zstd", "zstdcat")),
        Encoding::Bzip2 => Some(("bzip2", "bzcat")),
        Encoding::Utf16 | Encoding::Other => None,
    }
}

/// What lines without a match may show of how they were written.
#[derive(Clone, Copy)]
struct Trace {
    /// How a hint says that lines show it, if none matched.
    all: &'static str,
    /// The same of some of them: their count comes after these words.
    some: &'static str,
    /// What takes it off.
    advice: &'static str,
}

const RETURNS: Trace = Trace {
    all: "lines end in a carriage return",
    some: "a carriage return ends",
    advice: "--crlf",
};

const ESCAPES: Trace = Trace {
    all: "lines have escape characters, as colours of a terminal do",
    some: "escape characters, as colours of a terminal have them, are in",
    advice: "sed 's/\\x1b\\[[0-9;]*m//g' FILE | groklog ..",
};

/// Finds the hints of a run. Each hint comes once, except that for a compressed file or for UTF-16, which comes
/// for each such input.
#[derive(Drop)]
pub struct Hints {
    form: LineForm,
    /// The unit that gets one answer.
    unit: Unit,
    /// Whether the hint at lines that aren't UTF-8 was given.
    was_broken: bool,
    /// Whether a hint says that an input isn't a text in UTF-8, so that it is clear why nothing matches.
    has_no_text: bool,
    /// What lines or events showed that no pattern matches. Inputs that aren't texts in UTF-8 don't count.
    missed: Missed,
}

impl Hints {
    /// Makes the `Hints` of a run that reads lines in this form, and answers each `unit`.
    pub fn new(form: LineForm, unit: Unit) -> Hints {
        Hints {
            form,
            unit,
            was_broken: false,
            has_no_text: false,
            missed: Missed::none(),
        }
    }

    /// Remembers what lines of one more input showed that no pattern matches, for the hints at the end.
    fn note_missed(&mut self, missed: Missed) {
        self.missed = Missed {
            returns: self.missed.returns.saturating_add(missed.returns),
            escapes: self.missed.escapes.saturating_add(missed.escapes),
        };
    }

    /// Returns the hint at the input `name`, whose lines showed these signs, and those without a match this, or `None`
    /// if there is none.
    pub fn of_input(
        &mut self,
        alloc: Global,
        name: &str,
        signs: Signs,
        missed: Missed,
    ) -> Result<Option<String>, AllocError> {
        if matches!(signs.encoding, Encoding::Other) {
            self.note_missed(missed);
        } else {
            self.has_no_text = true;
        }
        if let Some((packer, unpacker)) = packer_of(signs.encoding) {
            return Ok(Some(format!(in alloc;
                "{name} looks like a file of {packer}: use {unpacker} FILE | groklog .."
            )?));
        }
        match (signs.encoding, signs.first_broken) {
            (Encoding::Utf16, _) => Ok(Some(format!(in alloc;
                "{name} looks like UTF-16: use iconv -f UTF-16 -t UTF-8 FILE | groklog .."
            )?)),
            (_, Some(number)) if !self.form.is_lossy && !self.was_broken => {
                self.was_broken = true;
                let what = match self.unit {
                    Unit::Line => "it",
                    Unit::Event => "its event",
                };
                Ok(Some(format!(in alloc;
                    "line {number} of {name} isn't UTF-8, so {what} has no fields: use --lossy, or for another encoding iconv -f LATIN1 -t UTF-8 FILE | groklog .."
                )?))
            }
            _ => Ok(None),
        }
    }

    /// Returns the hint that this many lines or events without a match show a trace of how they were written.
    fn at_trace(
        &self,
        alloc: Global,
        matched: Matched,
        trace: Trace,
        count: u64,
    ) -> Result<String, AllocError> {
        let Trace { all, some, advice } = trace;
        let Matched::NoneOf(lines) = matched else {
            let units = self.unit.word(0);
            return format!(in alloc;
                "{some} {count} of the {units} that don't match: use {advice}"
            );
        };
        let counted = self.unit.counted(alloc, lines)?;
        format!(in alloc; "0 of {counted} matched, and {all}: use {advice}")
    }

    /// Returns the hint at the end of a run: at carriage returns or escape characters in lines or events without a match,
    /// or else at `--why` if nothing matched.
    pub fn at_end(
        &self,
        alloc: Global,
        matched: Matched,
        options: &Options<'_>,
    ) -> Result<Option<String>, AllocError> {
        // A command that is suggested has `--crlf` if it needs it.
        if matches!(matched, Matched::NoPatterns) {
            return Ok(None);
        }
        let Missed { returns, escapes } = self.missed;
        if returns > 0 && !self.form.drops_return {
            return Ok(Some(self.at_trace(alloc, matched, RETURNS, returns)?));
        }
        if escapes > 0 {
            return Ok(Some(self.at_trace(alloc, matched, ESCAPES, escapes)?));
        }
        let Matched::NoneOf(count) = matched else {
            return Ok(None);
        };
        if count == 0 || self.has_no_text || !is_news(options) {
            return Ok(None);
        }
        let counted = self.unit.counted(alloc, count)?;
        Ok(Some(format!(in alloc;
            "0 of {counted} matched: use --why to see where the pattern stops"
        )?))
    }
}

//! Faults as the program reports them to users: what is wrong, where, and what to do.

ghost use Rattle.std.specs.Prelude.{◌≡◌, [], ◌∷◌, ◌++◌, map, Some, IfOk, OnOk, OnErr, string_bytes};
ghost use Rattle.std.specs.Fmt.{WritesOnOk};
ghost use Rattle.groklog_reports.specs.Faults.{excerpt_text, part_texts, fault_status, part_text, parts_text, advice_text, report_text, fault_text};
ghost use Rattle.groklog_reports.specs.Visible.{visible};
ghost use Rattle.groklog_reports.specs.declared.fault.RunFault.TheVariants.{Memory};

use crate::visible_text::visible;
use std::alloc::{AllocError, AllocFailed, Global};
use std::fmt;

/// A part of a text that is wrong, and where that text is.
#[derive(Debug, Drop)]
pub struct FaultyPart {
    /// Where the text is, in words, such as the name of a file.
    pub location: String,
    /// Two lines: the part with some of the text around it, and carets under it.
    pub excerpt: String,
}

/// What is wrong, where, and what to do. If there is no advice, it is empty. All texts are shown by
/// [`visible`], so that nothing in them, such as the name of a file, can reach a terminal as a
/// command.
#[derive(Debug, Drop)]
pub struct Report {
    pub what: String,
    /// The parts that are wrong, in reading order: the two placeholders of a clash of keys, and
    /// otherwise at most one part.
    pub parts: Vec<FaultyPart>,
    pub advice: String,
}

/// Why the program ends early.
#[derive(Debug, Drop)]
pub enum RunFault {
    /// A pattern or a definition has a fault.
    Pattern(Report),
    /// The words of the command line are wrong.
    Usage(Report),
    /// An allocation failed.
    Memory,
    /// A file can't be read.
    Read(Report),
    /// The output can't be written.
    Write(Report),
}

fn excerpt_of(alloc: Global, text: &str, carets: &str) -> Result<String, AllocError>
    ensures { IfOk result (λ excerpt. string_bytes excerpt ≡ excerpt_text text.now carets.now) }
{
    let mut excerpt = visible(alloc, text)?;
    excerpt.push_str("\n    ")?;
    let carets = visible(alloc, carets)?;
    excerpt.push_str(carets.as_str())?;
    Ok(excerpt)
}

impl Report {
    /// Makes a report that shows no part of a text.
    pub fn new(alloc: Global, what: &str, advice: &str) -> Result<Report, AllocError>
        ensures what { IfOk result (λ report. string_bytes report.what ≡ visible what.now) }
        ensures parts { IfOk result (λ report. report.parts.items ≡ []) }
        ensures advice { IfOk result (λ report. string_bytes report.advice ≡ visible advice.now) }
    {
        Ok(Report {
            what: visible(alloc, what)?,
            parts: Vec::new(alloc),
            advice: visible(alloc, advice)?,
        })
    }

    /// Adds a part that is wrong: where its text is, the part with some of the text around it, and
    /// the carets that stand under the part. If an allocation fails, the report stays as it was.
    pub fn add_part(
        &mut self,
        alloc: Global,
        location: &str,
        text: &str,
        carets: &str,
    ) -> Result<(), AllocError>
        ensures what { self.new.what ≡ self.old.what }
        ensures parts { OnOk result (map part_texts self.new.parts.items
            ≡ map part_texts self.old.parts.items
            ++ ((visible location.now, excerpt_text text.now carets.now) ∷ [])) }
        ensures memory { OnErr result (self.new.parts.items ≡ self.old.parts.items) }
        ensures advice { self.new.advice ≡ self.old.advice }
    {
        let location = visible(alloc, location)?;
        let excerpt = excerpt_of(alloc, text, carets)?;
        Ok(self.parts.push(FaultyPart { location, excerpt })?)
    }
}

impl RunFault {
    /// Returns the exit status: 1 for a fault of a pattern or a definition, 2 for wrong options,
    /// and 3 if an allocation, reading or writing failed.
    pub fn status(&self) -> u8
        ensures { result ≡ fault_status self.now }
    {
        match self {
            RunFault::Pattern(_) => 1,
            RunFault::Usage(_) => 2,
            RunFault::Memory => 3,
            RunFault::Read(_) | RunFault::Write(_) => 3,
        }
    }
}

impl fmt::Display for FaultyPart {
    ghost output = { λ part. Some (part_text part) };

    fn fmt<W: fmt::Write>(&self, f: &mut fmt::Formatter<W>) -> fmt::Result {
        writeln!(f, "{}:", self.location)?;
        writeln!(f, "    {}", self.excerpt)
    }
}

fn write_parts<W: fmt::Write>(f: &mut fmt::Formatter<W>, parts: &[FaultyPart]) -> fmt::Result
    ensures { WritesOnOk W.write_str_gives f.old result (parts_text parts.now) f.new }
{
    let Some((first, more)) = parts.split_first() else {
        return Ok(());
    };
    write!(f, "  in {first}")?;
    'parts: for part in more {
        write!(f, "  and in {part}")?;
    }
    Ok(())
}

fn write_advice<W: fmt::Write>(f: &mut fmt::Formatter<W>, advice: &str) -> fmt::Result
    ensures { WritesOnOk W.write_str_gives f.old result (advice_text advice.now) f.new }
{
    if advice.is_empty() {
        return Ok(());
    }
    writeln!(f, "  try: {advice}")
}

impl fmt::Display for Report {
    ghost output = { λ report. Some (report_text report) };

    fn fmt<W: fmt::Write>(&self, f: &mut fmt::Formatter<W>) -> fmt::Result {
        writeln!(f, "groklog: {}", self.what)?;
        write_parts(f, &self.parts)?;
        write_advice(f, &self.advice)
    }
}

impl fmt::Display for RunFault {
    ghost output = { λ fault. Some (fault_text fault) };

    fn fmt<W: fmt::Write>(&self, f: &mut fmt::Formatter<W>) -> fmt::Result {
        match self {
            RunFault::Pattern(report)
            | RunFault::Usage(report)
            | RunFault::Read(report)
            | RunFault::Write(report) => { write!(f, "{report}") }
            RunFault::Memory => writeln!(f, "groklog: out of memory"),
        }
    }
}

impl From<AllocError> for RunFault {
    ghost from_gives = { λ _ fault. fault ≡ Memory };

    fn from(_error: AllocError) -> RunFault {
        // own error: an allocation failed.
        RunFault::Memory
    }
}

impl<T: Drop> From<AllocFailed<T>> for RunFault {
    ghost from_gives = { λ _ fault. fault ≡ Memory };

    fn from(_error: AllocFailed<T>) -> RunFault {
        // own error: an allocation failed.
        RunFault::Memory
    }
}

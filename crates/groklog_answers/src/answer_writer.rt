//! Writes the answer to a line, as the layout says.
ghost use Rattle.std.specs.Prelude.{◌≡◌, ℕ, List, [], ◌++◌, Err, IfOk, OnOk, OnErr, codes, true};
ghost use Rattle.groklog_answers.specs.Layouts.{layout_value};
ghost use Rattle.groklog_answers.specs.AnsweredTexts.{line_of};
ghost use Rattle.groklog_answers.specs.Objects.{answer_members};
ghost use Rattle.groklog_answers.specs.declared.layout.Failure.{Failure};
ghost use Rattle.groklog_answers.specs.LogAnswers.{answer_text, answer_to};

use crate::answered_line::{AnsweredLine, NumberedLine};
use crate::layout::{Failure, Layout, Lines, OutputFormat};
use crate::object::write_answer;
use crate::searched_lines::{Flow, FoundLine, LineTask};
use crate::searches::LineMatch;
use crate::{pairs, record};
use itoa::Buffer;
use std::alloc::{AllocError, Global};
use std::mem;

impl Layout<'_> {
    ghost use Rattle.groklog_answers.specs.Views.{outcome_of};

    /// Returns whether nothing is written of a line that has no fields but an object without members.
    fn has_no_members(&self) -> bool
        ensures { result ≡ true → (why : Failure) (n : ℕ) (line : List ℕ) → answer_members
            (line_of (layout_value self.now) (Err why) n line) ≡ [] }
    {
        self.before.is_empty() && self.after.is_empty() && !self.tags_failures
    }

    /// Returns whether an object without members is written for each line that has no fields.
    fn writes_empty_objects(&self) -> bool
        ensures { result ≡ true → (why : Failure) (n : ℕ) (line : List ℕ) → answer_text self.now.format
            (line_of (layout_value self.now) (Err why) n line) ≡ codes "{}\n" }
    {
        match self.format {
            OutputFormat::Json => self.has_no_members(),
            OutputFormat::Pairs | OutputFormat::Csv => false,
        }
    }

    /// Returns whether the answer to each line that has no fields is an object without members.
    fn answers_with_empty_objects(&self) -> bool
        ensures { result ≡ true → (why : Failure) (n : ℕ) (line : List ℕ)
            → answer_to (line_of (layout_value self.now) (Err why) n line) ≡ codes "{}\n" }
    {
        match self.lines {
            Lines::Matched => false,
            Lines::All | Lines::Unmatched => self.writes_empty_objects(),
        }
    }

    /// Appends the answer to a line that has this match, or that has no fields for this reason. If only
    /// other lines are answered, appends nothing.
    #[inline(never)]
    #[tactic(auto, using(crate::proofs::NumeralsAreJson::numeral_is_decimal))]
    fn append_answer(
        &self,
        alloc: Global,
        answer: &mut Vec<u8>,
        found: Result<LineMatch<'_>, Failure>,
        line: NumberedLine<'_>,
    ) -> Result<(), AllocError>
        ensures { OnOk result (answer.new.items ≡ answer.old.items ++ answer_to (line_of
            (layout_value self.now) (outcome_of found.entry) line.entry.number line.entry.text.now)) }
    {
        let mut digits = Buffer::new();
        let answered = AnsweredLine {
            layout: self,
            found,
            line,
            digits: digits.format(line.number),
        };
        answered.append_to(alloc, answer)
    }
}

impl AnsweredLine<'_> {
    ghost use Rattle.groklog_answers.specs.Views.{answered_text};

    /// Appends the answer to the line. If only other lines are answered, appends nothing.
    fn append_to(&self, alloc: Global, answer: &mut Vec<u8>) -> Result<(), AllocError>
        ensures { OnOk result (answer.new.items ≡ answer.old.items ++ answer_to (answered_text self.now)) }
    {
        if !self.is_answered() {
            return Ok(());
        }
        match self.layout.format {
            OutputFormat::Pairs => pairs::append_answer(answer, self),
            OutputFormat::Csv => record::append_answer(alloc, answer, self),
            OutputFormat::Json => {
                let text = mem::replace(answer, Vec::new(alloc));
                *answer = write_answer(alloc, text, self)?;
                Ok(answer.push(b'\n')?)
            }
        }
    }
}

/// Writes the answers to lines.
#[derive(Drop)]
pub struct AnswerWriter<'p> {
    pub alloc: Global,
    pub layout: Layout<'p>,
    /// Whether the answer to each line that has no fields is `{}`. It is found out once for a file, because on lines
    /// that don't match the writer would take as long as the search.
    are_unmatched_empty: bool,
    ghost empty: { are_unmatched_empty ≡ true → (why : Failure) (n : ℕ) (line : List ℕ)
        → answer_to (line_of (layout_value layout) (Err why) n line) ≡ codes "{}\n" },
    /// The buffer for one answer. Most answers take several steps, and are written here first: if a
    /// step fails, nothing was appended to the text.
    buffer: Vec<u8>,
}

impl<'p> AnswerWriter<'p> {
    ghost use Rattle.groklog_answers.specs.Views.{outcome_of};

    /// Makes a writer of answers in this layout.
    pub fn new(alloc: Global, layout: Layout<'p>) -> AnswerWriter<'p>
        ensures { result.layout ≡ layout.entry }
    {
        AnswerWriter {
            alloc,
            layout,
            are_unmatched_empty: layout.answers_with_empty_objects(),
            buffer: Vec::new(alloc),
        }
    }

    /// Appends the answer to a line that has this match, or that has no fields for this reason. If only
    /// other lines are answered, or if an allocation fails, appends nothing.
    #[inline(always)]
    fn append_answer(
        &mut self,
        text: &mut Vec<u8>,
        found: Result<LineMatch<'_>, Failure>,
        line: NumberedLine<'_>,
    ) -> Result<(), AllocError>
        ensures ok { OnOk result (text.new.items ≡ text.old.items ++ answer_to (line_of
            (layout_value self.old.layout) (outcome_of found.entry) line.entry.number line.entry.text.now)) }
        ensures memory { OnErr result (text.new.items ≡ text.old.items) }
        ensures layout { self.new.layout ≡ self.old.layout }
    {
        if let Err(_) = found
            && self.are_unmatched_empty
        {
            return text.extend_from_slice(b"{}\n");
        }
        self.buffer.clear();
        self.layout
            .append_answer(self.alloc, &mut self.buffer, found, line)?;
        text.extend_from_slice(&self.buffer)
    }
}

impl<'p> LineTask<'p> for AnswerWriter<'p> {
    ghost use Rattle.groklog_answers.specs.Layouts.{layout_value, in_file};
    ghost use Rattle.groklog_answers.specs.AnsweredTexts.{line_of};
    ghost use Rattle.groklog_answers.specs.LogAnswers.{answer_to};

    ghost answer = { λ writer found n line. answer_to (line_of (layout_value writer.layout) found n line) };

    ghost begins = { λ writer name later. layout_value later.layout ≡ in_file name (layout_value writer.layout) };

    fn begin_file(&mut self, name: &'p str) {
        self.layout.file_name = name;
        self.are_unmatched_empty = self.layout.answers_with_empty_objects();
    }

    fn needs_broken(&self) -> bool {
        match self.layout.lines {
            Lines::Matched => false,
            Lines::All | Lines::Unmatched => !self.are_unmatched_empty,
        }
    }

    #[inline(always)]
    fn take(&mut self, line: FoundLine<'_>, out: &mut Vec<u8>) -> Result<Flow, AllocError> {
        let FoundLine { number, text, .. } = line;
        self.append_answer(out, line.found, NumberedLine { number, text })?;
        Ok(Flow::More)
    }
}

//! Handles lines after reading each in the form that the options ask for.
ghost use Rattle.std.specs.Prelude.{◌≡◌, ◌+◌, ◌<◌, ◌++◌, ◌∷◌, [], if◌then◌else◌, IsErr, OnOk, OnErr};
ghost use Rattle.std.specs.Str.Lossy.{utf8_lossy};
ghost use Rattle.grok_lines.specs.Streams.{GoesOn};

use crate::line_form::{Encoding, LineForm, Signs};
use grok_lines::LineHandler;
use std::alloc::{AllocError, Global};

/// Reads each line of an input in the form that the options ask for (`--crlf`, `--lossy`), has it
/// handled by `answers`, and remembers what the lines show about how their input was written.
#[derive(Drop)]
pub struct FormedAnswers<A> {
    alloc: Global,
    /// Handles the lines as they are read.
    pub answers: A,
    pub form: LineForm,
    /// How many lines of this input were handled.
    pub line_count: u64,
    pub signs: Signs,
}

/// The signs of an input before its first line was read.
const NO_SIGNS: Signs = Signs {
    encoding: Encoding::Other,
    first_broken: None,
};

impl<A> FormedAnswers<A> {
    /// Makes a `FormedAnswers` at the beginning of an input.
    pub fn new(alloc: Global, answers: A, form: LineForm) -> FormedAnswers<A>
        ensures answers { result.answers ≡ answers }
        ensures form { result.form ≡ form }
        ensures count { result.line_count ≡ 0 }
    {
        FormedAnswers {
            alloc,
            answers,
            form,
            line_count: 0,
            signs: NO_SIGNS,
        }
    }

    /// Returns the handler of the lines.
    pub fn into_answers(self) -> A
        ensures { result ≡ self.answers }
    {
        self.answers
    }

    /// Begins the next input: the next line is its first one.
    pub fn begin_input(&mut self)
        ensures answers { self.new.answers ≡ self.old.answers }
        ensures form { self.new.form ≡ self.old.form }
        ensures count { self.new.line_count ≡ 0 }
    {
        self.line_count = 0;
        self.signs = NO_SIGNS;
    }

    /// Remembers what the next line shows about its input, if it is the first one.
    #[inline(always)]
    fn note_first(&mut self, line: &[u8])
        ensures answers { self.new.answers ≡ self.old.answers }
        ensures form { self.new.form ≡ self.old.form }
        ensures count { self.new.line_count ≡ self.old.line_count }
    {
        if self.line_count == 0 {
            self.signs = Signs::of_first_line(line);
        }
    }
}

fn count_after(count: u64) -> Result<u64, AllocError>
    ensures ok { count < u64.MAX → result ≡ Ok (count + 1) }
    ensures err { count ≡ u64.MAX → IsErr result }
{
    match count.checked_add(1) {
        Some(after) => Ok(after),
        // own error: the count is `u64::MAX`. No run reads so many lines.
        None => Err(AllocError),
    }
}

impl<A: LineHandler> FormedAnswers<A> {
    /// Handles a line that isn't UTF-8, and whose ends were trimmed already.
    #[tactic(auto, using(crate::proofs::LinesAreFormed::text_is_utf8))]
    fn handle_trimmed(&mut self, text: &mut Vec<u8>, line: &[u8]) -> Result<(), AllocError>
        ensures ok { OnOk result (text.new.items ≡ text.old.items ++ A.first_answers self.old.answers
            ((if self.old.form.is_lossy then utf8_lossy line.now else line.now) ∷ [])) }
        ensures memory { OnErr result (text.new.items ≡ text.old.items) }
        ensures next { OnOk result (GoesOn A.answers A.first_answers A.is_next self.old.answers
            ((if self.old.form.is_lossy then utf8_lossy line.now else line.now) ∷ []) self.new.answers) }
        ensures same { OnErr result (GoesOn A.answers A.first_answers A.is_next self.old.answers
            [] self.new.answers) }
        ensures form { self.new.form ≡ self.old.form }
        ensures count { self.new.line_count ≡ self.old.line_count }
    {
        if self.form.is_lossy {
            let line = String::from_utf8_lossy(self.alloc, line)?;
            self.answers.handle_str(text, line.as_str())
        } else {
            self.answers.handle_line(text, line)
        }
    }
}

impl<A: LineHandler> LineHandler for FormedAnswers<A> {
    ghost use Rattle.groklog_input.specs.LineForms.{formed_lines};

    ghost answers = { λ lines more. A.answers lines.answers (formed_lines lines.form lines.line_count more) };

    ghost first_answers = { λ lines more. A.first_answers lines.answers
        (formed_lines lines.form lines.line_count more) };

    ghost is_next = { λ lines more later. A.is_next lines.answers
        (formed_lines lines.form lines.line_count more) later.answers };

    #[inline(always)]
    #[tactic(auto, using(crate::proofs::LinesAreFormed::text_is_utf8))]
    fn handle_str(&mut self, text: &mut Vec<u8>, line: &str) -> Result<(), AllocError> {
        let line_count = count_after(self.line_count)?;
        self.note_first(line.as_bytes());
        let line = self.form.trim(self.line_count == 0, line);
        self.answers.handle_str(text, line)?;
        self.line_count = line_count;
        Ok(())
    }

    #[inline(never)]
    fn handle_broken(&mut self, text: &mut Vec<u8>, line: &[u8]) -> Result<(), AllocError> {
        let line_count = count_after(self.line_count)?;
        self.note_first(line);
        self.signs.first_broken = self.signs.first_broken.or(Some(line_count));
        let line = self.form.trim_bytes(self.line_count == 0, line);
        self.handle_trimmed(text, line)?;
        self.line_count = line_count;
        Ok(())
    }

    #[inline(always)]
    fn end_input(&mut self, text: &mut Vec<u8>) -> Result<(), AllocError> {
        self.answers.end_input(text)
    }

    ghost none_first = { λ lines. A.none_first lines.answers };
}

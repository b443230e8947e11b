//! Handlers of lines: what is written for a line may depend on the lines before it, and may wait for those after it.
ghost use Rattle.std.specs.Prelude.{◌≡◌, ◌++◌, ◌∷◌, [], true, false, length, OnOk, OnErr};
ghost use Rattle.std.proofs.Common.{refl};
ghost use Rattle.std.specs.Str.{is_utf8};
ghost use Rattle.grok_lines.specs.Streams.{answers_of, AreAnswersAfter, GoesOn};

use crate::line_answers::{LineAnswers, utf8_text};
use std::alloc::AllocError;

/// Handles the lines of an input, one after another, and then its end.
///
/// Each [`LineAnswers`] is a handler, which writes the answer to each line at once.
///
/// [`handle_lines`](crate::handle_lines) decides whether a line is UTF-8, and calls `handle_str` or `handle_broken`.
pub trait LineHandler {
    ghost use Rattle.std.specs.Prelude.{ℕ, List};

    // `answers self lines` is what is written for these lines if the input ends after them.
    ghost answers: { Self → List (List ℕ) → List ℕ };

    // `first_answers self lines` is what is written by the time that these lines were handled, whatever follows them.
    ghost first_answers: { Self → List (List ℕ) → List ℕ };

    // `is_next self lines later` says that `later` handles the next input, after one that had these lines.
    ghost is_next: { Self → List (List ℕ) → Self → Type 0 };

    /// Handles the next line, which is `line`. Appends to `text` what is to be written now. If an allocation fails,
    /// appends nothing, and doesn't count the line as handled.
    fn handle_str(&mut self, text: &mut Vec<u8>, line: &str) -> Result<(), AllocError>
        requires { is_utf8 line.now ≡ true }
        ensures ok { OnOk result (text.new.items ≡ text.old.items ++ first_answers self.old (line.now ∷ [])) }
        ensures memory { OnErr result (text.new.items ≡ text.old.items) }
        ensures next { OnOk result (GoesOn answers first_answers is_next self.old (line.now ∷ []) self.new) }
        ensures same { OnErr result (GoesOn answers first_answers is_next self.old [] self.new) };

    /// Does the same as `handle_str`, for a line that isn't UTF-8.
    fn handle_broken(&mut self, text: &mut Vec<u8>, line: &[u8]) -> Result<(), AllocError>
        requires { is_utf8 line.now ≡ false }
        ensures ok { OnOk result (text.new.items ≡ text.old.items ++ first_answers self.old (line.now ∷ [])) }
        ensures memory { OnErr result (text.new.items ≡ text.old.items) }
        ensures next { OnOk result (GoesOn answers first_answers is_next self.old (line.now ∷ []) self.new) }
        ensures same { OnErr result (GoesOn answers first_answers is_next self.old [] self.new) };

    /// Handles the end of the input. Appends to `text` what is still to be written for its lines. If an allocation
    /// fails, appends nothing, and the input hasn't ended.
    fn end_input(&mut self, text: &mut Vec<u8>) -> Result<(), AllocError>
        ensures ok { OnOk result (text.new.items ≡ text.old.items ++ answers self.old []) }
        ensures memory { OnErr result (text.new.items ≡ text.old.items) }
        ensures next { OnOk result (is_next self.old [] self.new) }
        ensures same { OnErr result (GoesOn answers first_answers is_next self.old [] self.new) };

    /// Does the same as `handle_str`, for any line.
    #[inline(never)]
    final fn handle_line(&mut self, text: &mut Vec<u8>, line: &[u8]) -> Result<(), AllocError>
        ensures ok { OnOk result (text.new.items ≡ text.old.items ++ first_answers self.old (line.now ∷ [])) }
        ensures memory { OnErr result (text.new.items ≡ text.old.items) }
        ensures next { OnOk result (GoesOn answers first_answers is_next self.old (line.now ∷ []) self.new) }
        ensures same { OnErr result (GoesOn answers first_answers is_next self.old [] self.new) }
    {
        match utf8_text(line) {
            Some(line) => self.handle_str(text, line),
            None => self.handle_broken(text, line),
        }
    }

    // Before the first line nothing is written.
    ghost none_first: { (handler : Self) → first_answers handler [] ≡ [] };
}

impl<A: LineAnswers> LineHandler for A {
    ghost answers = { λ handler. answers_of (A.answer handler) };

    ghost first_answers = { λ handler. answers_of (A.answer handler) };

    ghost is_next = { λ handler lines later. AreAnswersAfter (length lines) (A.answer handler) (A.answer later) };

    #[inline(always)]
    fn handle_str(&mut self, text: &mut Vec<u8>, line: &str) -> Result<(), AllocError> {
        self.answer_str(text, line)
    }

    #[inline(always)]
    fn handle_broken(&mut self, text: &mut Vec<u8>, line: &[u8]) -> Result<(), AllocError> {
        self.answer_broken(text, line)
    }

    #[inline(always)]
    fn end_input(&mut self, text: &mut Vec<u8>) -> Result<(), AllocError> {
        let _ = text;
        Ok(())
    }

    ghost none_first = { λ handler. refl };
}

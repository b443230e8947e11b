//! Answers to lines, each of which depends on its line and on how many lines came before.
ghost use Rattle.std.specs.Prelude.{◌≡◌, ◌++◌, true, false, MatchOption, OnOk, OnErr};
ghost use Rattle.std.specs.Str.{is_utf8};
ghost use Rattle.grok_lines.specs.Streams.{AreAnswersAfter};

use simdutf8::basic::from_utf8;
use std::alloc::AllocError;

/// Answers lines, one after another. An answer may depend on how many lines came before.
///
/// [`answer_lines`](crate::answer_lines) decides whether a line is UTF-8, and calls `answer_str` or `answer_broken`.
pub trait LineAnswers {
    ghost use Rattle.std.specs.Prelude.{ℕ, List};

    // `answer self n line` is the answer to `line` if it is the n-th line from now on, counted from 0.
    ghost answer: { Self → ℕ → List ℕ → List ℕ };

    /// Appends to `text` the answer to the next line, which is `line`. If an allocation fails, appends nothing, and
    /// doesn't count the line as answered.
    fn answer_str(&mut self, text: &mut Vec<u8>, line: &str) -> Result<(), AllocError>
        requires { is_utf8 line.now ≡ true }
        ensures ok { OnOk result (text.new.items ≡ text.old.items ++ answer self.old 0 line.now) }
        ensures memory { OnErr result (text.new.items ≡ text.old.items) }
        ensures next { OnOk result (AreAnswersAfter 1 (answer self.old) (answer self.new)) }
        ensures same { OnErr result (answer self.new ≡ answer self.old) };

    /// Does the same as `answer_str`, for a line that isn't UTF-8.
    fn answer_broken(&mut self, text: &mut Vec<u8>, line: &[u8]) -> Result<(), AllocError>
        requires { is_utf8 line.now ≡ false }
        ensures ok { OnOk result (text.new.items ≡ text.old.items ++ answer self.old 0 line.now) }
        ensures memory { OnErr result (text.new.items ≡ text.old.items) }
        ensures next { OnOk result (AreAnswersAfter 1 (answer self.old) (answer self.new)) }
        ensures same { OnErr result (answer self.new ≡ answer self.old) };

    /// Does the same as `answer_str`, for any line.
    #[inline(never)]
    final fn answer_line(&mut self, text: &mut Vec<u8>, line: &[u8]) -> Result<(), AllocError>
        ensures ok { OnOk result (text.new.items ≡ text.old.items ++ answer self.old 0 line.now) }
        ensures memory { OnErr result (text.new.items ≡ text.old.items) }
        ensures next { OnOk result (AreAnswersAfter 1 (answer self.old) (answer self.new)) }
        ensures same { OnErr result (answer self.new ≡ answer self.old) }
    {
        match utf8_text(line) {
            Some(line) => self.answer_str(text, line),
            None => self.answer_broken(text, line),
        }
    }
}

/// Returns the bytes as a text, or `None` if they aren't UTF-8.
#[tactic(auto, using(crate::proofs::Utf8IsDecided::text_of_line, crate::proofs::Utf8IsDecided::no_text_of_line))]
pub fn utf8_text(bytes: &[u8]) -> Option<&str>
    ensures { MatchOption result (is_utf8 bytes.now ≡ false)
        (λ text. (text.now ≡ bytes.now) × (is_utf8 bytes.now ≡ true)) }
{
    match from_utf8(bytes) {
        Ok(text) => Some(text),
        Err(_) => None,
    }
}

//! Texts that patterns find as they are.
ghost use Rattle.std.specs.Prelude.{IfOk, string_bytes};
ghost use Rattle.regex_syntax.specs.Verdict.{ReadsAsText};

use regex_syntax::escape;
use std::alloc::{AllocError, Global};

/// Returns a text as it is written in a pattern that finds this very text.
pub fn literal(alloc: Global, text: &str) -> Result<String, AllocError>
    ensures { IfOk result (λ literal. ReadsAsText (string_bytes literal) text.now) }
{
    escape(alloc, text)
}

//! Compiles patterns that may have faults.
ghost use Rattle.std.specs.Prelude.{true, IfOk, IfSome};
ghost use Rattle.groklog_definitions.specs.Compiled.{IsCompiledFrom};
ghost use Rattle.log_samples.specs.Sizes.{IsWithin};

use grok::Pattern;
use groklog_definitions::{CompileRefusal, Library, compile};
use std::alloc::AllocError;

/// Compiles a pattern in which placeholders with an alias capture. Returns `None` if the pattern or
/// a definition that it uses has a fault, or if its expanded text would be too large. That is known before any of the text
/// is written.
pub fn compile_valid(library: &Library<'_>, text: &str) -> Result<Option<Pattern>, AllocError>
    ensures small { IfOk result (λ found. IfSome found (λ pattern. IsWithin
        library.now.limit.bytes library.now.limit.groups library.now.grok text.now)) }
    ensures pattern { IfOk result (λ found. IfSome found (IsCompiledFrom library.now.grok true text.now)) }
{
    match compile(library, text, true) {
        Ok(pattern) => Ok(Some(pattern)),
        Err(CompileRefusal::TooLarge | CompileRefusal::Invalid) => Ok(None),
        // own error: compiling reported that an allocation failed.
        Err(CompileRefusal::Memory) => Err(AllocError),
    }
}

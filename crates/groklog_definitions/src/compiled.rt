//! Compiles patterns, as far as the limit of a library allows.
ghost use Rattle.std.specs.Prelude.{◌≡◌, IfOk, IfErr, OnOk};
ghost use Rattle.groklog_definitions.specs.Compiled.{IsCompiledFrom, IsRefusedText, IsTooLarge, IsTooLargeOrNot, IsRefusal};
ghost use Rattle.groklog_definitions.specs.declared.compiled.CompileRefusal.TheVariants.{Memory};

use crate::library::Library;
use grok::{Error, Pattern};
use std::alloc::AllocError;

/// Why a pattern isn't compiled.
#[derive(Clone, Copy)]
pub enum CompileRefusal {
    /// Its expanded text is larger than the library takes.
    TooLarge,
    /// It is empty or has a structural fault, or the engine refuses its expanded text.
    Invalid,
    /// An allocation failed.
    Memory,
}

impl From<AllocError> for CompileRefusal {
    ghost from_gives = { λ _ refusal. refusal ≡ Memory };

    fn from(_error: AllocError) -> Self {
        // own error: an allocation failed.
        CompileRefusal::Memory
    }
}

#[tactic(auto, using(crate::proofs::MeasuresDecide::carried))]
fn is_too_large(
    library: &Library<'_>,
    text: &str,
    with_alias_only: bool,
) -> Result<bool, AllocError>
    ensures { IfOk result (IsTooLargeOrNot library.now.grok with_alias_only library.now.limit text.now) }
{
    let measure = library.grok.measure(text, with_alias_only)?;
    Ok(library.limit.is_past(measure))
}

/// Compiles a pattern, unless its expanded text is larger than the library takes. That is known before any
/// of the text is written.
///
/// # Errors
///
/// Returns a refusal if the pattern can't be compiled or is too large, or if an allocation fails.
pub fn compile(
    library: &Library<'_>,
    text: &str,
    with_alias_only: bool,
) -> Result<Pattern, CompileRefusal>
    ensures pattern { IfOk result (IsCompiledFrom library.now.grok with_alias_only text.now) }
    ensures limit { OnOk result (IsTooLarge library.now.grok with_alias_only library.now.limit text.now → ⊥) }
    ensures refusal { IfErr result (IsRefusal
        (IsTooLarge library.now.grok with_alias_only library.now.limit text.now)
        (IsRefusedText library.now.grok with_alias_only text.now)) }
{
    if is_too_large(library, text, with_alias_only)? {
        return Err(CompileRefusal::TooLarge);
    }
    let grok = &library.grok;
    match grok.compile(text, with_alias_only) {
        Ok(pattern) => Ok(pattern),
        // own error: the library reported that an allocation failed.
        Err(Error::Memory) => Err(CompileRefusal::Memory),
        Err(_) if grok.diagnose(text, with_alias_only)?.is_some() => Err(CompileRefusal::Invalid),
        // own error: nothing is wrong with this pattern, so compiling it failed because an
        // allocation did.
        Err(_) => Err(CompileRefusal::Memory),
    }
}

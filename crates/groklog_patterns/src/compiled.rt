//! Compiles the patterns of a run, and reports what is wrong with one.
ghost use Rattle.std.specs.Prelude.{◌≢◌, Any, IfOk, IfErr};
ghost use Rattle.std.specs.List.{AllZip};
ghost use Rattle.groklog_patterns.specs.Compiled.{IsRunPattern, IsRefused, IsCompileFault};

use crate::diagnosis::report_of;
use crate::expansions::too_large_report;
use grok::Pattern;
use groklog_definitions::{CompileRefusal, Library, PatternText, compile};
use groklog_reports::RunFault;
use std::alloc::{AllocError, Global};

/// A pattern of a run, with the text that it was compiled from.
#[derive(Drop)]
pub struct RunPattern {
    pub text: PatternText,
    pub pattern: Pattern,
}

fn fault_of(
    alloc: Global,
    library: &Library<'_>,
    text: &PatternText,
    refusal: CompileRefusal,
) -> Result<RunFault, AllocError>
    ensures { IfOk result (IsCompileFault (refusal ≢ CompileRefusal.Memory)) }
{
    Ok(match refusal {
        CompileRefusal::TooLarge => RunFault::Pattern(too_large_report(alloc, library, text)?),
        CompileRefusal::Invalid => RunFault::Pattern(report_of(alloc, library, text)?),
        // own error: compiling reported that an allocation failed.
        CompileRefusal::Memory => RunFault::Memory,
    })
}

#[tactic(auto, using(crate::proofs::FaultsOfPatterns::faults))]
fn compile_text(
    alloc: Global,
    library: &Library<'_>,
    text: PatternText,
) -> Result<RunPattern, RunFault>
    ensures pattern { IfOk result (IsRunPattern library.now.grok library.now.limit text) }
    ensures fault { IfErr result (IsCompileFault (IsRefused library.now.grok library.now.limit text)) }
{
    match compile(library, text.text.as_str(), text.with_alias_only) {
        Ok(pattern) => Ok(RunPattern { text, pattern }),
        Err(refusal) => Err(fault_of(alloc, library, &text, refusal)?),
    }
}

/// Compiles the patterns, in their order, unless their expanded texts are larger than the library takes.
///
/// # Errors
///
/// Returns the fault of the first pattern that can't be compiled, or an error if an allocation
/// fails.
pub fn compile_all(
    alloc: Global,
    library: &Library<'_>,
    texts: Vec<PatternText>,
) -> Result<Vec<RunPattern>, RunFault>
    ensures patterns { IfOk result (λ all. AllZip (IsRunPattern library.now.grok library.now.limit) texts.items all.items) }
    ensures fault { IfErr result (IsCompileFault (Any (IsRefused library.now.grok library.now.limit) texts.items)) }
{
    let mut all = Vec::new(alloc);
    'texts: for text in texts {
        all.push(compile_text(alloc, library, text)?)?;
    }
    Ok(all)
}

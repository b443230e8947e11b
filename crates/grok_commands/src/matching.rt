//! The runs of `match` and of `json`, which read lines.
ghost use Rattle.std.specs.Prelude.{◌≡◌, ◌≢◌, ◌⊎◌, IfOk, IfErr, OnOk, IsErrOf, flat_map};
ghost use Rattle.std.specs.Io.KnownBytes.{Keeps};
ghost use Rattle.grok.specs.Errors.{error_value, Memory as memory};
ghost use Rattle.grok.specs.declared.errors.error.Error.{Error};
ghost use Rattle.grok_commands.specs.Views.{request_view};
ghost use Rattle.grok_lines.specs.Traffic.{traffic};
ghost use Rattle.grok_lines.specs.Streams.{answers_of, HasAnsweredInput, HasAnsweredInputThen, HasAnsweredEnded, HasAnsweredSome, HasBegun};
ghost use Rattle.grok_commands.specs.LineTexts.{line_answer};
ghost use Rattle.grok_commands.specs.Runs.{answer_by, IsCompiled, IsRefused, HasPattern};

use crate::command::Request;
use crate::fault::ToolFault;
use crate::line_answers::{LineFormat, MatchAnswers};
use grok::{HasMatcher, Pattern, PatternOf};
use grok_lines::{LineAnswers, answer_lines};
use std::alloc::Global;
use std::io::{Read, Write};

fn pattern_fault(error: grok::Error) -> ToolFault
    ensures memory { error_value error ≡ memory → result ≡ ToolFault.Memory }
    ensures pattern { error_value error ≢ memory → result ≡ ToolFault.Pattern error }
{
    match error {
        // own error: `compile` reported that an allocation failed.
        grok::Error::Memory => ToolFault::Memory,
        error => ToolFault::Pattern(error),
    }
}

fn compile(alloc: Global, request: &Request<'_>) -> Result<Pattern, ToolFault>
    ensures ok { IfOk result (IsCompiled (request_view request.now)) }
    ensures pattern { (error : Error) → result ≡ Err (ToolFault.Pattern error)
        → IsRefused (request_view request.now) (error_value error) }
    ensures kind { IfErr result (λ fault. (fault ≢ ToolFault.Usage) × (fault ≢ ToolFault.Read)
        × (fault ≢ ToolFault.Write)) }
{
    let grok = request.definitions.library(alloc)?;
    grok.compile(request.pattern, request.alias_only)
        .map_err(pattern_fault)
}

fn answer_each<A: LineAnswers, R: Read, W: Write>(
    alloc: Global,
    answers: &mut A,
    input: &mut R,
    output: &mut W,
) -> Result<(), ToolFault>
    ensures ok { OnOk result (HasAnsweredInputThen (A.answer answers.old) (A.answer answers.new)
        (traffic (R.remaining input.old) (R.remaining input.new)
        (W.contents output.old) (W.contents output.new))) }
    ensures read { IsErrOf result ToolFault.Read → HasAnsweredEnded (answers_of (A.answer answers.old))
        (traffic (R.remaining input.old) (R.remaining input.new)
        (W.contents output.old) (W.contents output.new)) }
    ensures memory { IsErrOf result ToolFault.Memory → HasAnsweredSome (answers_of (A.answer answers.old))
        (traffic (R.remaining input.old) (R.remaining input.new)
        (W.contents output.old) (W.contents output.new)) }
    ensures write { IsErrOf result ToolFault.Write
        → HasBegun (HasAnsweredSome (answers_of (A.answer answers.old)))
        (traffic (R.remaining input.old) (R.remaining input.new)
        (W.contents output.old) (W.contents output.new)) }
    ensures kind { IfErr result
        (λ fault. (fault ≡ ToolFault.Memory) ⊎ ((fault ≡ ToolFault.Read)
        ⊎ (fault ≡ ToolFault.Write))) }
{
    Ok(answer_lines(alloc, answers, input, output)?)
}

fn answer_by_pattern<'p, E: HasMatcher<'p>, R: Read, W: Write>(
    alloc: Global,
    format: LineFormat,
    pattern: &'p PatternOf<E>,
    input: &mut R,
    output: &mut W,
) -> Result<(), ToolFault>
    ensures ok { OnOk result (HasAnsweredInput (flat_map (line_answer format (E.finds pattern.now.engine) pattern.now.keys))
        (traffic (R.remaining input.old) (R.remaining input.new)
        (W.contents output.old) (W.contents output.new))) }
    ensures memory { IsErrOf result ToolFault.Memory
        → (Keeps (R.remaining input.old) (R.remaining input.new)
        × Keeps (W.contents output.old) (W.contents output.new))
        ⊎ HasAnsweredSome (flat_map (line_answer format (E.finds pattern.now.engine) pattern.now.keys))
        (traffic (R.remaining input.old) (R.remaining input.new)
        (W.contents output.old) (W.contents output.new)) }
    ensures read { IsErrOf result ToolFault.Read
        → HasAnsweredEnded (flat_map (line_answer format (E.finds pattern.now.engine) pattern.now.keys))
        (traffic (R.remaining input.old) (R.remaining input.new)
        (W.contents output.old) (W.contents output.new)) }
    ensures write { IsErrOf result ToolFault.Write → HasBegun
        (HasAnsweredSome (flat_map (line_answer format (E.finds pattern.now.engine) pattern.now.keys)))
        (traffic (R.remaining input.old) (R.remaining input.new)
        (W.contents output.old) (W.contents output.new)) }
    ensures kind { IfErr result
        (λ fault. (fault ≡ ToolFault.Memory) ⊎ ((fault ≡ ToolFault.Read)
        ⊎ (fault ≡ ToolFault.Write))) }
{
    let mut answers = MatchAnswers {
        alloc,
        format,
        matcher: pattern.matcher()?,
        pairs: Vec::new(alloc),
    };
    answer_each(alloc, &mut answers, input, output)
}

/// Matches each line of the input against the pattern of a request, and sends the answers.
pub fn answer_input<R: Read, W: Write>(
    alloc: Global,
    format: LineFormat,
    request: &Request<'_>,
    input: &mut R,
    output: &mut W,
) -> Result<(), ToolFault>
    ensures ok { OnOk result (HasPattern (request_view request.now) (λ pattern.
        HasAnsweredInput (flat_map (answer_by format pattern)) (traffic (R.remaining input.old)
        (R.remaining input.new) (W.contents output.old) (W.contents output.new)))) }
    ensures pattern { (error : Error) → result ≡ Err (ToolFault.Pattern error)
        → IsRefused (request_view request.now) (error_value error)
        × Keeps (R.remaining input.old) (R.remaining input.new)
        × Keeps (W.contents output.old) (W.contents output.new) }
    ensures memory { IsErrOf result ToolFault.Memory
        → (Keeps (R.remaining input.old) (R.remaining input.new)
        × Keeps (W.contents output.old) (W.contents output.new))
        ⊎ HasPattern (request_view request.now) (λ pattern.
        HasAnsweredSome (flat_map (answer_by format pattern)) (traffic (R.remaining input.old)
        (R.remaining input.new) (W.contents output.old) (W.contents output.new))) }
    ensures read { IsErrOf result ToolFault.Read
        → HasPattern (request_view request.now) (λ pattern.
        HasAnsweredEnded (flat_map (answer_by format pattern)) (traffic (R.remaining input.old)
        (R.remaining input.new) (W.contents output.old) (W.contents output.new))) }
    ensures write { IsErrOf result ToolFault.Write
        → HasPattern (request_view request.now) (λ pattern.
        HasBegun (HasAnsweredSome (flat_map (answer_by format pattern))) (traffic (R.remaining input.old)
        (R.remaining input.new) (W.contents output.old) (W.contents output.new))) }
    ensures usage { result ≢ Err ToolFault.Usage }
{
    let pattern = compile(alloc, request)?;
    answer_by_pattern(alloc, format, &pattern, input, output)
}

//! The answer of `measure`.
ghost use Rattle.std.specs.Prelude.{◌≡◌, ◌≢◌, ◌++◌, Some, None, codes, OnOk, IfOk, IfErr, IfSome, IfNone, IsErrOf, string_bytes, List, ℕ};
ghost use Rattle.std.specs.Io.KnownBytes.{Appends, Keeps};
ghost use Rattle.grok.specs.Errors.{error_value};
ghost use Rattle.grok.specs.Items.{fault_view};
ghost use Rattle.grok.specs.Measured.{Faulty, measure_view};
ghost use Rattle.grok_commands.specs.Views.{request_view};
ghost use Rattle.grok_commands.specs.SizeTexts.{text_of_size, measure_of, IsFaulty};
ghost use Rattle.grok.specs.declared.errors.error.Error.{Error};

use crate::command::Request;
use crate::fault::ToolFault;
use grok::{Fault, Measure};
use grok_lines::send;
use std::alloc::{AllocError, Global};
use std::io::Write;

/// Appends the size in `measure` to `text` and returns `None`. If `measure` is a fault, returns the
/// fault.
pub fn write_measure<'a>(
    text: &mut String,
    measure: Measure<'a>,
) -> Result<Option<Fault<'a>>, AllocError>
    ensures size { IfOk result
        (λ fault. IfNone fault (IfSome (text_of_size (measure_view measure.entry))
        (λ size. string_bytes text.new ≡ string_bytes text.old ++ size))) }
    ensures none { IfOk result
        (λ fault. IfNone fault (text_of_size (measure_view measure.entry) ≢ None)) }
    ensures fault { IfOk result
        (λ fault. IfSome fault (λ found. measure_view measure.entry ≡ Faulty (fault_view found))) }
{
    match measure {
        Measure::Fault(fault) => return Ok(Some(fault)),
        Measure::Size {
            length,
            groups,
            nesting,
        } => write!(text, "length {length} groups {groups} nesting {nesting}")?,
        Measure::TooLong => text.push_str("too long")?,
    }
    Ok(None)
}

/// Sends the size of the pattern's expanded text, with a line feed: its length in bytes, its number
/// of groups, and the greatest nesting in levels. If the length doesn't fit a `usize`, it sends
/// `too long`.
///
/// # Errors
///
/// - `Pattern` with the pattern's first structural fault: a malformed placeholder, a missing
///   definition, or nesting that is too deep. Nothing was written.
/// - `Memory` if an allocation fails. Nothing was written.
/// - `Write` if the output fails. The pattern has no fault then. It isn't stated how much was
///   written.
pub fn measure_pattern<W: Write>(
    alloc: Global,
    request: &Request<'_>,
    output: &mut W,
) -> Result<(), ToolFault>
    ensures ok { OnOk result ((text : List ℕ) × (text_of_size
        (measure_of (request_view request.now)) ≡ Some text)
        × Appends (W.contents output.old) (W.contents output.new) (text ++ codes "\n")) }
    ensures pattern { (error : Error) → result ≡ Err (ToolFault.Pattern error)
        → IsFaulty (measure_of (request_view request.now)) (error_value error)
        × Keeps (W.contents output.old) (W.contents output.new) }
    ensures memory { IsErrOf result ToolFault.Memory → Keeps (W.contents output.old)
        (W.contents output.new) }
    ensures write { IsErrOf result ToolFault.Write → text_of_size
        (measure_of (request_view request.now)) ≢ None }
    ensures kind { IfErr result (λ fault. (fault ≢ ToolFault.Usage) × (fault ≢ ToolFault.Read)) }
{
    let grok = request.definitions.library(alloc)?;
    let measure = grok.measure(request.pattern, request.alias_only)?;
    let mut text = String::new(alloc);
    if let Some(fault) = write_measure(&mut text, measure)? {
        return Err(ToolFault::Pattern(fault.to_error(alloc)?));
    }
    text.push('\n')?;
    Ok(send(&mut text.into_bytes(), output)?)
}

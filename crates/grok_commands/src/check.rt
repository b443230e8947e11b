//! The answers of `check`.
ghost use Rattle.std.specs.Prelude.{◌≡◌, ◌⊎◌, ℕ, List, length, map, OnOk, IfOk, IfErr, IsErrOf, string_bytes};
ghost use Rattle.std.specs.FinMap as finite;
ghost use Rattle.std.specs.Io.KnownBytes.{append_known};
ghost use Rattle.grok_lines.specs.Errors.{IsWriteError};
ghost use Rattle.grok_commands.specs.Answers.{HasAnswered, HasAnsweredFirst};
ghost use Rattle.grok.specs.Measured.{Measured, measure_view};
ghost use Rattle.grok_commands.specs.Library.{library_of};
ghost use Rattle.grok_commands.specs.Commands.{texts};
ghost use Rattle.grok_commands.specs.SizeTexts.{placeholder_of, measured_in, IsMeasuredText, IsMeasuredLine, IsCheckLine};

use crate::definitions::Definitions;
use crate::fault::ToolFault;
use crate::measure::write_measure;
use grok::{Grok, Measure};
use grok_lines::{LinesError, finish, hold};
use std::alloc::{AllocError, Global};
use std::io::Write;

fn measured_text(alloc: Global, measure: Measure<'_>) -> Result<String, AllocError>
    ensures { IfOk result
        (λ text. IsMeasuredText (measure_view measure.entry) (string_bytes text)) }
{
    let mut text = String::new(alloc);
    match write_measure(&mut text, measure)? {
        None => Ok(text),
        Some(fault) => fault.to_error(alloc)?.to_string(alloc),
    }
}

fn names_in<'a>(alloc: Global, grok: &'a Grok) -> Result<Vec<&'a str>, AllocError>
    ensures { IfOk result (λ names. texts names.items ≡ finite.keys grok.now) }
{
    grok.names().collect(alloc)
}

fn placeholders(alloc: Global, names: &[&str]) -> Result<Vec<String>, AllocError>
    ensures { IfOk result
        (λ patterns. map string_bytes patterns.items ≡ map placeholder_of (texts names.now)) }
{
    let mut patterns = Vec::new(alloc);
    'names: for name in names {
        let pattern = format!(in alloc; "%{{{name}}}")?;
        patterns.push(pattern)?;
    }
    Ok(patterns)
}

fn texts_in<'a>(alloc: Global, strings: &'a [String]) -> Result<Vec<&'a str>, AllocError>
    ensures { IfOk result (λ all. texts all.items ≡ map string_bytes strings.now) }
{
    let mut all = Vec::new(alloc);
    'strings: for string in strings {
        all.push(string.as_str())?;
    }
    Ok(all)
}

fn write_line(
    alloc: Global,
    line: &mut String,
    name: &str,
    measure: Measure<'_>,
) -> Result<(), AllocError>
    ensures { OnOk result (IsMeasuredLine (measure_view measure.entry) name.now
        (string_bytes line.new)) }
{
    let text = measured_text(alloc, measure)?;
    line.clear();
    write!(line, "{name}: {text}\n")
}

fn measures_of<'a>(
    alloc: Global,
    alias_only: bool,
    grok: &'a Grok,
    patterns: &'a [String],
) -> Result<Vec<Measure<'a>>, AllocError>
    ensures { IfOk result (λ measures. map measure_view measures.items
        ≡ map (measured_in grok.now alias_only) (map string_bytes patterns.now)) }
{
    let texts = texts_in(alloc, patterns)?;
    grok.measure_all(&texts, alias_only)
}

fn hold_lines<W: Write>(
    alloc: Global,
    names: &[&str],
    measures: &[Measure<'_>],
    held: &mut Vec<u8>,
    output: &mut W,
) -> Result<(), LinesError>
    requires { length measures.now ≡ length names.now }
    ensures ok { OnOk result ((sizes : List ℕ → Measured)
        → map measure_view measures.now ≡ map sizes (texts names.now)
        → HasAnswered (λ name. IsMeasuredLine (sizes name) name) (texts names.now)
        (append_known (W.contents output.old) held.old.items)
        (append_known (W.contents output.new) held.new.items)) }
    ensures memory { IsErrOf result LinesError.Memory → (sizes : List ℕ → Measured)
        → map measure_view measures.now ≡ map sizes (texts names.now)
        → HasAnsweredFirst (λ name. IsMeasuredLine (sizes name) name) (texts names.now)
        (append_known (W.contents output.old) held.old.items)
        (append_known (W.contents output.new) held.new.items) }
    ensures kind { IfErr result (λ error. (error ≡ LinesError.Memory) ⊎ IsWriteError error) }
{
    let mut line = String::new(alloc);
    'lines: for (index, name) in names.iter().enumerate() {
        write_line(alloc, &mut line, name, measures[index])?;
        hold(held, output, line.as_bytes())?;
    }
    Ok(())
}

fn hold_definitions<W: Write>(
    alloc: Global,
    alias_only: bool,
    definitions: &Definitions<'_>,
    held: &mut Vec<u8>,
    output: &mut W,
) -> Result<(), LinesError>
    ensures ok { OnOk result (HasAnswered (IsCheckLine (library_of definitions.now) alias_only)
        (finite.keys (library_of definitions.now))
        (append_known (W.contents output.old) held.old.items)
        (append_known (W.contents output.new) held.new.items)) }
    ensures memory { IsErrOf result LinesError.Memory → HasAnsweredFirst
        (IsCheckLine (library_of definitions.now) alias_only)
        (finite.keys (library_of definitions.now))
        (append_known (W.contents output.old) held.old.items)
        (append_known (W.contents output.new) held.new.items) }
    ensures kind { IfErr result (λ error. (error ≡ LinesError.Memory) ⊎ IsWriteError error) }
{
    let grok = definitions.library(alloc)?;
    let names = names_in(alloc, &grok)?;
    let patterns = placeholders(alloc, &names)?;
    let measures = measures_of(alloc, alias_only, &grok, &patterns)?;
    hold_lines(alloc, &names, &measures, held, output)
}

/// Sends a line for each definition, the default ones among them, in the byte order of the names:
/// the name, `: `, and what `measure` sends for `%{NAME}`, or the text of its error. A faulty
/// definition doesn't end the run.
///
/// # Errors
///
/// - `Memory` if an allocation fails. Some lines may have been sent: those of the first names, each
///   as a whole.
/// - `Write` if the output fails. It isn't stated how much was sent.
pub fn check_definitions<W: Write>(
    alloc: Global,
    alias_only: bool,
    definitions: &Definitions<'_>,
    output: &mut W,
) -> Result<(), ToolFault>
    ensures ok { OnOk result (HasAnswered (IsCheckLine (library_of definitions.now) alias_only)
        (finite.keys (library_of definitions.now))
        (W.contents output.old) (W.contents output.new)) }
    ensures memory { IsErrOf result ToolFault.Memory → HasAnsweredFirst
        (IsCheckLine (library_of definitions.now) alias_only)
        (finite.keys (library_of definitions.now))
        (W.contents output.old) (W.contents output.new) }
    ensures kind { IfErr result (λ fault. (fault ≡ ToolFault.Memory) ⊎ (fault ≡ ToolFault.Write)) }
{
    let mut held = Vec::new(alloc);
    let ran = hold_definitions(alloc, alias_only, definitions, &mut held, output);
    Ok(finish(ran, &mut held, output)?)
}

//! The answers of `split`.
ghost use Rattle.std.specs.Prelude.{◌≡◌, ◌⊎◌, OnOk, IfOk, IfErr, IsErrOf, string_bytes};
ghost use Rattle.std.specs.Io.KnownBytes.{append_known};
ghost use Rattle.grok_parser.specs.Pieces.{pieces};
ghost use Rattle.grok_parser.specs.Views.{piece_view};
ghost use Rattle.grok_lines.specs.Errors.{IsWriteError};
ghost use Rattle.grok_commands.specs.Answers.{HasAnswered, HasAnsweredFirst};
ghost use Rattle.grok_commands.specs.Split.{IsPieceLine};

use crate::fault::ToolFault;
use grok::parser::{GrokComponent, grok_split};
use grok_lines::{LinesError, finish, hold};
use std::alloc::{AllocError, Global};
use std::fmt::{self, Formatter};
use std::io::Write;

/// Uses the memory of `buffer` for the line.
fn line_of(mut buffer: String, piece: &GrokComponent<'_>) -> Result<String, AllocError>
    ensures { IfOk result (λ line. IsPieceLine (piece_view piece.now) (string_bytes line)) }
{
    buffer.clear();
    let mut f = Formatter::new(buffer);
    match fmt::Display::fmt(piece, &mut f) {
        Ok(()) => {
            let mut line = f.into_inner();
            line.push('\n')?;
            Ok(line)
        }
        // own error: only an allocation of the text can fail.
        Err(_) => Err(AllocError),
    }
}

fn hold_pieces<W: Write>(
    alloc: Global,
    pattern: &str,
    held: &mut Vec<u8>,
    output: &mut W,
) -> Result<(), LinesError>
    ensures ok { OnOk result (HasAnswered IsPieceLine (pieces pattern.now)
        (append_known (W.contents output.old) held.old.items)
        (append_known (W.contents output.new) held.new.items)) }
    ensures memory { IsErrOf result LinesError.Memory → HasAnsweredFirst IsPieceLine (pieces pattern.now)
        (append_known (W.contents output.old) held.old.items)
        (append_known (W.contents output.new) held.new.items) }
    ensures kind { IfErr result (λ error. (error ≡ LinesError.Memory) ⊎ IsWriteError error) }
{
    let mut line = String::new(alloc);
    'pieces: for piece in grok_split(pattern) {
        line = line_of(line, &piece)?;
        hold(held, output, line.as_bytes())?;
    }
    Ok(())
}

/// Sends the pieces of a pattern, each with a line feed.
///
/// # Errors
///
/// - `Memory` if an allocation fails. Some pieces may have been sent: the first ones, each as a
///   whole.
/// - `Write` if the output fails. It isn't stated how much was sent.
pub fn split<W: Write>(alloc: Global, pattern: &str, output: &mut W) -> Result<(), ToolFault>
    ensures ok { OnOk result (HasAnswered IsPieceLine (pieces pattern.now)
        (W.contents output.old) (W.contents output.new)) }
    ensures memory { IsErrOf result ToolFault.Memory → HasAnsweredFirst IsPieceLine (pieces pattern.now)
        (W.contents output.old) (W.contents output.new) }
    ensures kind { IfErr result (λ fault. (fault ≡ ToolFault.Memory) ⊎ (fault ≡ ToolFault.Write)) }
{
    let mut held = Vec::new(alloc);
    let ran = hold_pieces(alloc, pattern, &mut held, output);
    Ok(finish(ran, &mut held, output)?)
}

//! Sends answers. They are held back until they are long, and are sent before each read of the input
//! and before the run ends.
ghost use Rattle.std.specs.Prelude.{◌≡◌, ◌⊎◌, ◌++◌, [], OnOk, OnErr, IfErr, IsErrOf};
ghost use Rattle.std.specs.Io.KnownBytes.{Appends, Keeps, append_known};
ghost use Rattle.grok_lines.specs.Errors.{IsWriteError, UnlessWriteFailed};
ghost use Rattle.grok_lines.specs.Streams.{AppendsBeginning};

use crate::error::LinesError;
use std::io::{self, ErrorKind, Write};

/// Held answers are sent once they have this many bytes.
const HELD_SIZE: usize = 64 * 1024;

/// Does the same as `write_all` of `std`, with the same errors. Its contract doesn't state what was written if it
/// fails.
///
/// # Errors
///
/// If the output fails. It has then got a beginning of the bytes.
#[tactic(auto, using(crate::proofs::HeldBytesAreKept::nothing_written, crate::proofs::HeldBytesAreKept::written_on, crate::proofs::HeldBytesAreKept::written_still, crate::proofs::HeldBytesAreKept::written_all))]
fn write_bytes<W: Write>(output: &mut W, bytes: &[u8]) -> io::Result<()>
    ensures ok { OnOk result (Appends (W.contents output.old) (W.contents output.new) bytes.now) }
    ensures write { OnErr result (AppendsBeginning (W.contents output.old) (W.contents output.new)
        bytes.now) }
{
    let mut rest = bytes;
    // No run makes this many writes. The bound is there for the proof that the loop ends.
    'writes: for _ in 0..u64::MAX {
        if rest.is_empty() {
            return Ok(());
        }
        match output.write(rest) {
            Ok(0) => break,
            Ok(n) => rest = &rest[n..],
            Err(error) if error.kind() == ErrorKind::Interrupted => {}
            Err(error) => return Err(error),
        }
    }
    // own error: the writer takes no more bytes.
    Err(io::Error::new(ErrorKind::WriteZero, "failed to write whole buffer"))
}

/// Sends all held answers, and flushes the output.
///
/// # Errors
///
/// If the output fails. It has then got a beginning of the held answers.
#[tactic(auto, using(crate::proofs::HeldBytesAreKept::all_written))]
pub fn send<W: Write>(held: &mut Vec<u8>, output: &mut W) -> Result<(), LinesError>
    ensures bytes { OnOk result (Appends (W.contents output.old) (W.contents output.new)
        held.old.items) }
    ensures none_held { OnOk result (held.new.items ≡ []) }
    ensures write { OnErr result (AppendsBeginning (W.contents output.old) (W.contents output.new)
        held.old.items) }
    ensures kind { IfErr result IsWriteError }
{
    // own error: the writer reported an error.
    write_bytes(output, held).map_err(LinesError::Write)?;
    held.clear();
    // own error: the writer reported an error when it was flushed.
    output.flush().map_err(LinesError::Write)
}

/// Sends the held answers and flushes the output, if there are `HELD_SIZE` bytes of them or more.
///
/// # Errors
///
/// If the output fails.
#[inline(always)]
pub fn send_long<W: Write>(held: &mut Vec<u8>, output: &mut W) -> Result<(), LinesError>
    ensures ok { OnOk result (Keeps (append_known (W.contents output.old) held.old.items)
        (append_known (W.contents output.new) held.new.items)) }
    ensures write { OnErr result (AppendsBeginning (W.contents output.old) (W.contents output.new)
        held.old.items) }
    ensures kind { IfErr result IsWriteError }
{
    if held.len() < HELD_SIZE {
        return Ok(());
    }
    send(held, output)
}

/// Adds an answer to `held`, and then sends all held answers if there are `HELD_SIZE` bytes of them or more.
///
/// # Errors
///
/// - `Memory` if an allocation fails. The answer isn't held then.
/// - `Write` if the output fails.
pub fn hold<W: Write>(held: &mut Vec<u8>, output: &mut W, answer: &[u8]) -> Result<(), LinesError>
    ensures ok { OnOk result (Appends (append_known (W.contents output.old) held.old.items)
        (append_known (W.contents output.new) held.new.items) answer.now) }
    ensures memory { IsErrOf result LinesError.Memory
        → Keeps (append_known (W.contents output.old) held.old.items)
        (append_known (W.contents output.new) held.new.items) }
    ensures write { IfErr result (λ error. IsWriteError error
        → AppendsBeginning (W.contents output.old) (W.contents output.new)
        (held.old.items ++ answer.now)) }
    ensures kind { IfErr result (λ error. (error ≡ LinesError.Memory) ⊎ IsWriteError error) }
{
    held.extend_from_slice(answer)?;
    send_long(held, output)
}

/// Ends a run with the result `ran`: sends the held answers, also if the run failed, and returns
/// the same result. If the output has failed already, it sends nothing.
///
/// # Errors
///
/// The error of the run, or `Write` if the output fails.
#[tactic(auto, using(crate::proofs::InputsAreEnded::unless_any, crate::proofs::InputsAreEnded::keeps_same))]
pub fn finish<W: Write>(
    ran: Result<(), LinesError>,
    held: &mut Vec<u8>,
    output: &mut W,
) -> Result<(), LinesError>
    ensures bytes { UnlessWriteFailed result (Appends (W.contents output.old)
        (W.contents output.new) held.old.items) }
    ensures same { UnlessWriteFailed result (result ≡ ran) }
    ensures write { IfErr result (λ error. IsWriteError error → UnlessWriteFailed ran
        (AppendsBeginning (W.contents output.old) (W.contents output.new) held.old.items)) }
    ensures failed { IfErr ran (λ error. IsWriteError error
        → Keeps (W.contents output.old) (W.contents output.new)) }
{
    if !matches!(ran, Err(LinesError::Write(_))) {
        send(held, output)?;
    }
    ran
}

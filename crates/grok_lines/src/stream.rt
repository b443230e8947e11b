//! Reads lines and has each handled.
ghost use Rattle.std.specs.Prelude.{◌≡◌, ◌≢◌, ◌≤◌, ◌<◌, ◌++◌, ◌∷◌, [], ◌⊎◌, length, take, true, false, MatchOption, OnOk, OnErr, IfOk, IfErr, IfSome, IfNone, IsErrOf, vec_len, List, ℕ};
ghost use Rattle.std.specs.Str.{is_utf8};
ghost use Rattle.std.specs.IoError.{error_kind};
ghost use Rattle.std.specs.Io.KnownBytes.{Appends, Consumes, IsAtEnd, Keeps, append_known};
ghost use Rattle.grok_lines.specs.Lines.{IsLine, ended_lines_of, unended_of, last_line};
ghost use Rattle.grok_lines.specs.Traffic.{traffic};
ghost use Rattle.grok_lines.specs.Errors.{IsWriteError, UnlessWriteFailed};
ghost use Rattle.grok_lines.specs.Streams.{answers_of, AppendsBeginning, HasBegunLines, HasAnsweredInput, HasAnsweredInputThen, HasAnsweredInputAnd, HasAnsweredEnded, HasAnsweredEndedAnd, HasAnsweredSome, HasBegun, GoesOn};

use crate::error::LinesError;
use crate::handler::LineHandler;
use crate::line_answers::{LineAnswers, utf8_text};
use crate::output::{finish, send, send_long};
use memchr::{memchr, memchr_iter, memrchr};
use std::alloc::{AllocError, Global};
use std::io::{self, ErrorKind, Read, Write};

/// How many bytes are read at once.
const READ_SIZE: usize = 64 * 1024;

#[tactic(auto, using(crate::proofs::LineEndsAtLineFeed::line_none, crate::proofs::LineEndsAtLineFeed::line_cut))]
fn first_line(bytes: &[u8]) -> Option<(&[u8], &[u8])>
    ensures { MatchOption result (IsLine bytes.now)
        (λ parts. IsLine parts.0.now × (bytes.now ≡ parts.0.now ++ 10 ∷ parts.1.now)) }
{
    match memchr(b'\n', bytes) {
        None => None,
        Some(at) => Some((&bytes[..at], &bytes[at + 1..])),
    }
}

#[tactic(auto, using(crate::proofs::Utf8IsDecided::text_of_line))]
fn answer_ended<H: LineHandler, W: Write>(
    handler: &mut H,
    held: &mut Vec<u8>,
    output: &mut W,
    lines: &[u8],
) -> Result<(), LinesError>
    ensures ok { OnOk result (Appends (append_known (W.contents output.old) held.old.items)
        (append_known (W.contents output.new) held.new.items)
        (H.first_answers handler.old (ended_lines_of lines.now))) }
    ensures memory { IsErrOf result LinesError.Memory
        → HasBegunLines (H.first_answers handler.old)
        (ended_lines_of lines.now) (append_known (W.contents output.old) held.old.items)
        (append_known (W.contents output.new) held.new.items) }
    ensures write { IfErr result (λ error. IsWriteError error → (unsent : List ℕ)
        × HasBegunLines (H.first_answers handler.old) (ended_lines_of lines.now)
        (append_known (W.contents output.old) held.old.items)
        (append_known (W.contents output.new) unsent)) }
    ensures next { OnOk result (GoesOn H.answers H.first_answers H.is_next
        handler.old (ended_lines_of lines.now) handler.new) }
    ensures kind { IfErr result (λ error. (error ≡ LinesError.Memory) ⊎ IsWriteError error) }
{
    // If all the lines together are UTF-8, so is each of them.
    let utf8 = utf8_text(lines);
    let mut start = 0;
    'lines: for end in memchr_iter(b'\n', lines) {
        match utf8 {
            Some(utf8) => handler.handle_str(held, &utf8[start..end])?,
            None => handler.handle_line(held, &lines[start..end])?,
        }
        send_long(held, output)?;
        start = end + 1;
    }
    Ok(())
}

fn split_ended(bytes: &[u8]) -> (&[u8], &[u8])
    ensures ended { ended_lines_of result.0.now ≡ ended_lines_of bytes.now }
    ensures rest { result.1.now ≡ unended_of bytes.now }
{
    match memrchr(b'\n', bytes) {
        None => bytes.split_at(0),
        Some(at) => bytes.split_at(at + 1),
    }
}

/// `partial_line` has the bytes that were read since the last line feed, with which the next line begins,
/// both before the call and after it.
fn feed<H: LineHandler, W: Write>(
    handler: &mut H,
    held: &mut Vec<u8>,
    output: &mut W,
    partial_line: &mut Vec<u8>,
    block: &[u8],
) -> Result<(), LinesError>
    requires { IsLine partial_line.old.items }
    ensures ok { OnOk result (Appends (append_known (W.contents output.old) held.old.items)
        (append_known (W.contents output.new) held.new.items)
        (H.first_answers handler.old (ended_lines_of (partial_line.old.items ++ block.now)))) }
    ensures partial_line { OnOk result (partial_line.new.items
        ≡ unended_of (partial_line.old.items ++ block.now)) }
    ensures is_line { OnOk result (IsLine partial_line.new.items) }
    ensures memory { IsErrOf result LinesError.Memory
        → HasBegunLines (H.first_answers handler.old)
        (ended_lines_of (partial_line.old.items ++ block.now))
        (append_known (W.contents output.old) held.old.items)
        (append_known (W.contents output.new) held.new.items) }
    ensures write { IfErr result (λ error. IsWriteError error → (unsent : List ℕ)
        × HasBegunLines (H.first_answers handler.old) (ended_lines_of (partial_line.old.items ++ block.now))
        (append_known (W.contents output.old) held.old.items)
        (append_known (W.contents output.new) unsent)) }
    ensures next { OnOk result (GoesOn H.answers H.first_answers H.is_next
        handler.old (ended_lines_of (partial_line.old.items ++ block.now)) handler.new) }
    ensures kind { IfErr result (λ error. (error ≡ LinesError.Memory) ⊎ IsWriteError error) }
{
    let Some((line, after)) = first_line(block) else {
        partial_line.extend_from_slice(block)?;
        return Ok(());
    };
    partial_line.extend_from_slice(line)?;
    handler.handle_line(held, partial_line)?;
    partial_line.clear();
    let (ended, rest) = split_ended(after);
    answer_ended(handler, held, output, ended)?;
    partial_line.extend_from_slice(rest)?;
    Ok(())
}

fn answer_last<H: LineHandler>(
    handler: &mut H,
    held: &mut Vec<u8>,
    partial_line: &[u8],
) -> Result<(), AllocError>
    ensures ok { OnOk result (held.new.items ≡ held.old.items
        ++ H.first_answers handler.old (last_line partial_line.now)) }
    ensures memory { OnErr result (held.new.items ≡ held.old.items) }
    ensures next { OnOk result (GoesOn H.answers H.first_answers H.is_next
        handler.old (last_line partial_line.now) handler.new) }
{
    if partial_line.is_empty() {
        return Ok(());
    }
    handler.handle_line(held, partial_line)
}

fn end_of_read(read: io::Result<usize>) -> Result<Option<usize>, LinesError>
    ensures bytes { IfOk read (λ n. result ≡ Ok (Some n)) }
    ensures interrupted { IfErr read (λ error.
        error_kind error ≡ ErrorKind.Interrupted → result ≡ Ok None) }
    ensures failed { IfErr read (λ error.
        error_kind error ≢ ErrorKind.Interrupted → result ≡ Err LinesError.Read) }
{
    match read {
        Ok(n) => Ok(Some(n)),
        Err(error) if error.kind() == ErrorKind::Interrupted => Ok(None),
        // own error: the reader reported an error, and the read wasn't interrupted.
        Err(_) => Err(LinesError::Read),
    }
}

fn send_and_read<R: Read, W: Write>(
    held: &mut Vec<u8>,
    output: &mut W,
    input: &mut R,
    block: &mut [u8],
) -> Result<Option<usize>, LinesError>
    ensures sent { UnlessWriteFailed result (Appends (W.contents output.old)
        (W.contents output.new) held.old.items) }
    ensures none_held { UnlessWriteFailed result (held.new.items ≡ []) }
    ensures write { IfErr result (λ error. IsWriteError error
        → AppendsBeginning (W.contents output.old) (W.contents output.new) held.old.items) }
    ensures unread { IfErr result
        (λ error. IsWriteError error → R.remaining input.new ≡ R.remaining input.old) }
    ensures bound { IfOk result (λ read. IfSome read (λ n. n ≤ length block.new)) }
    ensures bytes { IfOk result (λ read. IfSome read (λ n.
        Consumes (R.remaining input.old) (R.remaining input.new) (take n block.new))) }
    ensures end { IfOk result (λ read. IfSome read (λ n.
        n ≡ 0 → 0 < length block.new → IsAtEnd (R.remaining input.new))) }
    ensures interrupted { IfOk result (λ read. IfNone read
        (Keeps (R.remaining input.old) (R.remaining input.new))) }
    ensures read { IsErrOf result LinesError.Read
        → Keeps (R.remaining input.old) (R.remaining input.new) }
    ensures length { length block.new ≡ length block.old }
    ensures kind { IfErr result (λ error. (error ≡ LinesError.Read) ⊎ IsWriteError error) }
{
    send(held, output)?;
    end_of_read(input.read(block))
}

/// A function of its own, so that no proof has to handle a list of 65,536 items.
fn zeros(alloc: Global, count: usize) -> Result<Vec<u8>, AllocError>
    ensures { IfOk result (λ zeros. vec_len zeros ≡ count) }
{
    vec![in alloc; 0u8; count]
}

fn answer_blocks<H: LineHandler, R: Read, W: Write>(
    alloc: Global,
    handler: &mut H,
    input: &mut R,
    held: &mut Vec<u8>,
    output: &mut W,
) -> Result<(), LinesError>
    ensures ok { OnOk result (HasAnsweredInputAnd (H.first_answers handler.old)
        (λ lines. GoesOn H.answers H.first_answers H.is_next handler.old lines handler.new)
        (traffic (R.remaining input.old) (R.remaining input.new)
        (append_known (W.contents output.old) held.old.items)
        (append_known (W.contents output.new) held.new.items))) }
    ensures read { IsErrOf result LinesError.Read → HasAnsweredEndedAnd (H.first_answers handler.old)
        (λ lines. GoesOn H.answers H.first_answers H.is_next handler.old lines handler.new)
        (traffic (R.remaining input.old) (R.remaining input.new)
        (append_known (W.contents output.old) held.old.items)
        (append_known (W.contents output.new) held.new.items)) }
    ensures memory { IsErrOf result LinesError.Memory → HasAnsweredSome (H.first_answers handler.old)
        (traffic (R.remaining input.old) (R.remaining input.new)
        (append_known (W.contents output.old) held.old.items)
        (append_known (W.contents output.new) held.new.items)) }
    ensures write { IfErr result (λ error. IsWriteError error → HasBegun
        (HasAnsweredSome (H.first_answers handler.old))
        (traffic (R.remaining input.old) (R.remaining input.new)
        (append_known (W.contents output.old) held.old.items) (W.contents output.new))) }
    ensures kind { IfErr result
        (λ error. (error ≡ LinesError.Memory) ⊎ ((error ≡ LinesError.Read)
        ⊎ IsWriteError error)) }
{
    let mut room = zeros(alloc, READ_SIZE)?;
    let block = room.as_mut_slice();
    let mut partial_line = Vec::new(alloc);
    // No run makes this many reads. The bound is there for the proof that the loop ends.
    'reads: for _ in 0..u64::MAX {
        match send_and_read(held, output, input, block)? {
            None => {}
            Some(0) => return Ok(answer_last(handler, held, &partial_line)?),
            Some(n) => feed(handler, held, output, &mut partial_line, &block[..n])?,
        }
    }
    // own error: there were 2^64 - 1 reads, which no run makes. The bound is there for the proof that the loop ends.
    Err(LinesError::Read)
}

/// Ends the input, if it was read to its end or as far as it can be read, as `ran` says.
fn end_after<H: LineHandler>(
    ran: Result<(), LinesError>,
    handler: &mut H,
    held: &mut Vec<u8>,
) -> Result<(), LinesError>
    ensures same { (result ≡ ran) ⊎ (result ≡ Err LinesError.Memory) }
    ensures ended { (OnOk result (held.new.items ≡ held.old.items ++ H.answers handler.old []))
        × (IsErrOf result LinesError.Read → held.new.items ≡ held.old.items ++ H.answers handler.old []) }
    ensures next { (OnOk result (H.is_next handler.old [] handler.new))
        × (IsErrOf result LinesError.Read → H.is_next handler.old [] handler.new) }
    ensures memory { IsErrOf result LinesError.Memory → held.new.items ≡ held.old.items }
    ensures write { IfErr ran (λ error. IsWriteError error → result ≡ ran) }
{
    if matches!(ran, Ok(()) | Err(LinesError::Read)) {
        handler.end_input(held)?;
    }
    ran
}

/// Handles each line of the input and then its end. What is written for what was read is sent before more is read.
///
/// If a read fails, the input ends before the line that it cuts.
///
/// # Errors
///
/// - `Memory` if an allocation fails.
/// - `Read` if the input fails.
/// - `Write` if the output fails. It has then got a beginning of what was to be written for the lines that were read.
pub fn handle_lines<H: LineHandler, R: Read, W: Write>(
    alloc: Global,
    handler: &mut H,
    input: &mut R,
    output: &mut W,
) -> Result<(), LinesError>
    ensures ok { OnOk result (HasAnsweredInputAnd (H.answers handler.old)
        (λ lines. H.is_next handler.old lines handler.new)
        (traffic (R.remaining input.old) (R.remaining input.new)
        (W.contents output.old) (W.contents output.new))) }
    ensures read { IsErrOf result LinesError.Read → HasAnsweredEndedAnd (H.answers handler.old)
        (λ lines. H.is_next handler.old lines handler.new)
        (traffic (R.remaining input.old) (R.remaining input.new)
        (W.contents output.old) (W.contents output.new)) }
    ensures memory { IsErrOf result LinesError.Memory → HasAnsweredSome (H.first_answers handler.old)
        (traffic (R.remaining input.old) (R.remaining input.new)
        (W.contents output.old) (W.contents output.new)) }
    ensures write { IfErr result (λ error. IsWriteError error → HasBegun
        (λ t. HasAnsweredInput (H.answers handler.old) t
        ⊎ (HasAnsweredEnded (H.answers handler.old) t
        ⊎ HasAnsweredSome (H.first_answers handler.old) t))
        (traffic (R.remaining input.old) (R.remaining input.new)
        (W.contents output.old) (W.contents output.new))) }
    ensures kind { IfErr result
        (λ error. (error ≡ LinesError.Memory) ⊎ ((error ≡ LinesError.Read)
        ⊎ IsWriteError error)) }
{
    let mut held = Vec::new(alloc);
    let ran = answer_blocks(alloc, handler, input, &mut held, output);
    let ended = end_after(ran, handler, &mut held);
    finish(ended, &mut held, output)
}

/// Answers each line of the input, to the end of the input. The answers to what was read are sent before more is read.
pub fn answer_lines<A: LineAnswers, R: Read, W: Write>(
    alloc: Global,
    answers: &mut A,
    input: &mut R,
    output: &mut W,
) -> Result<(), LinesError>
    ensures ok { OnOk result (HasAnsweredInputThen (A.answer answers.old) (A.answer answers.new)
        (traffic (R.remaining input.old) (R.remaining input.new)
        (W.contents output.old) (W.contents output.new))) }
    ensures read { IsErrOf result LinesError.Read → HasAnsweredEnded (answers_of (A.answer answers.old))
        (traffic (R.remaining input.old) (R.remaining input.new)
        (W.contents output.old) (W.contents output.new)) }
    ensures memory { IsErrOf result LinesError.Memory → HasAnsweredSome (answers_of (A.answer answers.old))
        (traffic (R.remaining input.old) (R.remaining input.new)
        (W.contents output.old) (W.contents output.new)) }
    ensures write { IfErr result (λ error. IsWriteError error
        → HasBegun (HasAnsweredSome (answers_of (A.answer answers.old)))
        (traffic (R.remaining input.old) (R.remaining input.new)
        (W.contents output.old) (W.contents output.new))) }
    ensures kind { IfErr result
        (λ error. (error ≡ LinesError.Memory) ⊎ ((error ≡ LinesError.Read)
        ⊎ IsWriteError error)) }
{
    handle_lines(alloc, answers, input, output)
}

//! Answers the lines of an input, and reports why an input or the output failed.
ghost use Rattle.std.specs.Prelude.{◌≡◌, IfOk, IfErr};
ghost use Rattle.grok_lines.specs.Streams.{HasAnsweredInputAnd, HasAnsweredEndedAnd};
ghost use Rattle.grok_lines.specs.Traffic.{traffic};
ghost use Rattle.groklog_input.specs.InputFaults.{IsFaultOfLines};
ghost use Rattle.groklog_reports.specs.Faults.{IsReadFault, IsDeviceFault};

use crate::watched::Watched;
use grok_lines::{LineHandler, LinesError, handle_lines};
use groklog_reports::{FileFailure, RunFault, file_fault, write_fault};
use std::alloc::{AllocError, Global};
use std::io::{ErrorKind, Read, Write};

/// How answering an input ended, if nothing failed.
#[derive(Clone, Copy, PartialEq, Eq)]
pub enum Answered {
    /// All of its lines were answered.
    All,
    /// The reader of the answers closed the pipe, because it has enough of them.
    Enough,
}

/// Returns `None` if the reader of the answers closed the pipe. If reading failed, `failure` says why.
fn lines_fault(
    alloc: Global,
    name: &str,
    failure: Option<FileFailure>,
    error: &LinesError,
) -> Result<Option<RunFault>, AllocError>
    ensures { IfOk result (IsFaultOfLines failure error.now) }
{
    match error {
        // own error: `grok_lines` reported that an allocation failed.
        LinesError::Memory => Ok(Some(RunFault::Memory)),
        LinesError::Read => {
            let failure = failure.unwrap_or(FileFailure {
                // own error: reading ended without a reason, which no run does.
                kind: ErrorKind::Other,
                number: None,
            });
            Ok(Some(file_fault(alloc, name, failure)?))
        }
        LinesError::Write(error) => write_fault(alloc, error),
    }
}

/// Has each line of an input handled, and then its end, and writes the answers to `output`. Faults call
/// the input `name`.
///
/// # Errors
///
/// If an allocation, reading or writing fails.
pub fn answer_input<A: LineHandler, R: Read, W: Write>(
    alloc: Global,
    answers: &mut A,
    input: &mut Watched<'_, R>,
    output: &mut W,
    name: &str,
) -> Result<Answered, RunFault>
    ensures all { IfOk result (λ answered. answered ≡ Answered.All
        → HasAnsweredInputAnd (A.answers answers.old) (λ lines. A.is_next answers.old lines answers.new)
        (traffic (R.remaining input.old.input) (R.remaining input.new.input)
        (W.contents output.old) (W.contents output.new))) }
    ensures read { IfErr result (λ fault. IsReadFault fault
        → HasAnsweredEndedAnd (A.answers answers.old) (λ lines. A.is_next answers.old lines answers.new)
        (traffic (R.remaining input.old.input) (R.remaining input.new.input)
        (W.contents output.old) (W.contents output.new))) }
    ensures kind { IfErr result IsDeviceFault }
{
    let answered = handle_lines(alloc, answers, input, output);
    let failure = input.finish();
    match answered {
        Ok(()) => Ok(Answered::All),
        Err(error) => match lines_fault(alloc, name, failure, &error)? {
            None => Ok(Answered::Enough),
            Some(fault) => Err(fault),
        },
    }
}

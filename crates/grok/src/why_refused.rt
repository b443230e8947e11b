//! Finds out why `regex` refuses the expanded text of a pattern.
ghost use Rattle.std.specs.Prelude.{◌≡◌, ◌≢◌, ◌↔◌, IfOk, IsTrue, MatchOption, MatchResult};
ghost use Rattle.regex.specs.declared.error.Error.TheVariants.{Internal, OutOfMemory};
ghost use Rattle.grok.specs.Refusals.{regex_error_of, IsAccepted, IsReasonFor, IsOfBrackets};

use crate::engine::regex_engine::BuildFromText;
use regex_syntax::ErrorKind;
use std::alloc::{AllocError, Global};

/// Why `regex` refuses a text.
#[derive(Clone, Copy, PartialEq, Eq, Debug)]
pub enum RefusalReason {
    /// The text is no regular expression, or is nested too deeply. The parser of `regex` reports the
    /// kind of error, and its byte range in the text, which begins and ends between characters.
    Syntax(regex_syntax::Error),
    /// The compiled regex would be larger than the 10 MiB that `regex` allows.
    TooBig,
}

impl RefusalReason {
    pub(crate) fn is_of_brackets(self) -> bool
        ensures { IsTrue result ↔ IsOfBrackets self }
    {
        matches!(
            self,
            RefusalReason::Syntax(regex_syntax::Error {
                kind: ErrorKind::GroupUnclosed | ErrorKind::GroupUnopened,
                ..
            })
        )
    }
}

fn reason_of(error: regex::Error) -> Result<RefusalReason, AllocError>
    requires { error ≢ Internal }
    ensures { MatchResult result (λ reason. error ≡ regex_error_of reason)
        (λ _. error ≡ OutOfMemory) }
{
    match error {
        regex::Error::Syntax(error) => Ok(RefusalReason::Syntax(error)),
        regex::Error::CompiledTooBig => Ok(RefusalReason::TooBig),
        // own error: `regex` reported that an allocation failed.
        regex::Error::OutOfMemory => Err(AllocError),
        regex::Error::Internal => unreachable!(),
    }
}

pub(crate) fn reason_for<B: BuildFromText>(
    alloc: Global,
    text: &str,
) -> Result<Option<RefusalReason>, AllocError>
    ensures { IfOk result (λ found. MatchOption found (IsAccepted B.is_built_from text.now)
        (IsReasonFor B.refuses text.now)) }
{
    let error = match B::build_from_text(alloc, text) {
        Ok(_built) => return Ok(None),
        Err(error) => error,
    };
    let reason = reason_of(error)?;
    Ok(Some(reason))
}

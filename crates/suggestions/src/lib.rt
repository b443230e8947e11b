//! Finds patterns for lines of a log: how well a pattern fits them, and a pattern for lines that no
//! known definition fits.
//!
//! [`advise`] tries known definitions. If these don't fit almost all lines, it cuts each line into tokens (what a
//! definition recognizes, words, blanks, and marks such as brackets), aligns the lines by their tokens, and writes
//! what they have in common as patterns:
//!
//! ```text
//! let lines = ["12 user bob", "7 user eve"];
//! let sample = SampleLines { lines: &lines, firsts: &["12 user bob"] };
//! let advice = advise(alloc, &library, formats, sample)?;
//! // advice.combined[0].text is ^%{INT:number:int} user %{WORD:word}$, for 2 lines
//! ```
//!
//! Where a call has no section `# Errors`, its error is a failed allocation.
#![tactic(auto)]

mod advice;
mod align;
mod columns;
mod counts;
mod header;
mod heads;
mod names;
mod proposals;
mod starts;
mod text;
mod values;

pub use advice::{Advice, Format, Formats, OpenFormat, PatternShare, Suggestion, advise};
pub use starts::SampleLines;

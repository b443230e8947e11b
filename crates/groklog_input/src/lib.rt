//! Reads the inputs of `groklog`.
//!
//! [`answer_input`] answers the lines of an input:
//!
//! ```text
//! let mut input = Watched::new(rt.stdin());
//! answer_input(alloc, &mut answers, &mut input, &mut output, "standard input")?;
//! ```
//!
//! Where a call has no section `# Errors`, its error is a failed allocation.
#![tactic(auto)]

mod answered;
mod formed_answers;
mod line_form;
mod watched;

pub use answered::{Answered, answer_input};
pub use formed_answers::FormedAnswers;
pub use line_form::{Encoding, LineForm, Signs};
pub use watched::Watched;

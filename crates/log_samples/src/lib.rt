//! What a sample of the lines of a log shows: which patterns fit its lines, which tokens a line has,
//! and whether its lines are JSON objects or values between separators.
//!
//! A [`Candidate`] is a pattern with the lines that it fits, and a [`Cutter`] cuts a line into tokens, of which nothing is lost:
//!
//! ```text
//! let recognizer = Recognizer::new(alloc, &library)?;
//! let mut cutter = Cutter::new(alloc, recognizer.search(alloc)?);
//! let tokens = cutter.cut("12 user bob")?; // a number, a blank, a word, a blank, and a word
//! ```
//!
//! Where a call has no section `# Errors`, its error is a failed allocation.
#![tactic(auto)]

mod compiled;
mod events;
mod fits;
mod literals;
mod log_kinds;
mod recognizer;
mod tokens;
mod values;

pub use compiled::compile_valid;
pub use events::first_line;
pub use fits::{Candidate, Fit, count, finds_each};
pub use literals::literal;
pub use log_kinds::{LogKind, ValueNames, has_header, kind_of_log};
pub use recognizer::{Known, Meaning, Recognizer, RecognizerSearch, known_definition};
pub use tokens::{Cutter, Kind, LineToken};
pub use values::{name_of_value, separator_of, value_at, value_count};

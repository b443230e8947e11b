//! Reads lines, answers each, and sends the answers before each read.
//!
//! [`answer_lines`] reads an input to its end, and a [`LineAnswers`] answers each line.
//! [`handle_lines`] does the same with any [`LineHandler`]: [`EventAnswers`] answers events of several
//! lines. For runs that read no lines, [`hold`], [`send`] and [`finish`] hold answers back and send
//! them.
//! [`append_pair`] writes `KEY=VALUE`.
//!
//! Where a call has no section `# Errors`, its error is a failed allocation.
#![tactic(auto)]

mod error;
mod events;
mod handler;
pub mod laws;
mod line_answers;
mod output;
mod pairs;
mod stream;

pub use error::LinesError;
pub use events::{EventAnswers, EventStarts, SkipLines};
pub use handler::LineHandler;
pub use line_answers::LineAnswers;
pub use output::{finish, hold, send};
pub use pairs::append_pair;
pub use stream::{answer_lines, handle_lines};

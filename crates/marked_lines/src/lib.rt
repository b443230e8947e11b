//! Marks the fields of a line: in colours for a terminal, and in HTML for a page.
//!
//! [`runs_of`] cuts a line into runs of characters with one key. [`push_coloured`] and
//! [`Html::push_runs`] write them. Without the marks, what they write is the line as
//! [`visible`](groklog_reports::visible) shows it:
//!
//! ```text
//! let fields = [Field { key: 0, start: 0, end: 4 }];
//! let runs = runs_of(alloc, "root logged in", &fields)?;
//! push_coloured(&mut text, &runs)?; // root is coloured
//! ```
//!
//! Where a call has no section `# Errors`, its error is a failed allocation.
#![tactic(auto)]

mod colour;
mod coloured;
mod escaped;
mod html;
mod letters;
mod runs;

pub use coloured::push_coloured;
pub use html::Html;
pub use letters::{letter_of, push_letters};
pub use runs::{Field, Run, runs_of};

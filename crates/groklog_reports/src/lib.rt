//! Says what is wrong, where, and what to do, in words that a terminal can't take as commands.
//!
//! A [`RunFault`] is why the program ends early, and its [`Report`] is what its user reads:
//!
//! ```text
//! let mut report = Report::new(alloc, "the pattern is empty", "write one")?;
//! add_excerpt(alloc, &mut report, "the pattern", text, 2..5)?;
//! return Err(RunFault::Pattern(report));
//! ```
//!
//! Where a call has no section `# Errors`, its error is a failed allocation.
#![tactic(auto)]

mod excerpt;
mod fault;
mod file_failure;
mod text_file;
mod unit;
mod visible_text;

pub use excerpt::{Excerpt, add_excerpt, excerpt_of};
pub use fault::{FaultyPart, Report, RunFault};
pub use file_failure::{FileFailure, file_fault, write_fault};
pub use text_file::TextFile;
pub use unit::Unit;
pub use visible_text::{push_visible, visible};

//! Says what `--suggest` found for the first lines of a log: definitions and patterns with their counts, each as a
//! command, or another program that reads the lines better.
//!
//! [`Sample`] takes the lines, and [`report_of_sample`] returns the report:
//!
//! ```text
//! let Suggestions { text, has_pattern } = report_of_sample(alloc, &options, &library, &sample)?;
//! ```
//!
//! Where a call has no section `# Errors`, its error is a failed allocation.
#![tactic(auto)]

mod command;
mod report;
mod sample;

pub use report::{Suggestions, report_of_sample};
pub use sample::Sample;

//! Finds in each line of a log the match of the first pattern that matches, and writes the answer to
//! it, or counts the values of its keys ([`KeyCounts`]).
//!
//! [`Searches`] has the patterns. It numbers and counts the lines, and finds their matches. [`LogAnswers`]
//! asks it, and writes what was found. A [`Layout`] says which lines are answered, and how. `grok_lines`
//! reads the lines:
//!
//! ```text
//! let patterns = [NamedPattern { tag: "%{IP:client}", pattern: &pattern, plan: None }];
//! let mut answers = LogAnswers::new(alloc, &patterns, layout)?;
//! answer_lines(alloc, &mut answers, &mut input, &mut output)?;
//! ```
//!
//! Where a call has no section `# Errors`, its error is a failed allocation.
#![tactic(auto)]

mod answer_writer;
mod answered_line;
mod found;
mod key_counts;
pub mod laws;
mod layout;
mod log_answers;
mod missed;
mod object;
mod pairs;
mod plan;
mod planned;
mod record;
mod searched_lines;
mod searches;
mod start_pattern;
mod value_counts;
mod value_lists;
mod values;

pub use key_counts::KeyCounts;
pub use layout::{Added, Addition, Failure, Layout, Lines, OutputFormat};
pub use log_answers::LogAnswers;
pub use missed::Missed;
pub use plan::{Plan, PlanClash, PlanError, SharedKey};
pub use record::header_of;
pub use searched_lines::{Flow, FoundLine, LineTask, SearchedLines};
pub use searches::{LineMatch, NamedPattern, Searches};
pub use start_pattern::StartPattern;
pub use value_counts::{Counted, ValueCounts};
pub use values::asks_for_numbers;

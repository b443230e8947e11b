//! Reads the command line of `groklog`, and says what its options ask for.
//!
//! [`read_options`] reads the words, and [`layout_of`] returns how answers are written:
//!
//! ```text
//! let options = read_options(alloc, &words)?;
//! if let Task::Answers(answers) = &options.task {
//!     let layout = layout_of(answers, None);
//! }
//! ```
//!
//! Where a call has no section `# Errors`, its error is a failed allocation.
#![tactic(auto)]

mod additions;
mod command_line;
mod layouts;
mod options;
mod similar;
mod task;
mod words_error;

pub use additions::option_of;
pub use layouts::layout_of;
pub use options::{
    EVENT_LINES, EXPANSION, EventOptions, GivenDefinitions, GivenPattern, MadeFor, Options,
    is_answer, read_options, usage_fault,
};
pub use similar::nearest;
pub use task::{
    AnswerOptions, Colours, CountOptions, PageOptions, PlanOptions, ShownOptions, Task,
};

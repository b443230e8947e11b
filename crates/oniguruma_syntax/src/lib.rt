//! Reads texts in the syntax of Oniguruma, as definitions made for Logstash have it, and writes them
//! for `regex`.
//!
//! [`read`] cuts a text into tokens. Their spellings, one after another, are the text, so nothing is
//! lost. [`rewrite`] keeps a text, writes another one that means the same, or refuses a part of it:
//!
//! ```text
//! match rewrite(alloc, "(?>%{INT:n})\\h", rewrite_options)? {
//!     Outcome::Kept => ..
//!     Outcome::Rewritten(Rewritten { text, changes }) => .. // (?:%{INT:n})[0-9A-Fa-f]
//!     Outcome::Refused(RefusedPart { reason, range }) => ..
//! }
//! ```
//!
//! Where a call has no section `# Errors`, its error is a failed allocation.
#![tactic(auto)]

mod change;
mod characters;
mod class;
mod cut;
mod flags;
mod forms;
mod literals;
mod looks;
mod names;
mod reader;
mod refusal;
mod rewriting;
mod scan;
mod sets;
mod structure;
mod token;
mod writer;

pub use change::{Change, ChangeKind};
pub use forms::has_own_forms;
pub use reader::read;
pub use refusal::{Reason, RefusedPart};
pub use rewriting::{Outcome, rewrite};
pub use token::{Form, Greed, Mark, Node, Opening, Placeholder, Token};
pub use writer::{RewriteOptions, Rewritten};

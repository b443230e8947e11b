//! What is reported about the definitions and the patterns of a run of `groklog`. It reads and writes no files.
//!
//! [`compile_all`] compiles patterns with a library, and returns a fault that says what is wrong with one, where,
//! and what to do. An [`Explainer`] says where patterns stop in a line that doesn't match:
//!
//! ```text
//! let texts = patterns_of(alloc, &["%{IP:client} %{WORD:verb}"], true)?;
//! let patterns = compile_all(alloc, &library, texts)?;
//! let mut explainer = Explainer::new(alloc, &library, &patterns)?;
//! let report = explainer.report("line 1", "10.0.0.7 -")?; // it stops at %{WORD:verb}
//! ```
//!
//! Where a call has no section `# Errors`, its error is a failed allocation.
#![tactic(auto)]

mod compiled;
mod diagnosis;
mod expansions;
mod explanation;
mod from_logstash;
mod key_titles;
mod stop_report;
mod stops;
mod written_definitions;

pub use compiled::{RunPattern, compile_all};
pub use diagnosis::bare_name;
pub use explanation::explain;
pub use from_logstash::{Adapted, adapt_all, adapt_own, own_wholes};
pub use key_titles::titles_of;
pub use stop_report::Explainer;
pub use written_definitions::definition_lines;

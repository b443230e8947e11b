//! The definitions and the patterns of a run of `groklog`. It reads and writes no files.
//!
//! A [`Library`] has the definitions, and where each was given. [`compile`] compiles a pattern with it, or says
//! whether it is too large or faulty:
//!
//! ```text
//! let library = Library::new(alloc, true, &files, &words, most_bytes)?;
//! let pattern = compile(&library, "%{IP:client} %{WORD:verb}", true)?;
//! ```
//!
//! Where a call has no section `# Errors`, its error is a failed allocation.
#![tactic(auto)]

mod common;
mod compiled;
mod definition;
mod definitions;
mod library;
mod pattern_text;

pub use common::{common_definition, list_common_definitions};
pub use compiled::{CompileRefusal, compile};
pub use definition::{read_definition, skip_blanks};
pub use definitions::{Origin, without_mark};
pub use library::{DefinitionSource, Library, Limit};
pub use pattern_text::{PatternText, ordinal, patterns_of, start_pattern};

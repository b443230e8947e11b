//! The files that `groklog` opens, and those that it replaces whole.
//!
//! [`ReadFiles`] are the logs and the files of definitions of a run. A [`WholeFile`] is none of them, and takes the
//! place of an old file only once all of its text is on the disk:
//!
//! ```text
//! let definitions = read_definition_files(rt, &["patterns"])?;
//! let read = ReadFiles::of(rt, &["today.log"], &definitions)?;
//! let page = WholeFile { option: "--html", name: "page.html", read: &read };
//! page.check(rt)?;
//! page.write(rt, true, html)?;
//! ```
//!
//! Where a call has no section `# Errors`, its error is a failed allocation.
#![tactic(auto)]

mod definition_files;
mod read_files;
mod standard_input;
mod whole_file;

pub use definition_files::read_definition_files;
pub use read_files::{ReadFiles, check_logs, is_same_file};
pub use standard_input::{STANDARD_INPUT, StandardInput, shown_name};
pub use whole_file::WholeFile;

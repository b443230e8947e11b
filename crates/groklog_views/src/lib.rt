//! What `groklog` shows of the lines or events of a log in place of answers: lines with their fields marked, and a
//! page of HTML. It reads and writes no files.
//!
//! [`LocatedFields`] finds where in a line the values of the keys of its match are, with which the line is shown on a
//! terminal. A page collects its lines:
//!
//! ```text
//! if let Ok(found) = line.found {
//!     let shown = shown_line(alloc, line.text, &located.find(found)?, true)?; // in colours
//!     content.add_matched(line, found)?;
//! }
//! ```
//!
//! Where a call has no section `# Errors`, its error is a failed allocation.
#![tactic(auto)]

mod key_figures;
mod located_fields;
mod page;
mod page_content;
mod shown_lines;

pub use located_fields::LocatedFields;
pub use page::page_html;
pub use page_content::{EXPLAINED, PageContent, Scope};
pub use shown_lines::{legend_of, shown_line, shown_unmatched};

//! Compares the keys that options name with those of the patterns.
//!
//! [`check_keys`] finds the first fault of these keys, and [`chosen_fields`] returns the keys of patterns that are written:
//!
//! ```text
//! check_keys(alloc, &options.task, &patterns)?;
//! let fields = chosen_fields(alloc, &options.task, &patterns)?;
//! ```
#![tactic(auto)]

mod fields;
mod keys;

pub use fields::chosen_fields;
pub use keys::check_keys;

//! Splits grok patterns into their pieces: texts for the engine, and placeholders such as `%{name}`.
//!
//! [`grok_split`] returns an iterator over the pieces of a text. If a placeholder is malformed, the last
//! piece has the fault, and [`malformation_at`] returns the reason and the byte from which on it is
//! malformed. Nothing here knows what a placeholder stands for, and nothing allocates.
#![tactic(auto)]

pub mod laws;
mod malformed;
pub mod parser;
mod placeholder;

pub use malformed::MalformedReason;
pub use placeholder::{Parts, malformation_at};

//! Faults of a pattern, and the errors of compiling it.

pub(crate) mod error;
pub(crate) mod fault;

pub use error::Error;
pub use fault::{Fault, MAX_NESTING};

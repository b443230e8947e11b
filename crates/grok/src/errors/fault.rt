//! Faults of a pattern that are found before any engine reads it.

use grok_parser::parser::GrokPatternError;

/// How many placeholders may be nested in one another: the outermost one and 1,022 further levels. One
/// more is [`Fault::TooDeep`].
pub const MAX_NESTING: usize = 1023;

/// A structural fault of a pattern. `Grok::measure` returns the first one in reading order.
#[derive(Clone, Copy, PartialEq, Eq, Debug)]
pub enum Fault<'a> {
    /// A placeholder is malformed.
    Malformed(GrokPatternError),
    /// No definition has the name of a placeholder, which is given here.
    Missing(&'a str),
    /// A placeholder is nested more than [`MAX_NESTING`] levels deep.
    TooDeep,
}

//! Where a piece stands: in the pattern, or in a definition that it uses.

use std::ops::Range;

/// A placeholder that leads from a text to its definition.
#[derive(Clone, PartialEq, Eq, Debug, Drop)]
pub struct PathStep<'a> {
    pub name: &'a str,
    /// The byte range of the placeholder in the text that has it: in the pattern if this is the
    /// first step, and otherwise in what the step before leads to.
    pub range: Range<usize>,
}

/// Where a part of a pattern or of a definition stands. [`Grok::diagnose`](crate::Grok::diagnose)
/// returns it.
#[derive(Clone, PartialEq, Eq, Debug, Drop)]
pub struct Location<'a> {
    /// The placeholders that lead from the pattern to the text, outermost first. If there is none,
    /// the text is the pattern.
    pub path: Vec<PathStep<'a>>,
    /// The text: the definition that the last placeholder of the path stands for, or else the pattern.
    pub text: &'a str,
    /// The byte range in that text.
    pub range: Range<usize>,
}

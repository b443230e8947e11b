//! A text up to its first structural fault, as a list of rows.

/// A part of a text before its first structural fault: one capturing placeholder, or the known part of a
/// definition.
#[derive(Clone, Copy)]
pub(crate) enum Row<'a> {
    /// A capturing placeholder uses this base key: its alias, or its name if it has no alias.
    Use(&'a str),
    /// The placeholders in the first items of a definition: the rows of the part with this index.
    Part(usize),
}

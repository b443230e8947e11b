//! The events of a pattern's tree.

use crate::defs::items::{Label, Meaning};
use crate::errors::fault::Fault;

/// An event of a pattern's tree. After a placeholder comes its definition, and after that the
/// close.
#[derive(Clone, Copy)]
pub(crate) enum Event<'a> {
    Text(&'a str),
    /// A placeholder, and the definition that it stands for.
    Open(Label<'a>, Meaning<'a>),
    /// The end of the innermost definition.
    Close,
    Fault(Fault<'a>),
}

//! The settings with which a pattern is read.
use crate::defs::Grok;

/// The settings with which a pattern is read: the definitions, and whether only placeholders with an
/// alias capture.
#[derive(Clone, Copy)]
pub(crate) struct Settings<'a> {
    pub grok: &'a Grok,
    pub with_alias_only: bool,
}

//! What was changed in a text, so that lines may match in another way.
ghost use Rattle.std.specs.Prelude.{◌≡◌, [], IfOk, OnOk, string_bytes};
ghost use Rattle.oniguruma_syntax.specs.Changes.{has_kind, with_change, HasCopies, NameKindsOnce};

use std::alloc::{AllocError, Global};
use std::fmt;

/// What was changed.
#[derive(Clone, Copy, Debug, PartialEq, Eq)]
pub enum ChangeKind {
    /// An atomic group became a plain one.
    Atomic,
    /// A possessive quantifier became a plain one.
    Possessive,
    /// A lookahead became the start of a word.
    Start,
    /// A lookbehind became the start of a word, or what comes before it.
    WordStart,
    /// A lookahead became the end of a word, or what comes after it.
    WordEnd,
    /// A lookaround was dropped.
    Dropped,
    /// A lookaround was dropped that has placeholders or named groups.
    Lost,
}

/// A change.
#[derive(Clone, Debug, Drop)]
pub struct Change {
    pub kind: ChangeKind,
    /// The text that was replaced or dropped.
    pub text: String,
    /// The keys that are never found, if a text with keys was dropped.
    pub keys: String,
}

impl Change {
    pub(crate) fn new(alloc: Global, kind: ChangeKind, text: &str) -> Result<Change, AllocError>
        ensures kind { IfOk result (λ change. change.kind ≡ kind) }
        ensures text { IfOk result (λ change. string_bytes change.text ≡ text.now) }
        ensures keys { IfOk result (λ change. string_bytes change.keys ≡ []) }
    {
        Ok(Change {
            kind,
            text: String::from_str(alloc, text)?,
            keys: String::new(alloc),
        })
    }
}

/// The changes of a text, in reading order. Each kind is recorded once, except that of lost keys, which is
/// recorded for each lookaround that has keys.
#[derive(Drop)]
pub(crate) struct Changes {
    recorded: Vec<Change>,
    ghost once: { NameKindsOnce recorded.items },
}

impl Changes {
    pub fn new(alloc: Global) -> Changes
        ensures { result.recorded.items ≡ [] }
    {
        Changes {
            recorded: Vec::new(alloc),
        }
    }

    pub fn has(&self, kind: ChangeKind) -> bool
        ensures { result ≡ has_kind self.now.recorded.items kind }
    {
        kind != ChangeKind::Lost && self.recorded.iter().any(|change| change.kind == kind)
    }

    pub fn add(&mut self, change: Change) -> Result<(), AllocError>
        ensures { OnOk result (self.new.recorded.items ≡ with_change self.old.recorded.items change) }
    {
        if !self.has(change.kind) {
            self.recorded.push(change)?;
        }
        Ok(())
    }

    pub fn add_all(&mut self, changes: &[Change]) -> Result<(), AllocError>
        ensures { OnOk result (HasCopies self.old.recorded.items changes.now self.new.recorded.items) }
    {
        for change in changes {
            self.add(change.clone()?)?;
        }
        Ok(())
    }

    pub fn into_recorded(self) -> Vec<Change>
        ensures recorded { result ≡ self.recorded }
        ensures once { NameKindsOnce result.items }
    {
        self.recorded
    }
}

impl fmt::Display for Change {
    fn fmt<W: fmt::Write>(&self, f: &mut fmt::Formatter<W>) -> fmt::Result {
        let text = self.text.as_str();
        match self.kind {
            ChangeKind::Atomic => write!(
                f,
                "the atomic group {text} became a plain one: lines may match that Logstash refuses, or with other values"
            ),
            ChangeKind::Possessive => write!(
                f,
                "the possessive {text} lost its +: lines may match that Logstash refuses, or with other values"
            ),
            ChangeKind::Start => write!(
                f,
                "the lookahead {text} became \\b{{start}}: what follows it is found only at the start of a word, and a later part of the line may be found in its place"
            ),
            ChangeKind::WordStart => write!(
                f,
                "the lookbehind {text} became \\b{{start-half}}: nothing is found right after a letter, a digit or _, and a later part of the line may be found in its place"
            ),
            ChangeKind::WordEnd => write!(
                f,
                "the lookahead {text} became \\b{{end-half}}: nothing is found right before a letter, a digit or _, and another part of the line may be found in its place"
            ),
            ChangeKind::Dropped => write!(
                f,
                "the lookaround {text} was dropped: lines match that Logstash refuses, also with other values"
            ),
            ChangeKind::Lost => write!(
                f,
                "the lookaround {text} was dropped: lines match that Logstash refuses, also with other values, and {} is never found",
                self.keys
            ),
        }
    }
}

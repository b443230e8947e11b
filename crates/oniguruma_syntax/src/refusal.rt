//! Why a text can't be written for `regex`.
ghost use Rattle.std.specs.Prelude.{◌≡◌};
ghost use Rattle.oniguruma_syntax.specs.Reasons.{advice_for};

use crate::token::Node;
use std::alloc::{AllocError, AllocFailed};
use std::fmt;
use std::ops::Range;

/// Why a text is refused.
#[derive(Clone, Copy, Debug, PartialEq, Eq)]
pub enum Reason {
    /// A lookaround that has no form for `regex`.
    Lookaround,
    /// A reference to a group.
    Backreference,
    /// A call of a group.
    Call,
    /// A condition.
    Condition,
    /// An absent operator.
    Absent,
    /// `(?` before something else.
    UnknownGroup,
    /// Flags other than `i`, `m` and `x`.
    UnknownFlags,
    /// A group that isn't closed, or a form whose end is missing.
    Unclosed,
    /// A bracket that closes no group.
    Unopened,
    /// A quantifier with nothing before it that it could repeat.
    NothingToRepeat,
    /// A quantifier whose least number is greater than its greatest.
    Counts,
    /// An escape that `regex` doesn't have.
    Escape,
    /// A number that is no character.
    Code,
    /// A property of characters that isn't known.
    Property,
    /// A range of a character class that isn't clear.
    Range,
    /// An empty side of `&&`.
    EmptySide,
    /// A placeholder in a character class.
    PlaceholderInClass,
    /// A placeholder where the flag `x` is set.
    PlaceholderInExtended,
    /// A group whose name `regex` doesn't take, and that has braces.
    NamedGroup,
    /// An inline definition that has braces once it is rewritten.
    InlineDefinition,
}

impl Reason {
    /// Returns what users can do about this reason.
    pub fn advice(self) -> &'static str
        ensures { result.now ≡ advice_for self }
    {
        match self {
            Reason::Lookaround => {
                "write it without the lookaround, or use --loose, which drops it"
            }
            Reason::NamedGroup => {
                "make what is inside it a definition NAME, and write %{NAME:KEY} for the group"
            }
            Reason::InlineDefinition => "make it a definition of its own, by -d or -D",
            Reason::PlaceholderInClass => "write \\[ for the bracket itself",
            Reason::PlaceholderInExtended => "write the pattern without the flag x",
            Reason::Unclosed | Reason::Unopened => "close each group and each class",
            Reason::Range => "write \\- for a hyphen that stands for itself",
            _ => "write it in another way",
        }
    }
}

impl fmt::Display for Reason {
    fn fmt<W: fmt::Write>(&self, f: &mut fmt::Formatter<W>) -> fmt::Result {
        f.write_str(match self {
            Reason::Lookaround => "a lookaround that has no form for the engine",
            Reason::Backreference => "a reference to a group",
            Reason::Call => "a call of a group",
            Reason::Condition => "a condition",
            Reason::Absent => "an absent operator",
            Reason::UnknownGroup => "an unknown kind of group",
            Reason::UnknownFlags => "an unknown flag",
            Reason::Unclosed => "something that isn't closed",
            Reason::Unopened => "a bracket that closes nothing",
            Reason::NothingToRepeat => "a quantifier with nothing to repeat",
            Reason::Counts => "a quantifier that counts down",
            Reason::Escape => "an escape that has no form for the engine",
            Reason::Code => "a number that is no character",
            Reason::Property => "a property of characters that isn't known",
            Reason::Range => "a range that isn't clear",
            Reason::EmptySide => "an empty side of &&",
            Reason::PlaceholderInClass => "a placeholder in a character class",
            Reason::PlaceholderInExtended => "a placeholder after the flag x",
            Reason::NamedGroup => "a group whose name the engine doesn't take",
            Reason::InlineDefinition => "an inline definition that needs braces",
        })
    }
}

/// A part of a text for which the text is refused.
#[derive(Debug, Drop)]
pub struct RefusedPart {
    pub reason: Reason,
    /// The byte range of the part.
    pub range: Range<usize>,
}

/// Why writing stops.
#[derive(Debug, Drop)]
pub(crate) enum Stop {
    Memory,
    Refused(RefusedPart),
}

impl Stop {
    pub fn at(reason: Reason, node: &Node<'_>) -> Stop
        ensures { result ≡ Stop.Refused (record {
          reason = reason;
          range = record { start = node.now.start; end = node.now.end };
        }) }
    {
        let range = node.range();
        Stop::Refused(RefusedPart { reason, range })
    }
}

impl From<AllocError> for Stop {
    fn from(_error: AllocError) -> Stop {
        // own error: an allocation failed.
        Stop::Memory
    }
}

impl<T: Drop> From<AllocFailed<T>> for Stop {
    fn from(_error: AllocFailed<T>) -> Stop {
        // own error: an allocation failed.
        Stop::Memory
    }
}

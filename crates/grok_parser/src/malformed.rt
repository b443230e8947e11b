//! The reasons for which a placeholder is malformed, and the faults that the splitter reports for them.
ghost use Rattle.std.specs.Prelude.{◌≡◌, List, ℕ, IsOk};
ghost use Rattle.std.specs.Fmt.{IsPlainFormatter, HasWritten, DisplaysOnOk};
ghost use Rattle.grok_parser.specs.Malformations.{fault_of};

use std::fmt::{self, Write};

/// Why a placeholder is malformed. If it has several faults, it is the first one.
#[derive(Clone, Copy, PartialEq, Eq, Debug)]
pub enum MalformedReason {
    /// The text ends after the name, the alias or the extract.
    Unclosed,
    /// This character stands where the name, the alias or the extract can't have it.
    InvalidCharacter(char),
    /// The name is empty.
    NoName,
    /// The alias is empty, and no extract follows.
    NoAlias,
    /// The extract is empty.
    NoExtract,
    /// There is a `:` after the extract, and so a fourth word.
    FourthWord,
    /// The text ends before the `}` after the definition.
    UnclosedDefinition,
    /// The definition after `=` is empty.
    NoDefinition,
    /// The definition after `=` has a `{`.
    BraceInDefinition,
}

/// Why a placeholder is malformed, and the rest of the text from there on.
#[derive(Clone, Copy)]
pub(crate) struct Malformation<'a> {
    pub reason: MalformedReason,
    pub rest: &'a str,
}

/// What is wrong with a malformed placeholder. If several of its words are faulty, it is the fault
/// of the first one.
#[derive(Clone, Copy, PartialEq, Eq)]
pub enum GrokPatternError {
    /// This character follows a word. It can neither belong to the word nor end it.
    InvalidCharacter(char),
    /// The text ends after a word, the name is empty, or there is a fourth word.
    InvalidPattern,
    /// An alias, an extract or a definition is empty where it must not be, or a definition has a
    /// `{`, or no `}` ends it.
    InvalidPatternDefinition,
}

pub(crate) fn fault_of(reason: MalformedReason) -> GrokPatternError
    ensures { result ≡ fault_of reason }
{
    match reason {
        MalformedReason::InvalidCharacter(c) => GrokPatternError::InvalidCharacter(c),
        MalformedReason::Unclosed | MalformedReason::NoName | MalformedReason::FourthWord => {
            GrokPatternError::InvalidPattern
        }
        MalformedReason::NoAlias
        | MalformedReason::NoExtract
        | MalformedReason::UnclosedDefinition
        | MalformedReason::NoDefinition
        | MalformedReason::BraceInDefinition => GrokPatternError::InvalidPatternDefinition,
    }
}

/// How many bytes Debug writes at most for a character, as for `'\u{10ffff}'`.
const LONGEST_CHARACTER: usize = 12;

/// Writes the name of the fault, with its character in quotes.
impl fmt::Debug for GrokPatternError {
    ghost use Rattle.grok_parser.specs.Texts.{fault_words, IsFaultText};

    ghost debug_output = { fault_words };

    fn fmt<W: fmt::Write>(&self, f: &mut fmt::Formatter<W>) -> fmt::Result
        ensures writes { DisplaysOnOk W.write_str_gives f.old result (fault_words self.now) f.new }
        ensures any { IsPlainFormatter f.old → IsOk result → (words : List ℕ) × IsFaultText self.now words
            × HasWritten W.write_str_gives f.old words f.new }
    {
        match self {
            GrokPatternError::InvalidCharacter(c) => {
                // A text of its own, so that what stands around it is proved for each character.
                let mut shown = fmt::InlineText::<LONGEST_CHARACTER>::new();
                write!(shown, "{c:?}")?;
                write!(f, "InvalidCharacter({})", shown.as_str())
            }
            GrokPatternError::InvalidPattern => f.write_str("InvalidPattern"),
            GrokPatternError::InvalidPatternDefinition => f.write_str("InvalidPatternDefinition"),
        }
    }
}

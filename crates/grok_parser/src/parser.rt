//! Splits a pattern into its pieces: texts for the engine, and placeholders such as `%{name}`.
ghost use Rattle.std.specs.Prelude.{◌≡◌, ◌+◌, ◌-◌, ◌<◌, ◌≤◌, ◌^◌, ◌≢◌, length, take, drop, List, ℕ, slice_index, true, false, option_map, filter_map, MatchOption, IsOk};
ghost use Rattle.std.specs.Fmt.{IsPlainFormatter, HasWritten, DisplaysOnOk};
ghost use Rattle.std.specs.List.{prefix_len, position_or_len, take_while};
ghost use Rattle.std.specs.Str.{IsCharBoundary};
ghost use Rattle.grok_parser.specs.steps.Rest.{IsRest};
ghost use Rattle.grok_parser.specs.Views.{piece_view};
ghost use Rattle.grok_parser.specs.Uses.{use_view, use_of, uses_in};
ghost use Rattle.grok_parser.specs.Pieces.{is_name_byte, is_percent, is_open, regular_skip, regular_len, first_piece, pieces, pieces_at, Piece};
ghost use Rattle.grok_parser.specs.PlaceholderNames.{is_name};
ghost use Rattle.grok_parser.specs.Grammar.{ArePieces};

pub use crate::malformed::GrokPatternError;
use crate::malformed::fault_of;
use crate::placeholder::{Inside, Parts, is_name_byte, read_placeholder, split_word};
use std::fmt;
use std::marker::Model;
use std::ops::Range;

/// A piece of a pattern. Its ranges are byte ranges of the text that was split, and its texts are
/// slices of that text.
#[derive(Drop)]
pub enum GrokComponent<'a> {
    /// Text without a placeholder, which goes to the engine as it is.
    RegularExpression {
        /// The byte range of the piece in the text that was split.
        range: Range<usize>,
        /// The piece: the slice at `range`.
        string: &'a str,
    },
    /// A placeholder: `%{name}`, `%{name:alias}` or `%{name:alias:extract}`, each also with
    /// `=definition` before the `}`. A part that is missing is the empty text.
    GrokPattern {
        /// The byte range of the placeholder in the text that was split, with its `%{` and `}`.
        range: Range<usize>,
        /// The whole placeholder: the slice at `range`.
        pattern: &'a str,
        /// The name of the definition, which is not empty.
        name: &'a str,
        /// The key for its value. If it is empty, the name is the key.
        alias: &'a str,
        /// A text that is kept beside the key, as the kind of its value. Nothing is converted.
        extract: &'a str,
        /// An inline definition, which is used instead of the stored one. It has no brace.
        definition: &'a str,
    },
    /// A malformed placeholder: a `%{` that begins no placeholder, and what is wrong with it. It is
    /// the last piece.
    PatternError(GrokPatternError),
}

/// An iterator over the pieces of a pattern. [`grok_split`] returns it.
///
/// It yields the pieces in the order of the text, and after the last one `None` for ever. A
/// [`GrokComponent::PatternError`] is always the last piece. It allocates nothing.
#[derive(Drop)]
pub struct GrokSplit<'a> {
    rest: &'a str,
    at: usize,
}

impl<'a> Model for GrokSplit<'a> {
    ghost use Rattle.std.specs.Prelude.{List, ◌+◌, ◌<◌, ◌^◌, length};
    ghost use Rattle.grok_parser.specs.Pieces.{Piece, pieces_at};

    ghost Value = { List Piece };

    ghost view = { λ s. pieces_at s.at s.rest.now };

    ghost invariant = { λ s. s.at + length s.rest.now < 2 ^ 64 };
}

fn percent_or_len(text: &[u8]) -> usize
    ensures { result ≡ position_or_len is_percent text.now }
{
    text.iter().take_while(|b| **b != b'%').count()
}

#[tactic(auto, unfolding(crate::specs::Pieces::regular_skip))]
fn regular_skip(text: &[u8]) -> usize
    requires some { 0 < length text.now }
    ensures skip { result ≡ regular_skip text.now }
    ensures bound { result ≤ length text.now }
    ensures none { slice_index text.now 0 ≢ 37 → result ≡ 0 }
    ensures one { slice_index text.now 0 ≡ 37 → 0 < result }
{
    if text[0] == b'%' {
        text.len().min(2)
    } else {
        0
    }
}

#[tactic(auto, using(crate::proofs::RunsEndAtBoundaries::boundaries), unfolding(crate::specs::Pieces::regular_len))]
fn regular_len(text: &str) -> usize
    requires some { 0 < length text.now }
    ensures len { result ≡ regular_len text.now }
    ensures boundary { IsCharBoundary text.now result }
    ensures positive { 0 < result }
{
    let bytes = text.as_bytes();
    let skip = regular_skip(bytes);
    skip + percent_or_len(&bytes[skip..])
}

#[tactic(auto, using(crate::proofs::TextBeginsWithOpening::opens))]
fn strip_open<'a>(text: &'a str) -> Option<&'a str>
    ensures { MatchOption result (is_open text.now ≡ false)
        (λ x. (is_open text.now ≡ true) × (x.now ≡ drop 2 text.now)) }
{
    text.strip_prefix("%{")
}

#[tactic(auto, using(crate::proofs::FirstPieceAndRest::rests))]
fn text_before<'a>(text: &'a str, rest: &'a str) -> &'a str
    requires { IsRest text.now rest.now }
    ensures front { result.now ≡ take (length text.now - length rest.now) text.now }
    ensures len { length result.now ≡ length text.now - length rest.now }
{
    text.split_at(text.len() - rest.len()).0
}

#[tactic(auto, using(crate::proofs::FirstPieceAndRest::rests), unfolding(crate::specs::Pieces::first_piece))]
fn split_piece<'a>(at: usize, text: &'a str) -> (GrokComponent<'a>, &'a str)
    requires some { 0 < length text.now }
    requires fits { at + length text.now < 2 ^ 64 }
    ensures piece { piece_view result.0 ≡ (first_piece at text.now).piece }
    ensures rest { result.1.now ≡ (first_piece at text.now).rest }
    ensures is_rest { IsRest text.now result.1.now }
{
    let Some(inside) = strip_open(text) else {
        let len = regular_len(text);
        let (string, rest) = text.split_at(len);
        return (
            GrokComponent::RegularExpression {
                range: at..at + len,
                string,
            },
            rest,
        );
    };
    match read_placeholder(inside) {
        Ok(Inside { parts, rest }) => {
            let pattern = text_before(text, rest);
            let Parts {
                name,
                alias,
                extract,
                definition,
            } = parts;
            (
                GrokComponent::GrokPattern {
                    range: at..at + pattern.len(),
                    pattern,
                    name,
                    alias,
                    extract,
                    definition,
                },
                rest,
            )
        }
        Err(found) => (GrokComponent::PatternError(fault_of(found.reason)), ""),
    }
}

impl<'a> Iterator for GrokSplit<'a> {
    type Item = GrokComponent<'a>;

    ghost use Rattle.std.specs.Iterator.{YieldsFirstBy, item_count};

    ghost next_gives = { YieldsFirstBy piece_view (λ s. s) };

    ghost remaining = { item_count (λ s. s) };

    fn next(&mut self) -> Option<GrokComponent<'a>> {
        if self.rest.is_empty() {
            return None;
        }
        let (piece, rest) = split_piece(self.at, self.rest);
        self.at += self.rest.len() - rest.len();
        self.rest = rest;
        Some(piece)
    }
}

/// Splits a text after the longest name that it begins with: as many ASCII letters, ASCII digits and
/// `_` as there are. If it begins with another character, the name is empty.
pub fn split_name(text: &str) -> (&str, &str)
    ensures name { result.0.now ≡ take_while is_name_byte text.now }
    ensures rest { result.1.now ≡ drop (prefix_len is_name_byte text.now) text.now }
{
    split_word(text, true)
}

/// Returns whether a placeholder can have this name: it isn't empty, and has only ASCII letters, ASCII
/// digits and `_`.
pub fn is_name(text: &str) -> bool
    ensures { result ≡ is_name text.now }
{
    !text.is_empty() && text.as_bytes().iter().all(|b| is_name_byte(*b))
}

/// Splits a pattern into its pieces. Each is split when the iterator yields it.
///
/// The ranges of the pieces are byte ranges of `string`. They lie side by side: the first begins at
/// 0, each begins where the one before ends, and if there is no fault, the last one ends where
/// `string` ends. The empty text has no piece. A `%{` that begins no placeholder is one last
/// [`GrokComponent::PatternError`].
///
/// A placeholder is `%{name}`, `%{name:alias}` or `%{name:alias:extract}`, each also with
/// `=definition` before its `}`. A name has ASCII letters, ASCII digits and `_`. An alias and an
/// extract may also have `-`, `.`, `[` and `]`. A definition has no brace. Everything else is
/// regular: a regular piece runs up to the next `%`, and if it begins with `%`, it takes the next
/// character too.
#[tactic(auto, using(crate::proofs::PiecesAreUnique::split))]
pub fn grok_split<'a>(string: &'a str) -> GrokSplit<'a>
    ensures pieces { result ≡ pieces string.now }
    ensures are { ArePieces string.now 0 (result) }
    ensures only { (items : List Piece) → ArePieces string.now 0 items → items ≡ result }
{
    GrokSplit {
        rest: string,
        at: 0,
    }
}

/// A placeholder that names a definition and has none of its own. It stands for the stored definition of its
/// name, unless a placeholder before it in the text has an inline definition of that name.
#[derive(Drop)]
pub struct Use<'a> {
    /// The byte range of the placeholder in the text, with its `%{` and `}`.
    pub range: Range<usize>,
    /// The name of the definition.
    pub name: &'a str,
    /// The key for its value. If it is empty, the name is the key.
    pub alias: &'a str,
}

/// An iterator over the placeholders of a text that have no definition of their own. [`uses_in`] returns it. It
/// allocates nothing.
#[derive(Drop)]
pub struct Uses<'a> {
    pieces: GrokSplit<'a>,
}

impl<'a> Model for Uses<'a> {
    ghost use Rattle.std.specs.Prelude.{List, filter_map};
    ghost use Rattle.grok_parser.specs.Uses.{UseValue, use_of};

    ghost Value = { List UseValue };

    ghost view = { λ u. filter_map use_of u.pieces };
}

fn use_of<'a>(piece: GrokComponent<'a>) -> Option<Use<'a>>
    ensures { option_map use_view result ≡ use_of (piece_view piece.entry) }
{
    match piece {
        GrokComponent::GrokPattern {
            range,
            name,
            alias,
            definition,
            ..
        } if definition.is_empty() => Some(Use { range, name, alias }),
        _ => None,
    }
}

impl<'a> Iterator for Uses<'a> {
    type Item = Use<'a>;

    ghost use Rattle.std.specs.Iterator.{YieldsFirstBy, item_count};

    ghost next_gives = { YieldsFirstBy use_view (λ left. left) };

    ghost remaining = { item_count (λ left. left) };

    fn next(&mut self) -> Option<Use<'a>> {
        'pieces: while let Some(piece) = self.pieces.next() {
            if let Some(found) = use_of(piece) {
                return Some(found);
            }
        }
        None
    }
}

/// Returns the placeholders of a text that have no definition of their own, in its order. They name the
/// definitions that the text uses itself.
pub fn uses_in<'a>(text: &'a str) -> Uses<'a>
    ensures { result ≡ uses_in text.now }
{
    Uses {
        pieces: grok_split(text),
    }
}

/// Shows regular text as its own Debug does, a placeholder by its parts, and a fault as Display
/// does.
impl fmt::Debug for GrokComponent<'_> {
    ghost use Rattle.grok_parser.specs.Texts.{component_debug};

    ghost debug_output = { component_debug };

    fn fmt<W: fmt::Write>(&self, f: &mut fmt::Formatter<W>) -> fmt::Result {
        match self {
            GrokComponent::RegularExpression { string, .. } => write!(f, "{string:?}"),
            GrokComponent::GrokPattern {
                name,
                alias,
                extract,
                definition,
                ..
            } => write!(
                f,
                "%{{ name={name:?} alias={alias:?} capture={extract:?} definition={definition:?} }}"
            ),
            GrokComponent::PatternError(_) => fmt::Display::fmt(self, f),
        }
    }
}

/// Writes regular text and placeholders as they are, and a fault as `<error FAULT>`.
impl fmt::Display for GrokComponent<'_> {
    ghost use Rattle.grok_parser.specs.Texts.{component_text, IsPieceText};

    ghost output = { component_text };

    fn fmt<W: fmt::Write>(&self, f: &mut fmt::Formatter<W>) -> fmt::Result
        ensures writes { DisplaysOnOk W.write_str_gives f.old result (component_text self.now) f.new }
        ensures any { IsPlainFormatter f.old → IsOk result → (shown : List ℕ) × IsPieceText (piece_view self.now) shown
            × HasWritten W.write_str_gives f.old shown f.new }
    {
        match self {
            GrokComponent::RegularExpression { string, .. } => f.write_str(string),
            GrokComponent::GrokPattern { pattern, .. } => f.write_str(pattern),
            GrokComponent::PatternError(e) => {
                f.write_str("<error ")?;
                fmt::Debug::fmt(e, f)?;
                f.write_str(">")
            }
        }
    }
}

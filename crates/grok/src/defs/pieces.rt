//! The pieces of a text, whether it is split now or was split before.
ghost use Rattle.std.specs.Prelude.{◌≡◌};
ghost use Rattle.grok_parser.specs.Pieces.{pieces};
ghost use Rattle.grok_parser.specs.Views.{piece_view};

use crate::defs::definition::Definition;
use crate::defs::spans::{Span, read_span};
use grok_parser::parser::{GrokComponent, GrokSplit, grok_split};
use std::marker::Model;

/// Where the pieces come from.
#[derive(Drop)]
enum Source<'a> {
    Split(GrokSplit<'a>),
    Kept { text: &'a str, spans: &'a [Span] },
}

/// An iterator over the pieces of a text.
#[derive(Drop)]
pub(crate) struct Pieces<'a> {
    source: Source<'a>,
}

impl<'a> Model for Pieces<'a> {
    ghost use Rattle.std.specs.Prelude.{List};
    ghost use Rattle.grok_parser.specs.Pieces.{Piece};

    ghost Value = { List Piece };

    ghost use Rattle.grok.specs.steps.Sources.{pieces_left, IsSource};

    ghost view = { λ p. pieces_left p.source };

    ghost invariant = { λ p. IsSource p.source };
}

pub(crate) fn pieces_of<'a>(text: &'a str) -> Pieces<'a>
    ensures { result ≡ pieces text.now }
{
    Pieces {
        source: Source::Split(grok_split(text)),
    }
}

pub(crate) fn pieces_kept<'a>(stored: &'a Definition) -> Pieces<'a>
    ensures { result ≡ pieces stored.now }
{
    Pieces {
        source: Source::Kept {
            text: stored.text(),
            spans: stored.spans(),
        },
    }
}

impl<'a> Iterator for Pieces<'a> {
    type Item = GrokComponent<'a>;

    ghost use Rattle.std.specs.Iterator.{YieldsFirstBy, item_count};

    ghost next_gives = { YieldsFirstBy piece_view (λ s. s) };

    ghost remaining = { item_count (λ s. s) };

    fn next(&mut self) -> Option<GrokComponent<'a>> {
        match &mut self.source {
            Source::Split(split) => split.next(),
            Source::Kept { text, spans } => {
                let (first, rest) = spans.split_first()?;
                let piece = read_span(*text, *first);
                *spans = rest;
                Some(piece)
            }
        }
    }
}

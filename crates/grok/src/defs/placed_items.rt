//! The items of a text, each with the byte range of its piece.
ghost use Rattle.std.specs.Prelude.{◌≡◌, [], ◌∷◌, ◌++◌, List, IfOk, MatchOption};
ghost use Rattle.std.specs.FinMap as finite;
ghost use Rattle.grok.specs.Tree.{Definitions, Item as ItemView, items_of, meaning_text};
ghost use Rattle.grok.specs.Items.{item_view, meaning_view};
ghost use Rattle.grok_parser.specs.Views.{piece_view};
ghost use Rattle.grok.specs.FaultLocations.{IsPieceAt, end_of};
ghost use Rattle.grok.specs.steps.PlacedItems.{HasRead, IsOfLibrary, left_in};

use crate::defs::Grok;
use crate::defs::definition::Definition;
use crate::defs::items::{Item, Meaning, item_of};
use crate::defs::pieces::{Pieces, pieces_kept, pieces_of};
use grok_parser::parser::GrokComponent;
use std::alloc::AllocError;
use std::collections::BTreeMap;
use std::mem;
use std::ops::Range;

/// An item, and the byte range of its piece.
#[derive(Drop)]
pub(crate) struct PlacedItem<'a> {
    pub item: Item<'a>,
    pub range: Range<usize>,
}

/// The remaining items of a text, as [`Items`](crate::defs::items::Items) has them, with their byte
/// ranges.
#[derive(Drop)]
pub(crate) struct PlacedItems<'a> {
    pub text: &'a str,
    grok: &'a Grok,
    source: Pieces<'a>,
    written: BTreeMap<&'a str, &'a str>,
    /// The byte position where the next piece begins.
    begin: usize,
}

fn end_of(piece: &GrokComponent<'_>, text: &str) -> usize
    ensures { result ≡ end_of text.now (piece_view piece.now) }
{
    match piece {
        GrokComponent::RegularExpression { range, .. } => range.end,
        GrokComponent::GrokPattern { range, .. } => range.end,
        GrokComponent::PatternError(_) => text.len(),
    }
}

impl<'a> PlacedItems<'a> {
    pub fn of_text(grok: &'a Grok, text: &'a str) -> PlacedItems<'a>
        ensures read { HasRead (finite.get grok.now) [] result }
        ensures text { result.text ≡ text.entry }
        ensures left { left_in result ≡ items_of (finite.get grok.now) text.now }
    {
        PlacedItems {
            text,
            grok,
            source: pieces_of(text),
            written: BTreeMap::new(grok.alloc()),
            begin: 0,
        }
    }

    pub fn of_stored(grok: &'a Grok, stored: &'a Definition) -> PlacedItems<'a>
        ensures read { HasRead (finite.get grok.now) [] result }
        ensures text { result.text.now ≡ stored.now }
        ensures left { left_in result ≡ items_of (finite.get grok.now) stored.now }
    {
        PlacedItems {
            text: stored.text(),
            grok,
            source: pieces_kept(stored),
            written: BTreeMap::new(grok.alloc()),
            begin: 0,
        }
    }

    pub fn enter(&mut self, grok: &'a Grok, meaning: Meaning<'a>) -> PlacedItems<'a>
        ensures around { result ≡ self.old }
        ensures read { HasRead (finite.get grok.now) [] self.new }
        ensures text { self.new.text.now ≡ meaning_text (meaning_view meaning.entry) }
        ensures left { left_in self.new ≡ items_of (finite.get grok.now) (meaning_text (meaning_view meaning.entry)) }
    {
        let inner = match meaning {
            Meaning::Inline(text) => PlacedItems::of_text(grok, text),
            Meaning::Stored(stored) => PlacedItems::of_stored(grok, stored),
        };
        mem::replace(self, inner)
    }

    pub fn next(&mut self) -> Result<Option<PlacedItem<'a>>, AllocError>
        ensures left { IfOk result (λ found. MatchOption found (left_in self.old ≡ [])
            (λ placed. left_in self.old ≡ item_view placed.item ∷ left_in self.new)) }
        ensures text { IfOk result (λ found. self.new.text ≡ self.old.text) }
        ensures stands { IfOk result (λ found. (stored : Definitions) (before : List ItemView) →
            HasRead stored before self.old → MatchOption found
            (items_of stored self.old.text.now ≡ before)
            (λ placed. IsPieceAt stored self.old.text.now before
            placed.range.start placed.range.end (item_view placed.item)
            × IsOfLibrary stored (item_view placed.item)
            × HasRead stored (before ++ item_view placed.item ∷ []) self.new)) }
    {
        let Some(piece) = self.source.next() else {
            return Ok(None);
        };
        let begin = self.begin;
        let end = end_of(&piece, self.text);
        let item = item_of(self.grok, &mut self.written, piece)?;
        self.begin = end;
        Ok(Some(PlacedItem {
            item,
            range: begin..end,
        }))
    }
}

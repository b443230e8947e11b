//! The pieces of a text, with their placeholders resolved to definitions.

ghost use Rattle.std.specs.Prelude.{◌≡◌, drop, [], ◌∷◌, Option, Some, option_map, IfOk, OnOk, MatchOption, List, ℕ, not, ◌&&◌, map, filter_map, if◌then◌else◌};
ghost use Rattle.std.specs.Str.{bytes_eq};
ghost use Rattle.std.specs.FinMap as finite;
ghost use Rattle.grok_parser.specs.Pieces.{Piece, pieces};
ghost use Rattle.grok_parser.specs.Views.{piece_view};
ghost use Rattle.grok.specs.Tree.{no_definitions, items_of, items_after, is_absent, resolved, meaning_text, definition_of};
ghost use Rattle.grok.specs.Keys.{is_capturing};
ghost use Rattle.grok.specs.Maps.{pair_texts};
ghost use Rattle.grok.specs.Items.{item_view, label_view, meaning_view, written_in};
ghost use Rattle.std.specs.Borrow.{Bor};

use crate::defs::Grok;
use crate::defs::definition::Definition;
use crate::defs::pieces::{Pieces, pieces_kept, pieces_of};
use crate::errors::fault::Fault;
use grok_parser::parser::GrokComponent;
use std::alloc::{AllocError, Global};
use std::collections::BTreeMap;
use std::marker::Model;

/// The name, alias and extract of a placeholder.
#[derive(Clone, Copy)]
pub(crate) struct Label<'a> {
    pub name: &'a str,
    pub alias: &'a str,
    pub extract: &'a str,
}

impl Label<'_> {
    pub fn is_capturing(self, with_alias_only: bool) -> bool
        ensures { result ≡ is_capturing with_alias_only (label_view self.entry) }
    {
        !(with_alias_only && self.alias.is_empty())
    }
}

/// What a placeholder stands for.
#[derive(Clone, Copy)]
pub(crate) enum Meaning<'a> {
    /// An inline definition that is written in the same text.
    Inline(&'a str),
    /// The stored definition of its name.
    Stored(&'a Definition),
}

impl<'a> Meaning<'a> {
    pub fn text(self) -> &'a str
        ensures { result.now ≡ meaning_text (meaning_view self.entry) }
    {
        match self {
            Meaning::Inline(text) => text,
            Meaning::Stored(stored) => stored.text(),
        }
    }
}

/// A piece whose placeholder is resolved to its definition.
#[derive(Clone, Copy)]
pub(crate) enum Item<'a> {
    Text(&'a str),
    Fault(Fault<'a>),
    Placeholder(Label<'a>, Meaning<'a>),
}

/// The remaining items of a text, and the inline definitions that were read in it so far.
#[derive(Drop)]
pub(crate) struct Items<'a> {
    grok: &'a Grok,
    source: Pieces<'a>,
    written: BTreeMap<&'a str, &'a str>,
}

impl<'a> Model for Items<'a> {
    ghost use Rattle.std.specs.Prelude.{List};
    ghost use Rattle.std.specs.FinMap as finite;
    ghost use Rattle.grok.specs.Tree.{Item, items_after};
    ghost use Rattle.grok.specs.Items.{written_in};

    ghost Value = { List Item };

    ghost view = { λ s. items_after (finite.get s.grok.now) (written_in s.written) s.source };
}

fn open_label<'a>(grok: &'a Grok, label: Label<'a>, written: Option<&'a str>) -> Item<'a>
    ensures { item_view result ≡ resolved (label_view label.entry)
        (option_map (λ (t : Bor (List ℕ)). t.now) written.entry)
        (finite.get grok.now label.entry.name.now) }
{
    match written {
        Some(text) => Item::Placeholder(label, Meaning::Inline(text)),
        None => match grok.stored(label.name) {
            Some(stored) => Item::Placeholder(label, Meaning::Stored(stored)),
            None => Item::Fault(Fault::Missing(label.name)),
        },
    }
}

fn write_definition<'a>(
    written: &mut BTreeMap<&'a str, &'a str>,
    name: &'a str,
    definition: &'a str,
) -> Result<(), AllocError>
    ensures { OnOk result ((other : List ℕ) → written_in written.new other
        ≡ (if bytes_eq name.now other && not
        (is_absent definition.now) then Some definition.now else written_in written.old other)) }
{
    if !definition.is_empty() {
        written.insert(name, definition)?;
    }
    Ok(())
}

/// `written` has the inline definitions of the pieces before this one. If this piece has one, it is
/// stored there too.
pub(super) fn item_of<'a>(
    grok: &'a Grok,
    written: &mut BTreeMap<&'a str, &'a str>,
    piece: GrokComponent<'a>,
) -> Result<Item<'a>, AllocError>
    ensures { IfOk result (λ item. (rest : List Piece) →
        items_after (finite.get grok.now) (written_in written.old) (piece_view piece.entry ∷ rest)
        ≡ item_view item ∷ items_after (finite.get grok.now) (written_in written.new) rest) }
{
    match piece {
        GrokComponent::RegularExpression { string, .. } => Ok(Item::Text(string)),
        GrokComponent::PatternError(fault) => Ok(Item::Fault(Fault::Malformed(fault))),
        GrokComponent::GrokPattern {
            name,
            alias,
            extract,
            definition,
            ..
        } => {
            write_definition(written, name, definition)?;
            let label = Label {
                name,
                alias,
                extract,
            };
            Ok(open_label(grok, label, written.get(&name).copied()))
        }
    }
}

impl<'a> Items<'a> {
    fn new(alloc: Global, grok: &'a Grok, source: Pieces<'a>) -> Items<'a>
        ensures { result ≡ items_after (finite.get grok.now) no_definitions source.entry }
    {
        Items {
            grok,
            source,
            written: BTreeMap::new(alloc),
        }
    }

    pub fn of_text(alloc: Global, grok: &'a Grok, text: &'a str) -> Items<'a>
        ensures { result ≡ items_of (finite.get grok.now) text.now }
    {
        Items::new(alloc, grok, pieces_of(text))
    }

    pub fn of_stored(alloc: Global, grok: &'a Grok, stored: &'a Definition) -> Items<'a>
        ensures { result ≡ items_of (finite.get grok.now) stored.now }
    {
        Items::new(alloc, grok, pieces_kept(stored))
    }

    pub fn pass_over(&mut self, count: usize) -> Result<(), AllocError>
        ensures { OnOk result (self.new ≡ drop count self.old) }
    {
        'items: for _index in 0..count {
            self.next()?;
        }
        Ok(())
    }

    pub fn next(&mut self) -> Result<Option<Item<'a>>, AllocError>
        ensures { IfOk result
            (λ found. MatchOption found ((self.old ≡ []) × (self.new ≡ []))
            (λ item. self.old ≡ item_view item ∷ self.new)) }
    {
        match self.source.next() {
            None => Ok(None),
            Some(piece) => Ok(Some(item_of(self.grok, &mut self.written, piece)?)),
        }
    }
}

impl Grok {
    /// Returns what the placeholders of a text stand for: the name of each and its definition, in
    /// reading order. Placeholders without a definition are left out.
    pub fn definitions_of<'a>(
        &'a self,
        text: &'a str,
    ) -> Result<Vec<(&'a str, &'a str)>, AllocError>
        ensures { IfOk result (λ found. map pair_texts found.items
            ≡ filter_map definition_of (items_of (finite.get self.now) text.now)) }
    {
        let mut found = Vec::new(self.alloc());
        let mut items = Items::of_text(self.alloc(), self, text);
        'items: while let Some(item) = items.next()? {
            if let Item::Placeholder(label, meaning) = item {
                found.push((label.name, meaning.text()))?;
            }
        }
        Ok(found)
    }
}

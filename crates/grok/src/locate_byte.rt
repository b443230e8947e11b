//! Finds the pieces that write bytes of an expanded text, without expanding the pattern.
ghost use Rattle.std.specs.Prelude.{◌≡◌, ◌<◌, ◌+◌, List, [], ◌∷◌, IfOk, IsTrue, IsFalse};
ghost use Rattle.std.specs.FinMap as finite;
ghost use Rattle.grok.specs.Tree.{Event as EventView, first_structural, tree};
ghost use Rattle.grok.specs.Items.{item_view};
ghost use Rattle.grok.specs.steps.Events.{event_view};
ghost use Rattle.grok.specs.Expanded.{expanded};
ghost use Rattle.std.specs.List.{AllZip};
ghost use Rattle.grok.specs.steps.MeasureCache.{HasCorrectCache};
ghost use Rattle.grok.specs.steps.FullMeasures.{IsFullMeasure};
ghost use Rattle.grok.specs.ByteLocations.{LocatesByte};
ghost use Rattle.grok.specs.steps.Searches.{PassesMore, StopsAt};
ghost use Rattle.grok.specs.steps.ByteSearches.{IsSizeOf, IsPartOfItem, HasPassedBytes, WritesByte};

use crate::defs::Grok;
use crate::defs::definition::Definition;
use crate::defs::items::Item;
use crate::descend::{Search, descend};
use crate::expand::events::Event;
use crate::generated_name::CLOSE;
use crate::location::Location;
use crate::measure::Measure;
use crate::measure::full_measure::FullMeasure;
use crate::measure::measurer::Measurer;
use crate::measure::partial_size::{
    PartialSize, add, has_byte, offset_after, size_of_head, size_of_text,
};
use crate::settings::Settings;
use std::alloc::AllocError;

/// How a byte got into an expanded text: it was copied from regular text, or belongs to the group
/// that is written for a placeholder.
#[derive(Clone, Copy, PartialEq, Eq, Debug)]
pub enum WrittenByte {
    /// It was copied from a piece of regular text. The number is how many bytes after the first
    /// byte of that piece it stands.
    Copied(usize),
    /// It belongs to the group of a placeholder: to its start, such as `(?<_n_0>`, or to its `)`.
    OfGroup,
}

/// Where a byte of an expanded text comes from: the piece that stands for it, and what part of the
/// piece's text it is. [`Grok::locate_byte`] and [`Grok::locate_bytes`] return it.
#[derive(Clone, PartialEq, Eq, Debug, Drop)]
pub struct ByteLocation<'a> {
    pub location: Location<'a>,
    /// Whether the byte was copied from the piece, or belongs to the group of a placeholder.
    pub part: WrittenByte,
}

/// The search for the event that writes the byte at position `byte`. It passes over each definition
/// that ends at or before it and whose size is remembered.
#[derive(Drop)]
struct ByteSearch<'m, 'a> {
    measurer: &'m Measurer<'a>,
    byte: usize,
    /// The size of all that is written by the events that were passed over.
    before: PartialSize,
}

impl<'m, 'a> ByteSearch<'m, 'a> {
    fn size_of_event(&self, event: Event<'a>) -> PartialSize
        ensures { IsSizeOf self.now.measurer.now.settings.with_alias_only result (event_view event.entry ∷ []) }
    {
        match event {
            Event::Text(text) => size_of_text(text),
            Event::Open(label, _) => size_of_head(self.measurer.is_capturing(label)),
            Event::Close => size_of_text(CLOSE),
            Event::Fault(_) => size_of_text(""),
        }
    }

    fn pass_size(&mut self, size: PartialSize) -> bool
        ensures passed { IsTrue result → (es : List EventView) →
            IsSizeOf self.old.measurer.now.settings.with_alias_only size es →
            PassesMore HasPassedBytes self.old es self.new }
        ensures stopped { IsFalse result → (event : EventView) →
            IsSizeOf self.old.measurer.now.settings.with_alias_only size (event ∷ []) →
            StopsAt HasPassedBytes WritesByte self.old event }
        ensures same { IsFalse result → self.new ≡ self.old }
        ensures measurer { self.new.measurer ≡ self.old.measurer }
    {
        let after = add(self.before, size);
        if has_byte(after, self.byte) {
            return false;
        }
        self.before = after;
        true
    }
}

impl<'m, 'a> Search<'a> for ByteSearch<'m, 'a> {
    ghost definitions = { λ search. finite.get search.measurer.now.settings.grok.now };

    ghost IsReady = { λ search es. HasCorrectCache search.measurer.now };

    ghost HasPassed = { HasPassedBytes };

    ghost IsSought = { WritesByte };

    fn pass_event(&mut self, event: Event<'a>) -> Result<bool, AllocError> {
        let size = self.size_of_event(event);
        Ok(self.pass_size(size))
    }

    fn pass_definition(
        &mut self,
        name: &'a str,
        _definition: &'a Definition,
        levels: usize,
    ) -> Result<bool, AllocError> {
        match self.measurer.remembered_size(name, levels + 1) {
            Some(size) => Ok(self.pass_size(size)),
            None => Ok(false),
        }
    }
}

fn part_of_item(item: Item<'_>, offset: usize) -> WrittenByte
    ensures { IsPartOfItem offset (item_view item.entry) result }
{
    match item {
        Item::Placeholder(..) => WrittenByte::OfGroup,
        Item::Text(_) | Item::Fault(_) => WrittenByte::Copied(offset),
    }
}

/// A definition whose size `measurer` remembers is read again only if it is on the path, which has at
/// most `MAX_NESTING` definitions.
pub(crate) fn locate_written<'a>(
    measurer: &Measurer<'a>,
    pattern: &'a str,
    byte: usize,
) -> Result<Option<ByteLocation<'a>>, AllocError>
    requires cache { HasCorrectCache measurer.now }
    requires clean { first_structural (tree (finite.get measurer.now.settings.grok.now) pattern.now) ≡ None }
    ensures { IfOk result (LocatesByte (finite.get measurer.now.settings.grok.now)
        measurer.now.settings.with_alias_only pattern.now byte) }
{
    let grok = measurer.settings.grok;
    let mut search = ByteSearch {
        measurer,
        byte,
        before: size_of_text(""),
    };
    match descend(grok, &mut search, pattern)? {
        None => Ok(None),
        Some(place) => Ok(Some(ByteLocation {
            part: part_of_item(place.item, offset_after(search.before, byte)),
            location: place.location,
        })),
    }
}

fn locate_measured<'a>(
    found: &FullMeasure<'a>,
    pattern: &'a str,
    byte: usize,
) -> Result<Option<ByteLocation<'a>>, AllocError>
    requires { IsFullMeasure found.now.measurer.settings pattern.now found.now }
    ensures { IfOk result (LocatesByte (finite.get found.now.measurer.settings.grok.now)
        found.now.measurer.settings.with_alias_only pattern.now byte) }
{
    if let Measure::Fault(_) = found.measure {
        return Ok(None);
    }
    locate_written(&found.measurer, pattern, byte)
}

impl Grok {
    /// Finds the piece that writes a byte of the expanded text of a pattern. Returns `None` if the
    /// pattern has a structural fault, or if its expanded text has no byte at this position.
    ///
    /// Each definition is measured once. Then only the definitions on the path are read again, at
    /// most [`MAX_NESTING`](crate::MAX_NESTING) of them.
    pub fn locate_byte<'a>(
        &'a self,
        pattern: &'a str,
        with_alias_only: bool,
        byte: usize,
    ) -> Result<Option<ByteLocation<'a>>, AllocError>
        ensures { IfOk result (λ found.
            LocatesByte (finite.get self.now) with_alias_only pattern.now byte found) }
    {
        let settings = Settings {
            grok: self,
            with_alias_only,
        };
        let measured = FullMeasure::of_pattern(settings, pattern)?;
        locate_measured(&measured, pattern, byte)
    }

    /// Finds the pieces that write several bytes of the expanded text of a pattern. Returns for each
    /// byte, in their order, what [`Grok::locate_byte`] returns for it.
    ///
    /// Each definition is measured once for all of the bytes. Then for each byte only the pattern and
    /// the definitions on the path are read again, up to the piece.
    pub fn locate_bytes<'a>(
        &'a self,
        pattern: &'a str,
        with_alias_only: bool,
        bytes: &[usize],
    ) -> Result<Vec<Option<ByteLocation<'a>>>, AllocError>
        ensures { IfOk result (λ locations.
            AllZip (LocatesByte (finite.get self.now) with_alias_only pattern.now) bytes.now locations.items) }
    {
        let settings = Settings {
            grok: self,
            with_alias_only,
        };
        let measured = FullMeasure::of_pattern(settings, pattern)?;
        let mut locations = Vec::new(self.alloc());
        'bytes: for &byte in bytes {
            let location = locate_measured(&measured, pattern, byte)?;
            locations.push(location)?;
        }
        Ok(locations)
    }
}

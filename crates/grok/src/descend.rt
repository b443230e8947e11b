//! Finds one place in the tree of a pattern: goes through its events in order, passes over each
//! definition of which enough is known, and enters the others.
ghost use Rattle.std.specs.Prelude.{◌≡◌, ◌<◌, ◌^◌, List, [], ◌∷◌, Some, IfOk, IsTrue, IsFalse, if◌then◌else◌};
ghost use Rattle.std.specs.FinMap as finite;
ghost use Rattle.grok.specs.Tree.{PlaceholderItem, events, inside, items_of, meaning_text, tree};
ghost use Rattle.grok.specs.Items.{item_view, label_view, meaning_view};
ghost use Rattle.grok.specs.steps.Events.{event_view};
ghost use Rattle.grok.specs.steps.PlacedItems.{IsOfLibrary};
ghost use Rattle.grok.specs.FaultLocations.{path_view};
ghost use Rattle.grok.specs.steps.Searches.{IsReadyFor, Passes, StopsAt};
ghost use Rattle.grok.specs.steps.Descents.{IsEventStep, IsStep, path_of, FindsPlace};

use crate::defs::Grok;
use crate::defs::definition::Definition;
use crate::defs::items::{Item, Label, Meaning};
use crate::defs::placed_items::{PlacedItem, PlacedItems};
use crate::errors::fault::{Fault, MAX_NESTING};
use crate::expand::events::Event;
use crate::location::{Location, PathStep};
use std::alloc::AllocError;

/// A search for an event in the tree of a pattern.
pub(crate) trait Search<'a> {
    ghost use Rattle.std.specs.Prelude.{◌≡◌, ◌<◌, ◌^◌, List, [], ◌∷◌, Some, IfOk, IsTrue, IsFalse, if◌then◌else◌};
    ghost use Rattle.grok.specs.Tree.{Definitions, Event as EventView, items_of, events, inside};
    ghost use Rattle.grok.specs.steps.Events.{event_view};
    ghost use Rattle.grok.specs.steps.Searches.{IsReadyFor, StaysReady, PassesMore, StopsAt};

    // The definitions that the tree is resolved with.
    ghost definitions: { Self → Definitions };

    // `IsReady now es`: the search can go on, if these events remain.
    ghost IsReady: { Self → List EventView → Type 0 };

    // `HasPassed start es now`: on its way from `start` to `now` the search passed over the events
    // `es`, and the sought event isn't among them.
    ghost HasPassed: { Self → List EventView → Self → Type 0 };

    // `IsSought start es event`: after the events `es`, this event is the sought one.
    ghost IsSought: { Self → List EventView → EventView → Type 0 };

    /// Passes over an event, unless it is the sought one. Returns whether it passed over it.
    fn pass_event(&mut self, event: Event<'a>) -> Result<bool, AllocError>
        requires { IsReadyFor IsReady self.old (event_view event ∷ []) }
        ensures passed { IfOk result (λ is_passed. IsTrue is_passed → PassesMore HasPassed self.old (event_view event.entry ∷ []) self.new) }
        ensures stopped { IfOk result (λ is_passed. IsFalse is_passed → StopsAt HasPassed IsSought self.old (event_view event.entry)) }
        ensures same { IfOk result (λ is_passed. IsFalse is_passed → self.new ≡ self.old) }
        ensures ready { IfOk result (λ is_passed. IsTrue is_passed → StaysReady IsReady self.old (event_view event.entry ∷ []) self.new) }
        ensures definitions { IfOk result (λ is_passed. definitions self.new ≡ definitions self.old) };

    /// Passes over a stored definition, whose placeholders may be nested `levels` levels deep, if
    /// it can be skipped. Returns whether it passed over it.
    fn pass_definition(
        &mut self,
        name: &'a str,
        definition: &'a Definition,
        levels: usize,
    ) -> Result<bool, AllocError>
        requires few { levels < 2 ^ 30 }
        requires ready { IsReadyFor IsReady self.old (events (inside (items_of (definitions self.old)) levels) (items_of (definitions self.old) definition.now)) }
        requires is { definitions self.old name.now ≡ Some definition.now }
        ensures passed { IfOk result (λ is_passed. PassesMore HasPassed self.old (if is_passed
            then events (inside (items_of (definitions self.old)) levels) (items_of (definitions self.old) definition.now)
            else []) self.new) }
        ensures ready { IfOk result (λ is_passed. StaysReady IsReady self.old (if is_passed
            then events (inside (items_of (definitions self.old)) levels) (items_of (definitions self.old) definition.now)
            else []) self.new) }
        ensures definitions { IfOk result (λ is_passed. definitions self.new ≡ definitions self.old) };
}

/// A piece of a text: where it stands, and its item.
#[derive(Drop)]
pub(crate) struct Place<'a> {
    pub location: Location<'a>,
    pub item: Item<'a>,
}

/// A text around the one that is being read: the search has entered one of its definitions.
#[derive(Drop)]
struct Opened<'a> {
    /// The placeholder whose definition is entered, and its name.
    placed: PlacedItem<'a>,
    name: &'a str,
    /// The items after that placeholder.
    items: PlacedItems<'a>,
}

/// What a search does at an item.
#[derive(Clone, Copy)]
enum Step<'a> {
    /// It passes over the item and what it stands for.
    Passed,
    /// The sought event is one of the item itself.
    Stopped,
    /// It passes over the beginning of a placeholder with this name, and enters its definition.
    Entered(&'a str, Meaning<'a>),
}

fn step_at_event<'a, S: Search<'a>>(
    search: &mut S,
    event: Event<'a>,
) -> Result<Step<'a>, AllocError>
    requires { IsReadyFor S.IsReady search.old (event_view event ∷ []) }
    ensures step { IfOk result (λ step. IsEventStep (Passes S.IsReady S.HasPassed) (StopsAt S.HasPassed S.IsSought) (event_view event.entry) step search.old search.new) }
    ensures definitions { IfOk result (λ step. S.definitions search.new ≡ S.definitions search.old) }
{
    if search.pass_event(event)? {
        Ok(Step::Passed)
    } else {
        Ok(Step::Stopped)
    }
}

fn pass_meaning<'a, S: Search<'a>>(
    search: &mut S,
    label: Label<'a>,
    meaning: Meaning<'a>,
    levels: usize,
) -> Result<bool, AllocError>
    requires few { levels < 2 ^ 30 }
    requires ready { IsReadyFor S.IsReady search.old (events (inside (items_of (S.definitions search.old)) levels) (items_of (S.definitions search.old) (meaning_text (meaning_view meaning)))) }
    requires is { IsOfLibrary (S.definitions search.old) (PlaceholderItem (label_view label) (meaning_view meaning)) }
    ensures passed { IfOk result (λ is_passed. Passes S.IsReady S.HasPassed search.old (if is_passed
        then events (inside (items_of (S.definitions search.old)) levels) (items_of (S.definitions search.old) (meaning_text (meaning_view meaning.entry)))
        else []) search.new) }
    ensures definitions { IfOk result (λ is_passed. S.definitions search.new ≡ S.definitions search.old) }
{
    match meaning {
        Meaning::Inline(_) => Ok(false),
        Meaning::Stored(definition) => search.pass_definition(label.name, definition, levels),
    }
}

fn step_at_item<'a, S: Search<'a>>(
    search: &mut S,
    item: Item<'a>,
    levels: usize,
) -> Result<Step<'a>, AllocError>
    requires few { levels < 2 ^ 30 }
    requires ready { IsReadyFor S.IsReady search.old (events (inside (items_of (S.definitions search.old)) levels) (item_view item ∷ [])) }
    requires is { IsOfLibrary (S.definitions search.old) (item_view item) }
    ensures step { IfOk result (λ step. IsStep (Passes S.IsReady S.HasPassed) (StopsAt S.HasPassed S.IsSought) (S.definitions search.old) levels
        (item_view item.entry) step search.old search.new) }
    ensures definitions { IfOk result (λ step. S.definitions search.new ≡ S.definitions search.old) }
{
    match item {
        Item::Text(text) => step_at_event(search, Event::Text(text)),
        Item::Fault(fault) => step_at_event(search, Event::Fault(fault)),
        Item::Placeholder(label, meaning) => {
            let is_passed = search.pass_event(Event::Open(label, meaning))?;
            if !is_passed {
                return Ok(Step::Stopped);
            }
            if levels == 0 {
                return step_at_event(search, Event::Fault(Fault::TooDeep));
            }
            if pass_meaning(search, label, meaning, levels - 1)? {
                step_at_event(search, Event::Close)
            } else {
                Ok(Step::Entered(label.name, meaning))
            }
        }
    }
}

fn place_of<'a>(
    grok: &'a Grok,
    around: &[Opened<'a>],
    text: &'a str,
    placed: PlacedItem<'a>,
) -> Result<Place<'a>, AllocError>
    ensures path { IfOk result (λ place. path_view place.location.path.items ≡ path_of around.now) }
    ensures text { IfOk result (λ place. place.location.text ≡ text.entry) }
    ensures placed { IfOk result (λ place. (place.location.range ≡ placed.entry.range) × (place.item ≡ placed.entry.item)) }
{
    let mut path = Vec::new(grok.alloc());
    'texts: for opened in around {
        path.push(PathStep {
            name: opened.name,
            range: opened.placed.range.start..opened.placed.range.end,
        })?;
    }
    let location = Location {
        path,
        text,
        range: placed.range,
    };
    Ok(Place {
        location,
        item: placed.item,
    })
}

pub(crate) fn descend<'a, S: Search<'a>>(
    grok: &'a Grok,
    search: &mut S,
    pattern: &'a str,
) -> Result<Option<Place<'a>>, AllocError>
    requires ready { S.IsReady search.old (tree (finite.get grok.now) pattern.now) }
    requires library { S.definitions search.old ≡ finite.get grok.now }
    requires begins { S.HasPassed search.old [] search.old }
    ensures found { IfOk result (λ found. FindsPlace S.HasPassed S.IsSought (finite.get grok.now) pattern.now
        found search.old search.new) }
    ensures definitions { IfOk result (λ found. S.definitions search.new ≡ S.definitions search.old) }
{
    let mut around = Vec::new(grok.alloc());
    let mut inner = PlacedItems::of_text(grok, pattern);
    'items: loop {
        match inner.next()? {
            Some(placed) => match step_at_item(search, placed.item, MAX_NESTING - around.len())? {
                Step::Passed => {}
                Step::Stopped => return Ok(Some(place_of(grok, &around, inner.text, placed)?)),
                Step::Entered(name, meaning) => {
                    let items = inner.enter(grok, meaning);
                    around.push(Opened {
                        placed,
                        name,
                        items,
                    })?;
                }
            },
            None => {
                let Some(outer) = around.pop() else {
                    return Ok(None);
                };
                inner = outer.items;
                let is_passed = search.pass_event(Event::Close)?;
                if !is_passed {
                    return Ok(Some(place_of(grok, &around, inner.text, outer.placed)?));
                }
            }
        }
    }
}

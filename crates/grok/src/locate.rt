//! Finds where the first structural fault of a pattern stands, without expanding it.
ghost use Rattle.std.specs.Prelude.{◌≡◌, IfOk, IfSome, option_map, None, true};
ghost use Rattle.std.specs.FinMap as finite;
ghost use Rattle.grok.specs.Tree.{tree, first_structural};
ghost use Rattle.grok.specs.Items.{fault_view, item_view};
ghost use Rattle.grok.specs.steps.MeasureCache.{HasCorrectCache};
ghost use Rattle.grok.specs.steps.Events.{event_view};
ghost use Rattle.grok.specs.FaultLocations.{IsFaultOf};
ghost use Rattle.grok.specs.steps.FaultSearches.{is_fault, fault_of_item};

use crate::defs::definition::Definition;
use crate::defs::items::Item;
use crate::descend::{Search, descend};
use crate::errors::fault::Fault;
use crate::expand::events::Event;
use crate::location::Location;
use crate::measure::measurer::Measurer;
use std::alloc::AllocError;

/// The first structural fault of a pattern, and where the piece with it stands. A malformed
/// placeholder takes the rest of its text.
#[derive(Drop)]
pub(crate) struct FaultLocation<'a> {
    /// The fault, as [`Grok::measure`](crate::Grok::measure) reports it.
    pub fault: Fault<'a>,
    pub location: Location<'a>,
}

fn is_fault(event: Event<'_>) -> bool
    ensures { result ≡ is_fault (event_view event.entry) }
{
    match event {
        Event::Fault(_) => true,
        Event::Text(_) => false,
        Event::Open(..) => false,
        Event::Close => false,
    }
}

/// The search for the first structural fault. It passes over each definition without a fault.
#[derive(Drop)]
struct FaultSearch<'a> {
    measurer: Measurer<'a>,
}

impl<'a> Search<'a> for FaultSearch<'a> {
    ghost definitions = { λ search. finite.get search.measurer.settings.grok.now };

    ghost IsReady = { λ search es. HasCorrectCache search.measurer };

    ghost HasPassed = { λ start es now. first_structural es ≡ None };

    ghost IsSought = { λ start es event. is_fault event ≡ true };

    fn pass_event(&mut self, event: Event<'a>) -> Result<bool, AllocError> {
        Ok(!is_fault(event))
    }

    fn pass_definition(
        &mut self,
        name: &'a str,
        definition: &'a Definition,
        levels: usize,
    ) -> Result<bool, AllocError> {
        let fault = self
            .measurer
            .fault_of_definition(name, definition, levels + 1)?;
        Ok(fault.is_none())
    }
}

fn fault_of_item<'a>(item: Item<'a>) -> Fault<'a>
    ensures { fault_view result ≡ fault_of_item (item_view item.entry) }
{
    match item {
        Item::Fault(fault) => fault,
        Item::Text(_) | Item::Placeholder(..) => Fault::TooDeep,
    }
}

/// Each definition that `measurer` doesn't remember is measured once. Then only the definitions on the
/// path are read again, at most `MAX_NESTING` of them.
pub(crate) fn locate_fault<'a>(
    measurer: Measurer<'a>,
    pattern: &'a str,
) -> Result<Option<FaultLocation<'a>>, AllocError>
    requires { HasCorrectCache measurer }
    ensures fault { IfOk result (λ found. option_map (λ at. fault_view at.fault) found
        ≡ first_structural (tree (finite.get measurer.entry.settings.grok.now) pattern.now)) }
    ensures location { IfOk result (λ found. IfSome found (λ at.
        IsFaultOf (finite.get measurer.entry.settings.grok.now) pattern.now (fault_view at.fault) at.location)) }
{
    let grok = measurer.settings.grok;
    let mut search = FaultSearch { measurer };
    match descend(grok, &mut search, pattern)? {
        None => Ok(None),
        Some(place) => Ok(Some(FaultLocation {
            fault: fault_of_item(place.item),
            location: place.location,
        })),
    }
}

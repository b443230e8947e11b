//! Reads a pattern up to its first structural fault, and lists the base keys that its placeholders
//! use. It skips the known part of a definition, and goes on with the item after it. So the 1,023
//! levels of a circle don't read its definitions again.
ghost use Rattle.std.specs.Prelude.{◌≡◌, ◌<◌, ℕ, List, length, map, IfOk};
ghost use Rattle.std.specs.FinMap as finite;
ghost use Rattle.grok.specs.Tree.{tree as tree_of, reached};
ghost use Rattle.grok.specs.Keys.{capturing, base_key as base_key_of};
ghost use Rattle.grok.specs.Items.{item_view};
ghost use Rattle.grok.specs.steps.Rows.{flat, AreBelow};
ghost use Rattle.grok.specs.steps.KnownParts.{resolve, IsSoundItem, IsKnownPartOf, AreKnown};
ghost use Rattle.grok.specs.steps.RowReading.{StepsAtText, StepsAtItem};

use crate::defs::deferred_items::DeferredItems;
use crate::defs::items::{Item, Items, Meaning};
use crate::errors::fault::MAX_NESTING;
use crate::expand::known_parts::{KnownPart, KnownParts, push_use};
use crate::expand::rows::Row;
use crate::settings::Settings;
use std::alloc::AllocError;
use std::mem;

/// What to do at an item before the first structural fault.
#[derive(Drop)]
enum ReadStep<'a> {
    /// Go on: neither the item nor its definition has a structural fault.
    Skip,
    /// Read these items of its definition next. The item itself has no structural fault.
    Enter(DeferredItems<'a>),
    /// Stop: the item is the first structural fault, or is nested too deeply.
    Stop,
}

fn open_after_known<'a>(
    rows: &mut Vec<Row<'a>>,
    part: &KnownPart<'a>,
    items: Items<'a>,
) -> Result<ReadStep<'a>, AllocError>
    ensures { IfOk result (λ step. (settings : Settings) (done : List (List (List ℕ))) (text : List ℕ)
        (levels : ℕ) → IsKnownPartOf settings done text part.now → part.now.height < levels
        → items.entry ≡ resolve settings text
        → StepsAtText settings done levels text rows.old.items rows.new.items step) }
{
    rows.push(Row::Part(part.index))?;
    match part.stop {
        None => Ok(ReadStep::Skip),
        Some(item) => {
            let rest = DeferredItems::known_first(item, part.read, items);
            Ok(ReadStep::Enter(rest))
        }
    }
}

fn read_item<'a>(
    settings: Settings<'a>,
    parts: &KnownParts<'a>,
    rows: &mut Vec<Row<'a>>,
    item: Item<'a>,
    levels: usize,
) -> Result<ReadStep<'a>, AllocError>
    ensures { IfOk result (λ step. IsSoundItem settings.entry (item_view item.entry)
        → (known : AreKnown settings.entry parts.now) → StepsAtItem settings.entry known.done levels
        (item_view item.entry) rows.old.items rows.new.items step) }
{
    let (label, meaning) = match item {
        Item::Text(_) => return Ok(ReadStep::Skip),
        Item::Fault(_) => return Ok(ReadStep::Stop),
        Item::Placeholder(label, meaning) => (label, meaning),
    };
    push_use(settings, rows, label)?;
    if levels == 0 {
        return Ok(ReadStep::Stop);
    }
    let Meaning::Stored(stored) = meaning else {
        // An inline definition has no placeholder and no fault.
        return Ok(ReadStep::Skip);
    };
    let items = Items::of_stored(settings.grok.alloc(), settings.grok, stored);
    match parts.of_name(label.name) {
        Some(part) if part.height < levels => open_after_known(rows, part, items),
        _ => Ok(ReadStep::Enter(DeferredItems::of_items(items))),
    }
}

pub(crate) fn read_rows<'a>(
    settings: Settings<'a>,
    parts: &KnownParts<'a>,
    pattern: &'a str,
) -> Result<Vec<Row<'a>>, AllocError>
    requires { AreKnown settings parts.now }
    ensures keys { IfOk result (λ rows. (known : AreKnown settings.entry parts.now)
        → flat known.done rows.items ≡ map base_key_of (capturing settings.entry.with_alias_only
        (reached (tree_of (finite.get settings.entry.grok.now) pattern.now)))) }
    ensures below { IfOk result (λ rows. AreBelow (length parts.now.rows.items) rows.items) }
{
    let alloc = settings.grok.alloc();
    let mut rows = Vec::new(alloc);
    let mut around = Vec::new(alloc);
    let mut items = DeferredItems::of_items(Items::of_text(alloc, settings.grok, pattern));
    'items: loop {
        match items.next()? {
            Some(item) => {
                match read_item(settings, parts, &mut rows, item, MAX_NESTING - around.len())? {
                    ReadStep::Skip => {}
                    ReadStep::Enter(inner) => around.push(mem::replace(&mut items, inner))?,
                    ReadStep::Stop => return Ok(rows),
                }
            }
            None => match around.pop() {
                Some(outer) => items = outer,
                None => return Ok(rows),
            },
        }
    }
}

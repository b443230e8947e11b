//! Reads each definition once, up to its first item that may have a fault, and lists the base keys
//! that its placeholders use.
ghost use Rattle.std.specs.Prelude.{◌≡◌, ℕ, ◌<◌, ◌≤◌, List, [], Some, IfOk, OnOk, IfSome};
ghost use Rattle.std.specs.Option.{option_copied};
ghost use Rattle.std.specs.FinMap as finite;
ghost use Rattle.grok.specs.Tree as tree;
ghost use Rattle.grok.specs.Items.{label_view, item_view};
ghost use Rattle.grok.specs.steps.KnownParts.{own_keys, AddKeys, IsSoundItem, with_item, IsKnownOf, IsReadOf, IsKnownPartOf, known_part_of, AreKnown};

use crate::defs::Grok;
use crate::defs::definition::Definition;
use crate::defs::items::{Item, Items, Label, Meaning};
use crate::errors::fault::MAX_NESTING;
use crate::expand::numbered::base_key;
use crate::expand::rows::Row;
use crate::settings::Settings;
use std::alloc::{AllocError, Global};
use std::collections::BTreeMap;

/// The keys and the height of some items.
#[derive(Drop)]
struct KnownItems<'a> {
    /// The base keys that their capturing placeholders use.
    rows: Vec<Row<'a>>,
    /// How many levels they need: if at least that many are left, they have no structural fault.
    height: usize,
}

/// What was read of a definition: all of its items, or those before the first one that may have a
/// fault.
#[derive(Drop)]
struct ReadText<'a> {
    known: KnownItems<'a>,
    /// The item at which reading stopped, or `None` if all items are known.
    stop: Option<Item<'a>>,
    /// How many items were read: those that are known, and the one at which reading stopped.
    read: usize,
}

/// The known part of a definition: all of its items, or those before the first one that may have a
/// fault.
#[derive(Clone, Copy)]
pub(crate) struct KnownPart<'a> {
    /// The index of its rows in `KnownParts::rows`.
    pub index: usize,
    /// How many levels its items need: if at least that many are left, they have no structural
    /// fault.
    pub height: usize,
    /// The item after the known ones, or `None` if all items are known.
    pub stop: Option<Item<'a>>,
    /// How many items were read: those that are known, and the one after them.
    pub read: usize,
}

/// The known parts of definitions.
#[derive(Drop)]
pub(crate) struct KnownParts<'a> {
    /// The rows of each part. They name only parts that stand before it.
    pub rows: Vec<Vec<Row<'a>>>,
    by_name: BTreeMap<&'a str, KnownPart<'a>>,
}

pub(crate) fn push_use<'a>(
    settings: Settings<'a>,
    rows: &mut Vec<Row<'a>>,
    label: Label<'a>,
) -> Result<(), AllocError>
    ensures { OnOk result ((done : List (List (List ℕ))) → AddKeys done rows.old.items rows.new.items
        (own_keys settings.entry (label_view label.entry))) }
{
    if label.is_capturing(settings.with_alias_only) {
        rows.push(Row::Use(base_key(label)))?;
    }
    Ok(())
}

impl<'a> KnownItems<'a> {
    fn new(alloc: Global) -> KnownItems<'a>
        ensures rows { result.rows.items ≡ [] }
        ensures height { result.height ≡ 0 }
    {
        KnownItems {
            rows: Vec::new(alloc),
            height: 0,
        }
    }

    fn add_open(
        &mut self,
        settings: Settings<'a>,
        label: Label<'a>,
        height: usize,
    ) -> Result<(), AllocError>
        requires { height < 1023 }
        ensures rows { OnOk result ((done : List (List (List ℕ))) → AddKeys done self.old.rows.items
            self.new.rows.items (own_keys settings.entry (label_view label.entry))) }
        ensures height { OnOk result ((height < self.new.height) × (self.old.height ≤ self.new.height)) }
    {
        push_use(settings, &mut self.rows, label)?;
        self.height = self.height.max(height + 1);
        Ok(())
    }
}

impl<'a> KnownParts<'a> {
    pub fn of_name(&self, name: &'a str) -> Option<&KnownPart<'a>>
        ensures kept { option_copied result ≡ known_part_of self.now.by_name name.now }
        ensures part { IfSome result (λ part. (settings : Settings) (known : AreKnown settings self.now)
            (text : List ℕ) → finite.get settings.grok.now name.now ≡ Some text
            → IsKnownPartOf settings known.done text part.now) }
    {
        self.by_name.get(&name)
    }

    /// Returns `false` and adds nothing if the item may have a fault.
    fn read_item(
        &self,
        settings: Settings<'a>,
        item: Item<'a>,
        known: &mut KnownItems<'a>,
    ) -> Result<bool, AllocError>
        ensures { IfOk result (λ is_known. IsSoundItem settings.entry (item_view item.entry)
            → (parts : AreKnown settings.entry self.now) (items : List tree.Item)
            → IsKnownOf settings.entry parts.done items known.old → IsKnownOf settings.entry parts.done
            (with_item is_known items (item_view item.entry)) known.new) }
    {
        match item {
            Item::Text(_) => Ok(true),
            Item::Fault(_) => Ok(false),
            Item::Placeholder(label, meaning) => match meaning {
                Meaning::Inline(_) => {
                    known.add_open(settings, label, 0)?;
                    Ok(true)
                }
                Meaning::Stored(_) => match self.of_name(label.name) {
                    Some(part) if part.stop.is_none() && part.height < MAX_NESTING => {
                        known.add_open(settings, label, part.height)?;
                        known.rows.push(Row::Part(part.index))?;
                        Ok(true)
                    }
                    _ => Ok(false),
                },
            },
        }
    }

    /// Returns `None` if it reads more than `usize::MAX` items.
    fn read_text(
        &self,
        settings: Settings<'a>,
        stored: &'a Definition,
    ) -> Result<Option<ReadText<'a>>, AllocError>
        ensures { IfOk result (λ found. IfSome found (λ text. (parts : AreKnown settings.entry self.now)
            → IsReadOf settings.entry parts.done stored.now text)) }
    {
        let alloc = settings.grok.alloc();
        let mut items = Items::of_stored(alloc, settings.grok, stored);
        let mut text = ReadText {
            known: KnownItems::new(alloc),
            stop: None,
            read: 0,
        };
        'items: while let Some(item) = items.next()? {
            let Some(read) = text.read.checked_add(1) else {
                return Ok(None);
            };
            text.read = read;
            if !self.read_item(settings, item, &mut text.known)? {
                text.stop = Some(item);
                return Ok(Some(text));
            }
        }
        Ok(Some(text))
    }

    /// Keeps nothing if more than `usize::MAX` items would be read.
    fn add_name(&mut self, settings: Settings<'a>, name: &'a str) -> Result<(), AllocError>
        requires { AreKnown settings self.old }
        ensures { OnOk result (AreKnown settings.entry self.new) }
    {
        let Some(stored) = settings.grok.stored(name) else {
            return Ok(());
        };
        if let Some(text) = self.read_text(settings, stored)? {
            let part = KnownPart {
                index: self.rows.len(),
                height: text.known.height,
                stop: text.stop,
                read: text.read,
            };
            self.rows.push(text.known.rows)?;
            self.by_name.insert(name, part)?;
        }
        Ok(())
    }

    /// Each name should come after the names that its definition uses. Otherwise its definition is known
    /// only up to the first placeholder whose name wasn't read before.
    pub fn of_names(
        settings: Settings<'a>,
        names: &[(usize, &'a str)],
    ) -> Result<KnownParts<'a>, AllocError>
        ensures { IfOk result (λ parts. AreKnown settings.entry parts) }
    {
        let alloc = settings.grok.alloc();
        let mut parts = KnownParts {
            rows: Vec::new(alloc),
            by_name: BTreeMap::new(alloc),
        };
        'names: for &(_, name) in names {
            parts.add_name(settings, name)?;
        }
        Ok(parts)
    }
}

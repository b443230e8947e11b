//! The remaining items of a text, which is read only when they are needed.
ghost use Rattle.std.specs.Prelude.{◌≡◌, [], ◌∷◌, drop, IfOk, MatchOption};
ghost use Rattle.grok.specs.Items.{item_view};

use crate::defs::items::{Item, Items};
use std::alloc::AllocError;
use std::marker::Model;
use std::mem;

/// The remaining items of a text. The next one may be known before the text is read.
#[derive(Drop)]
pub(crate) struct DeferredItems<'a> {
    known: Option<Item<'a>>,
    /// How many items of the text are skipped once it is read: those that came before, and the known
    /// one.
    skipped: usize,
    text: Items<'a>,
}

impl<'a> Model for DeferredItems<'a> {
    ghost use Rattle.std.specs.Prelude.{List, drop};
    ghost use Rattle.grok.specs.Tree.{Item};
    ghost use Rattle.grok.specs.Items.{known_first};

    ghost Value = { List Item };

    ghost view = { λ s. known_first s.known (drop s.skipped s.text) };
}

impl<'a> DeferredItems<'a> {
    pub fn of_items(text: Items<'a>) -> DeferredItems<'a>
        ensures { result ≡ text.entry }
    {
        DeferredItems {
            known: None,
            skipped: 0,
            text,
        }
    }

    pub fn known_first(known: Item<'a>, skipped: usize, text: Items<'a>) -> DeferredItems<'a>
        ensures { result ≡ item_view known.entry ∷ drop skipped text.entry }
    {
        DeferredItems {
            known: Some(known),
            skipped,
            text,
        }
    }

    pub fn next(&mut self) -> Result<Option<Item<'a>>, AllocError>
        ensures { IfOk result
            (λ found. MatchOption found ((self.old ≡ []) × (self.new ≡ []))
            (λ item. self.old ≡ item_view item ∷ self.new)) }
    {
        if let Some(item) = self.known.take() {
            return Ok(Some(item));
        }
        let skipped = mem::replace(&mut self.skipped, 0);
        self.text.pass_over(skipped)?;
        self.text.next()
    }
}

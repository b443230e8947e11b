//! The names of a library.

ghost use Rattle.std.specs.Prelude.{map, string_bytes};
ghost use Rattle.grok.specs.Captures.{text_of};

use crate::defs::definition::Definition;
use std::collections::btree_map::Keys;
use std::marker::Model;

/// An iterator over the names of a library, in byte order. [`Grok::names`](crate::Grok::names)
/// returns it.
#[derive(Drop)]
pub struct Names<'a> {
    pub(crate) keys: Keys<'a, String, Definition>,
}

impl<'a> Model for Names<'a> {
    ghost use Rattle.std.specs.Prelude.{ℕ, List, map, string_bytes};

    ghost Value = { List (List ℕ) };

    ghost view = { λ names. map string_bytes names.keys };
}

impl<'a> Iterator for Names<'a> {
    type Item = &'a str;

    ghost use Rattle.std.specs.Iterator.{YieldsFirstBy, item_count};

    ghost next_gives = { YieldsFirstBy text_of (λ left. left) };

    ghost remaining = { item_count (λ left. left) };

    fn next(&mut self) -> Option<&'a str> {
        let name = self.keys.next()?;
        Some(name.as_str())
    }
}

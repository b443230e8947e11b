//! Regex engines: each is built from a text, and matches lines.
ghost use Rattle.std.specs.Prelude.{◌≡◌, ℕ, List, Option, length, IfOk};
ghost use Rattle.grok.specs.Captures.{name_texts, found_texts, IsMatchIn};

pub(crate) mod matcher;
pub(crate) mod regex_engine;
pub(crate) mod regex_matcher;

use std::alloc::{AllocError, Global};

/// Why no engine was built.
#[derive(Clone, Copy, PartialEq, Eq, Debug)]
pub enum Refusal {
    /// The engine refuses the text.
    Refused,
    /// An allocation failed.
    Memory,
}

/// A regex engine that was built from a text and matches lines.
///
/// Its model is the text that it was built from, the names of its groups, and for each line either
/// no match or the text of each group. Group 0 is the whole match.
pub trait Engine: Sized + Drop {
    /// The text that it was built from.
    ghost source_of: { Self → List ℕ };

    /// The name of each group, from group 0 on.
    ghost group_names: { Self → List (Option (List ℕ)) };

    /// For each line `None` if nothing matches, or else the text of each group from group 0 on,
    /// with `None` for a group that took no part in the match.
    ghost finds: { Self → List ℕ → Option (List (Option (List ℕ))) };

    /// The texts that `build` may refuse.
    ghost may_refuse: { List ℕ → Type 0 };

    /// Builds the engine for a text, or returns why it cannot be built.
    fn build(alloc: Global, text: &str) -> Result<Self, Refusal>
        ensures source { IfOk result (λ engine. source_of engine ≡ text.now) }
        ensures refused { result ≡ Err Refusal.Refused → may_refuse text.now };

    /// Returns the text that it was built from.
    fn text(&self) -> &str
        ensures { result.now ≡ source_of self.now };

    /// Returns the name of each group, from group 0 on.
    fn names(&self) -> &[Option<String>]
        ensures { name_texts result.now ≡ group_names self.now };

    /// Returns the text of each group of the first match in the line, or `None` if nothing matches.
    /// Each text is a slice of the line. It is `None` for a group that took no part in the match.
    fn captures<'t>(
        &self,
        alloc: Global,
        line: &'t str,
    ) -> Result<Option<Vec<Option<&'t str>>>, AllocError>
        ensures { IfOk result (λ found. IsMatchIn line.now (finds self.now)
            (length (group_names self.now)) (found_texts found)) };
}

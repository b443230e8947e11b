//! The key of a capturing placeholder.
ghost use Rattle.std.specs.Prelude.{◌≡◌, ℕ, List, string_bytes};
ghost use Rattle.grok.specs.Keys.{numbered};

use crate::expand::numbered::base_of_numbered;

/// The key of a placeholder that captures. [`Grok::keys`](crate::Grok::keys) returns one for each.
#[derive(PartialEq, Eq, Debug, Drop)]
pub struct PlaceholderKey {
    /// The key, such as `x[2]`.
    pub key: String,
    /// How many placeholders before it that capture have the same base key, such as 2.
    pub number: usize,
}

impl PlaceholderKey {
    /// Returns the base key, such as `x` for the key `x[2]` with the number 2: the alias of the
    /// placeholder, or its name if it has no alias.
    pub fn base(&self) -> &str
        ensures { (base : List ℕ) → string_bytes self.now.key ≡ numbered base self.now.number
            → result.now ≡ base }
    {
        let key = self.key.as_str();
        if self.number == 0 {
            return key;
        }
        base_of_numbered(key).unwrap_or(key)
    }
}

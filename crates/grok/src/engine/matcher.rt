//! Searches that keep what they need from line to line.
ghost use Rattle.std.specs.Prelude.{◌≡◌, ℕ, List, Option, Some, None, length, vec_len, if◌then◌else◌, IfOk, IsTrue};
ghost use Rattle.grok.specs.Locations.{AreLocationsIn, located_texts};

use crate::engine::Engine;
use std::alloc::{AllocError, Global};

/// A search that keeps its caches from line to line. What it finds in a line doesn't depend on the
/// lines before.
pub trait EngineMatcher: Sized + Drop {
    /// For each line `None` if nothing matches, or else the text of each group from group 0 on,
    /// with `None` for a group that took no part in the match.
    ghost finds: { Self → List ℕ → Option (List (Option (List ℕ))) };

    /// The number of groups, with group 0.
    ghost group_count: { Self → ℕ };

    /// Searches for the first match in the line, and returns whether there is one. If so,
    /// `locations` has the start and the end of each group in bytes, from group 0 on, with `None`
    /// for a group that took no part in the match. If not, and after an error, the contents of
    /// `locations` are unspecified.
    fn captures_read(
        &mut self,
        locations: &mut Vec<Option<(usize, usize)>>,
        line: &str,
    ) -> Result<bool, AllocError>
        ensures answer { IfOk result (λ is_match. (if is_match
            then Some (located_texts line.now locations.new.items) else None)
            ≡ finds self.old line.now) }
        ensures all_groups { IfOk result (λ is_match. IsTrue is_match
            → vec_len locations.new ≡ group_count self.old) }
        ensures inside { IfOk result (λ is_match. IsTrue is_match
            → AreLocationsIn line.now locations.new.items) }
        ensures same { finds self.new ≡ finds self.old }
        ensures count { group_count self.new ≡ group_count self.old };
}

/// An engine whose searches can keep their caches. If an engine has nothing to keep, its search
/// calls the engine for each line.
pub trait HasMatcher<'e>: Engine {
    type Matcher: EngineMatcher;

    /// Makes a search that finds in each line what the engine finds.
    fn matcher(&'e self, alloc: Global) -> Result<Self::Matcher, AllocError>
        ensures answers { IfOk result
            (λ matcher. Self.Matcher.finds matcher ≡ Self.finds self.now) }
        ensures count { IfOk result
            (λ matcher. Self.Matcher.group_count matcher ≡ length (Self.group_names self.now)) };
}

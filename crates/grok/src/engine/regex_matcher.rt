//! The search of `regex` that keeps its caches.

use crate::engine::matcher::{EngineMatcher, HasMatcher};
use crate::engine::regex_engine::{RegexEngine, write_locations};
use std::alloc::{AllocError, Global};

/// A search of `regex`, which keeps its caches.
pub struct RegexMatcher<'e> {
    matcher: regex::Matcher<'e>,
}

// Not derived, for the same reason as that of `RegexEngine`.
impl<'e> Drop for RegexMatcher<'e> {
    fn drop(self) {
        let RegexMatcher { matcher: _matcher } = self;
    }
}

impl<'e> EngineMatcher for RegexMatcher<'e> {
    ghost use Rattle.std.specs.Prelude.{length};
    ghost use Rattle.regex.specs.Strings.{matcher_pattern, matcher_names};
    ghost use Rattle.grok.specs.RegexFinds.{captures_in};

    ghost finds = { λ matcher. captures_in (matcher_pattern matcher.matcher)
        (length (matcher_names matcher.matcher)) };

    ghost group_count = { λ matcher. length (matcher_names matcher.matcher) };

    fn captures_read(
        &mut self,
        locations: &mut Vec<Option<(usize, usize)>>,
        line: &str,
    ) -> Result<bool, AllocError> {
        match self.matcher.captures(line) {
            Some(found) => {
                write_locations(locations, &found)?;
                Ok(true)
            }
            None => Ok(false),
        }
    }
}

impl<'e> HasMatcher<'e> for RegexEngine {
    type Matcher = RegexMatcher<'e>;

    fn matcher(&'e self, alloc: Global) -> Result<RegexMatcher<'e>, AllocError> {
        let matcher = self.regex.matcher(alloc)?;
        Ok(RegexMatcher { matcher })
    }
}

//! A search of a pattern that is kept from line to line, with the match that it found last.
ghost use Rattle.std.specs.Prelude.{◌≡◌, Some, length, IfOk, IsTrue};
ghost use Rattle.std.specs.Option.{is_some};
ghost use Rattle.grok.specs.Captures.{IsMatchIn};
ghost use Rattle.grok.specs.LineSearches.{HasMatchIn};

use crate::engine::Engine;
use crate::engine::matcher::{EngineMatcher, HasMatcher};
use crate::matches::PatternOf;
use crate::matches::borrowed::MatchesRef;
use crate::matches::groups::Located;
use std::alloc::{AllocError, Global};
use std::marker::Model;

/// Searches line after line for a pattern, and keeps the match that it found last. It finds the same
/// as the pattern, and keeps the engine's caches from one line to the next.
/// [`PatternOf::line_search`] makes it.
///
/// It is for callers that search first and read the match later, such as those that try several
/// patterns on a line. For others [`MatcherOf`](crate::MatcherOf) does both in one call.
#[derive(Drop)]
pub struct LineSearchOf<'p, E: HasMatcher<'p>> {
    pattern: &'p PatternOf<E>,
    matcher: E::Matcher,
    /// The byte range of each group, as the last search found it.
    ranges: Vec<Option<(usize, usize)>>,
    ghost answers: { E.Matcher.finds matcher ≡ E.finds pattern.now.engine },
    ghost count: { E.Matcher.group_count matcher ≡ length (E.group_names pattern.now.engine) },
}

impl<'p, E: HasMatcher<'p>> Model for LineSearchOf<'p, E> {
    ghost use Rattle.std.specs.Prelude.{◌≡◌, length};
    ghost use Rattle.grok.specs.LineSearches.{LineSearchValue, line_search_code};

    ghost Value = { LineSearchValue E };

    ghost coded = { line_search_code E.code };

    ghost view = { λ search. record { pattern = search.pattern.now; ranges = search.ranges.items } };
}

impl<'p, E: HasMatcher<'p>> LineSearchOf<'p, E> {
    ghost use Rattle.grok.specs.BorrowedMatches.{borrowed_line, borrowed_keys, borrowed_captures, borrowed_locations};

    pub(crate) fn new(
        alloc: Global,
        pattern: &'p PatternOf<E>,
        engine: &'p E,
    ) -> Result<LineSearchOf<'p, E>, AllocError>
        requires { engine.now ≡ pattern.now.engine }
        ensures { IfOk result (λ search. search.pattern ≡ pattern.now) }
    {
        let matcher = engine.matcher(alloc)?;
        let ranges = Vec::with_capacity(alloc, engine.names().len())?;
        Ok(LineSearchOf {
            pattern,
            matcher,
            ranges,
        })
    }

    /// Searches the line, and returns whether the engine finds a match. The search then has this match,
    /// and [`last_match`](LineSearchOf::last_match) returns it. Only the engine may allocate. After an error the
    /// match of an earlier line is lost.
    pub fn search(&mut self, line: &str) -> Result<bool, AllocError>
        ensures is_match { IfOk result (λ is_match. is_match ≡ is_some (E.finds self.old.pattern.engine line.now)) }
        ensures found { IfOk result (λ is_match. IsTrue is_match → HasMatchIn line.now (E.finds self.new.pattern.engine)
            (length (E.group_names self.new.pattern.engine)) self.new) }
        ensures same { self.new.pattern ≡ self.old.pattern }
    {
        self.matcher.captures_read(&mut self.ranges, line)
    }

    /// Returns the match that the last search found, which was a search of this line. It is borrowed
    /// until the next search, and has the same pairs as the one that [`PatternOf::match_against`]
    /// returns.
    pub fn last_match<'m>(&'m self, line: &'m str) -> MatchesRef<'m>
    where
        'p: 'm,
        requires { HasMatchIn line.now (E.finds self.now.pattern.engine)
            (length (E.group_names self.now.pattern.engine)) self.now }
        ensures captures { IsMatchIn line.now (E.finds self.now.pattern.engine)
            (length (E.group_names self.now.pattern.engine)) (Some (borrowed_captures result)) }
        ensures keys { borrowed_keys result ≡ self.now.pattern.keys }
        ensures line { borrowed_line result ≡ line.now }
        ensures locations { borrowed_locations result ≡ self.now.ranges }
    {
        let pattern = self.pattern;
        MatchesRef::new(&pattern.keys, Located::new(line, &self.ranges))
    }
}

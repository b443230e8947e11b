//! A matcher of a pattern that is made once and used for many lines.
ghost use Rattle.std.specs.Prelude.{◌≡◌, [], length, option_map, IfOk, IfSome};
ghost use Rattle.std.specs.Borrow.{sem};
ghost use Rattle.std.specs.Io.BufRead.{Rests};
ghost use mir.Syntax.{named};
ghost use Rattle.grok.specs.Captures.{IsMatchIn};

use crate::engine::matcher::HasMatcher;
use crate::matches::PatternOf;
use crate::matches::borrowed::MatchesRef;
use crate::matches::line_search::LineSearchOf;
use std::alloc::{AllocError, Global};
use std::marker::Model;

/// A matcher of a pattern. It returns the same as the pattern, and keeps the engine's caches from
/// one line to the next. [`PatternOf::matcher`] makes it.
#[derive(Drop)]
pub struct MatcherOf<'p, E: HasMatcher<'p>> {
    search: LineSearchOf<'p, E>,
}

impl<'p, E: HasMatcher<'p>> Model for MatcherOf<'p, E> {
    ghost use Rattle.std.specs.Prelude.{◌≡◌, length};
    ghost use Rattle.grok.specs.Answers.{PatternValue, pattern_code};

    ghost Value = { PatternValue E };

    ghost coded = { pattern_code E.code };

    ghost view = { λ matcher. matcher.search.pattern };
}

impl<'p, E: HasMatcher<'p>> MatcherOf<'p, E> {
    ghost use Rattle.grok.specs.contracts.matches.matcher.MatcherOf.{the_row};
    ghost use Rattle.grok.specs.BorrowedMatches.{borrowed_line, borrowed_keys, borrowed_captures};

    pub(crate) fn new(
        alloc: Global,
        pattern: &'p PatternOf<E>,
        engine: &'p E,
    ) -> Result<MatcherOf<'p, E>, AllocError>
        requires { engine.now ≡ pattern.now.engine }
        ensures { IfOk result (λ matcher. matcher ≡ pattern.now) }
    {
        let search = LineSearchOf::new(alloc, pattern, engine)?;
        Ok(MatcherOf { search })
    }

    /// Returns the first match in the line, or `None` if the engine finds none. The match is
    /// borrowed until the next call, and has the same pairs as the one that
    /// [`PatternOf::match_against`] returns. Only the engine may allocate.
    pub fn find<'m>(&'m mut self, text: &'m str) -> Result<Option<MatchesRef<'m>>, AllocError>
    where
        'p: 'm,
        ensures captures { IfOk result (λ found. IsMatchIn text.now (E.finds self.old.engine)
            (length (E.group_names self.old.engine)) (option_map borrowed_captures found)) }
        ensures keys { IfOk result
            (λ found. IfSome found (λ matches. borrowed_keys matches ≡ self.old.keys)) }
        ensures line { IfOk result (λ found. IfSome found (λ matches. borrowed_line matches ≡ text.now)) }

        // When the borrow ends, the matcher is what it was.
        ensures* same { sem 𝓛 (Rests (the_row (record { mir = named 0; lft = [] }) E.row
            E.Matcher.row E.Engine E.Matcher.EngineMatcher)
            self.entry (λ last. last ≡ self.entry.now)) }
    {
        if !self.search.search(text)? {
            return Ok(None);
        }
        Ok(Some(self.search.last_match(text)))
    }
}

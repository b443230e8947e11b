//! Matches that are borrowed from a matcher until its next line.
ghost use Rattle.std.specs.Prelude.{◌≡◌, IfSome, option_map, slice_range};
ghost use Rattle.std.specs.List.Sorted.{IsStrictlySortedBy};
ghost use Rattle.std.specs.Map.{keys_of};
ghost use Rattle.std.specs.Cmp.Lexicographic.{slice_cmp};
ghost use Rattle.std.specs.Ordering.{nat_cmp};
ghost use Rattle.grok.specs.Captures.{text_of};
ghost use Rattle.grok.specs.Debugs.{debug_pairs};
ghost use Rattle.grok.specs.Answers.{value_of, walk};
ghost use Rattle.grok.specs.Locations.{IsLocationIn, location_of};

use crate::key_table::KeyTable;
use crate::matches::groups::{GroupTexts, Located};
use crate::matches::{MatchesIter, write_pairs};
use std::fmt;
use std::ops::Range;

/// A match of a pattern in a line, borrowed from the matcher that found it. It has the same values
/// as a [`MatchesOf`](crate::MatchesOf), and owns nothing.
#[derive(Clone, Copy)]
pub struct MatchesRef<'m> {
    keys: &'m KeyTable,
    located: Located<'m>,
}

impl<'m> MatchesRef<'m> {
    ghost use Rattle.grok.specs.Groups.{texts_in_line};
    ghost use Rattle.grok.specs.BorrowedMatches.{borrowed_line, borrowed_keys, borrowed_captures, borrowed_locations};

    pub(crate) fn new(keys: &'m KeyTable, located: Located<'m>) -> MatchesRef<'m>
        ensures line { borrowed_line result ≡ located.entry.line.now }
        ensures keys { borrowed_keys result ≡ keys.now }
        ensures captures { borrowed_captures result ≡ texts_in_line located.entry }
        ensures locations { borrowed_locations result ≡ located.entry.locations.now }
    {
        MatchesRef { keys, located }
    }

    /// Returns the text that the group of a key captured, or `None` if there is no such key or that
    /// group took no part in the match.
    pub fn get(&self, name: &str) -> Option<&'m str>
        ensures { option_map text_of result ≡ value_of (borrowed_keys self.now)
            (borrowed_captures self.now) name.now }
    {
        let keys = self.keys;
        let group = keys.get(name)?;
        self.located.get(group)
    }

    /// Returns the byte range of the line that the group of a key captured, or `None` if there is no
    /// such key or that group took no part in the match.
    pub fn range(&self, name: &str) -> Option<Range<usize>>
        ensures at { option_map (λ range. (range.start, range.end)) result
            ≡ location_of (borrowed_keys self.now) (borrowed_locations self.now) name.now }
        ensures text { option_map (λ range. slice_range (borrowed_line self.now) range.start range.end) result
            ≡ value_of (borrowed_keys self.now) (borrowed_captures self.now) name.now }
        ensures inside { IfSome result (λ range.
            IsLocationIn (borrowed_line self.now) (range.start, range.end)) }
    {
        let keys = self.keys;
        let group = keys.get(name)?;
        self.located.range(group)
    }

    /// Returns an iterator over the keys whose group took part in the match, each with its text, in
    /// the byte order of the keys.
    pub fn iter(&self) -> MatchesIter<'m>
        ensures pairs { result ≡ walk (borrowed_keys self.now) (borrowed_captures self.now) }
        ensures sorted { IsStrictlySortedBy (slice_cmp nat_cmp) (keys_of result) }
    {
        MatchesIter::new(self.keys, GroupTexts::Located(self.located))
    }
}

impl<'r, 'm> IntoIterator for &'r MatchesRef<'m> {
    ghost use Rattle.grok.specs.BorrowedMatches.{borrowed_keys, borrowed_captures};

    type Item = (&'m str, &'m str);

    type IntoIter = MatchesIter<'m>;

    ghost into_iter_gives = { λ matches pairs. (pairs ≡ walk (borrowed_keys matches.now)
        (borrowed_captures matches.now))
        × IsStrictlySortedBy (slice_cmp nat_cmp) (keys_of pairs) };

    fn into_iter(self) -> MatchesIter<'m> {
        self.iter()
    }
}

/// Writes the pairs, in the order of `iter`.
impl fmt::Debug for MatchesRef<'_> {
    ghost use Rattle.grok.specs.BorrowedMatches.{borrowed_keys, borrowed_captures};

    ghost debug_output = { λ matches. debug_pairs (walk (borrowed_keys matches)
        (borrowed_captures matches)) };

    fn fmt<W: fmt::Write>(&self, f: &mut fmt::Formatter<W>) -> fmt::Result {
        if f.alternate() {
            return f.debug_map().entries(self.iter()).finish();
        }
        write_pairs(f, self.iter())
    }
}

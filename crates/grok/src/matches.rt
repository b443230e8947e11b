//! Compiled patterns, and their matches in lines.
ghost use Rattle.std.specs.Prelude.{◌≡◌, ℕ, List, Option, length, map, option_map, IfOk, IfSome};
ghost use Rattle.std.specs.BTreeMap.{get_by_text};
ghost use Rattle.std.specs.FinMap as finite;
ghost use Rattle.std.specs.String.{string_bytes};
ghost use Rattle.std.specs.List.Sorted.{IsStrictlySortedBy, IsPermutation, IsNonDecreasingBy};
ghost use Rattle.std.specs.Map.{keys_of};
ghost use Rattle.std.specs.Cmp.Lexicographic.{slice_cmp};
ghost use Rattle.std.specs.Ordering.{nat_cmp};
ghost use Rattle.grok.specs.Captures.{text_of, name_texts, capture_texts, IsMatchIn};
ghost use Rattle.std.specs.Fmt.{DisplaysOnOk};
ghost use Rattle.grok.specs.Maps.{pair_texts};
ghost use Rattle.grok.specs.Debugs.{debug_pairs};
ghost use Rattle.grok.specs.KeyNumbers.{key_and_number};
ghost use Rattle.grok.specs.KeyTable.{entry_of_group, group_in};
ghost use Rattle.grok.specs.Answers.{extract_texts, value_of, walk};

pub(crate) mod borrowed;
pub(crate) mod groups;
pub(crate) mod line_search;
pub(crate) mod matcher;

use crate::debug_map::{write_entry, write_map};
use crate::engine::Engine;
use crate::engine::matcher::HasMatcher;
use crate::expand::placeholder_key::PlaceholderKey;
use crate::key_table::{KeyEntries, KeyTable};
use crate::matches::groups::{GroupTexts, capture_of};
use crate::matches::line_search::LineSearchOf;
use crate::matches::matcher::MatcherOf;
use std::alloc::{AllocError, Global};
use std::collections::BTreeMap;
use std::fmt;
use std::marker::Model;

/// A compiled pattern: the engine, the key of each group, and the extracts. It owns all that it
/// holds, and can match any number of lines.
#[derive(Drop)]
pub struct PatternOf<E> {
    alloc: Global,
    engine: E,
    /// The keys of the placeholders that capture, in reading order.
    placeholders: Vec<PlaceholderKey>,
    keys: KeyTable,
    extracts: BTreeMap<String, String>,
}

impl<E> Model for PatternOf<E> {
    ghost use Rattle.std.specs.Prelude.{map};
    ghost use Rattle.grok.specs.Answers.{PatternValue, pattern_code, extract_texts};
    ghost use Rattle.grok.specs.KeyNumbers.{key_and_number};

    ghost Value = { PatternValue E };

    ghost coded = { pattern_code E.code };

    ghost view = { λ pattern. record {
      engine = pattern.engine;
      placeholders = map key_and_number pattern.placeholders.items;
      keys = pattern.keys;
      extracts = extract_texts pattern.extracts.entries;
    } };
}

/// A match of a pattern in a line.
#[derive(Drop)]
pub struct MatchesOf<'a, E> {
    pattern: &'a PatternOf<E>,
    captures: Vec<Option<&'a str>>,
}

impl<'a, E> Model for MatchesOf<'a, E> {
    ghost use Rattle.grok.specs.Answers.{MatchesValue, matches_code};
    ghost use Rattle.grok.specs.Captures.{capture_texts};

    ghost Value = { MatchesValue E };

    ghost coded = { matches_code E.code };

    ghost view = { λ found. record {
      pattern = found.pattern.now;
      captures = capture_texts found.captures.items;
    } };
}

impl<E: Engine> PatternOf<E> {
    #[tactic(auto, using(crate::proofs::KeyTables::WalksAreSorted::extract_found))]
    pub(crate) fn new(
        alloc: Global,
        engine: E,
        placeholders: Vec<PlaceholderKey>,
        keys: KeyTable,
        extracts: BTreeMap<String, String>,
    ) -> PatternOf<E>
        ensures engine { result.engine ≡ engine }
        ensures placeholders { result.placeholders ≡ map key_and_number placeholders.items }
        ensures keys { result.keys ≡ keys }
        ensures extracts { (name : List ℕ) → finite.get result.extracts name
            ≡ option_map string_bytes (get_by_text extracts name) }
    {
        PatternOf {
            alloc,
            engine,
            placeholders,
            keys,
            extracts,
        }
    }

    /// Returns the expanded text, which the engine was built from.
    pub fn text(&self) -> &str
        ensures { result.now ≡ E.source_of self.now.engine }
    {
        self.engine.text()
    }

    /// Returns the first match in the line, or `None` if the engine finds none.
    pub fn match_against<'a>(
        &'a self,
        text: &'a str,
    ) -> Result<Option<MatchesOf<'a, E>>, AllocError>
        ensures captures { IfOk result (λ found. IsMatchIn text.now (E.finds self.now.engine)
            (length (E.group_names self.now.engine))
            (option_map (λ matches. matches.captures) found)) }
        ensures pattern { IfOk result
            (λ found. IfSome found (λ matches. matches.pattern ≡ self.now)) }
    {
        let Some(captures) = self.engine.captures(self.alloc, text)? else {
            return Ok(None);
        };
        Ok(Some(MatchesOf::new(self, captures)))
    }

    /// Makes a matcher for many lines. It returns the same as `match_against`, and keeps the
    /// engine's caches from line to line.
    pub fn matcher<'p>(&'p self) -> Result<MatcherOf<'p, E>, AllocError>
    where
        E: HasMatcher<'p>,
        ensures { IfOk result (λ matcher. matcher ≡ self.now) }
    {
        MatcherOf::new(self.alloc, self, &self.engine)
    }

    /// Makes a search for many lines. It finds the same as `match_against`, and keeps the match that it
    /// found last.
    pub fn line_search<'p>(&'p self) -> Result<LineSearchOf<'p, E>, AllocError>
    where
        E: HasMatcher<'p>,
        ensures { IfOk result (λ search. search.pattern ≡ self.now) }
    {
        LineSearchOf::new(self.alloc, self, &self.engine)
    }

    /// Returns an iterator over the keys in byte order, each once.
    pub fn capture_names(&self) -> CaptureNames<'_>
        ensures keys { result ≡ keys_of self.now.keys }
        ensures sorted { IsStrictlySortedBy (slice_cmp nat_cmp) (result) }
    {
        CaptureNames {
            entries: self.keys.entries(),
        }
    }

    /// Returns the keys of the placeholders that capture, in reading order: what [`Grok::keys`](crate::Grok::keys)
    /// returns for the text that was compiled.
    pub fn placeholder_keys(&self) -> &[PlaceholderKey]
        ensures { map key_and_number result.now ≡ self.now.placeholders }
    {
        self.placeholders.as_slice()
    }

    fn keys_with_groups(&self) -> Result<Vec<(usize, &str)>, AllocError>
        ensures { IfOk result (λ keys. map entry_of_group keys.items ≡ self.now.keys) }
    {
        let mut keys = Vec::new(self.alloc);
        'keys: for (key, group) in self.keys.entries() {
            keys.push((group, key))?;
        }
        Ok(keys)
    }

    /// Returns each key of `capture_names` with the number of the engine's group that captures its values,
    /// in the order of the groups. So a key comes after the keys whose groups are around its own group.
    pub fn keys_by_group(&self) -> Result<Vec<(usize, &str)>, AllocError>
        ensures all { IfOk result (λ keys. IsPermutation self.now.keys (map entry_of_group keys.items)) }
        ensures sorted { IfOk result (λ keys. IsNonDecreasingBy (λ pair. pair.0) keys.items) }
    {
        let mut keys = self.keys_with_groups()?;
        keys.sort()?;
        Ok(keys)
    }

    /// Returns the number of the engine's group that captures the values of a key, or `None` if the pattern
    /// has no such key.
    pub fn group_of(&self, key: &str) -> Option<usize>
        ensures { result ≡ group_in self.now.keys key.now }
    {
        self.keys.get(key)
    }

    /// Returns the names of the engine's groups, in the order of their numbers. The first one is the
    /// whole match, and has none. The group of a placeholder that captures has a generated name, and
    /// a group that was written by hand as `(?<x>..)` has the name `x`.
    pub fn group_names(&self) -> &[Option<String>]
        ensures { name_texts result.now ≡ E.group_names self.now.engine }
    {
        self.engine.names()
    }

    /// Returns the extract of a key, or `None` if it has none. This doesn't depend on whether a
    /// group has that key.
    #[tactic(auto, using(crate::proofs::KeyTables::WalksAreSorted::extract_found))]
    pub fn get_extract(&self, name: &str) -> Option<&str>
        ensures { option_map text_of result ≡ finite.get self.now.extracts name.now }
    {
        match self.extracts.get(name) {
            Some(extract) => Some(extract.as_str()),
            None => None,
        }
    }
}

impl<'a, E: Engine> MatchesOf<'a, E> {
    pub(crate) fn new(pattern: &'a PatternOf<E>, captures: Vec<Option<&'a str>>) -> MatchesOf<'a, E>
        ensures pattern { result.pattern ≡ pattern.now }
        ensures captures { result.captures ≡ capture_texts captures.entry.items }
    {
        MatchesOf { pattern, captures }
    }

    /// Returns the text that the group of a key captured, or `None` if there is no such key or that
    /// group took no part in the match.
    pub fn get(&self, name: &str) -> Option<&str>
        ensures { option_map text_of result
            ≡ value_of self.now.pattern.keys self.now.captures name.now }
    {
        let pattern = self.pattern;
        let group = pattern.keys.get(name)?;
        capture_of(&self.captures, group)
    }

    /// Returns an iterator over the keys whose group took part in the match, each with its text, in
    /// the byte order of the keys.
    pub fn iter(&self) -> MatchesIter<'_>
        ensures pairs { result ≡ walk self.now.pattern.keys self.now.captures }
        ensures sorted { IsStrictlySortedBy (slice_cmp nat_cmp) (keys_of result) }
    {
        let pattern = self.pattern;
        MatchesIter::new(&pattern.keys, GroupTexts::Listed(self.captures.as_slice()))
    }

    /// Returns the pattern that matched.
    pub fn pattern(&self) -> &PatternOf<E>
        ensures { result.now ≡ self.now.pattern }
    {
        self.pattern
    }

    /// Returns the pairs of `iter` as a list, in its order.
    pub fn collect(&self, alloc: Global) -> Result<Vec<(&str, &str)>, AllocError>
        ensures { IfOk result
            (λ pairs. map pair_texts pairs.items ≡ walk self.now.pattern.keys self.now.captures) }
    {
        let mut pairs = Vec::new(alloc);
        'pairs: for pair in self.iter() {
            pairs.push(pair)?;
        }
        Ok(pairs)
    }

    /// Returns the pairs of `iter` as a map.
    pub fn collect_map(&self, alloc: Global) -> Result<BTreeMap<&str, &str>, AllocError>
        ensures { IfOk result
            (λ texts. map pair_texts texts.entries ≡ walk self.now.pattern.keys self.now.captures) }
    {
        let mut texts = BTreeMap::new(alloc);
        'pairs: for (name, text) in self.iter() {
            texts.insert(name, text)?;
        }
        Ok(texts)
    }
}

/// An iterator over the keys of a pattern. [`PatternOf::capture_names`] returns it.
#[derive(Drop)]
pub struct CaptureNames<'a> {
    entries: KeyEntries<'a>,
}

impl<'a> Model for CaptureNames<'a> {
    ghost use Rattle.std.specs.Prelude.{ℕ, List};
    ghost use Rattle.std.specs.Map.{keys_of};

    ghost Value = { List (List ℕ) };

    ghost view = { λ names. keys_of names.entries };
}

impl<'a> Iterator for CaptureNames<'a> {
    type Item = &'a str;

    ghost use Rattle.std.specs.Iterator.{YieldsFirstBy, item_count};

    ghost next_gives = { YieldsFirstBy text_of (λ left. left) };

    ghost remaining = { item_count (λ left. left) };

    fn next(&mut self) -> Option<&'a str> {
        let (name, _) = self.entries.next()?;
        Some(name)
    }
}

/// An iterator over the keys of a match whose group took part, with their texts.
/// [`MatchesOf::iter`] returns it.
#[derive(Drop)]
pub struct MatchesIter<'a> {
    entries: KeyEntries<'a>,
    groups: GroupTexts<'a>,
}

impl<'a> Model for MatchesIter<'a> {
    ghost use Rattle.std.specs.Prelude.{ℕ, List};
    ghost use Rattle.grok.specs.Answers.{walk};
    ghost use Rattle.grok.specs.Groups.{group_texts};

    ghost Value = { List (List ℕ × List ℕ) };

    ghost view = { λ left. walk left.entries (group_texts left.groups) };
}

impl<'a> MatchesIter<'a> {
    ghost use Rattle.grok.specs.Groups.{group_texts};

    pub(crate) fn new(keys: &'a KeyTable, groups: GroupTexts<'a>) -> MatchesIter<'a>
        ensures pairs { result ≡ walk keys.now (group_texts groups.entry) }
        ensures sorted { IsStrictlySortedBy (slice_cmp nat_cmp) (keys_of result) }
    {
        MatchesIter {
            entries: keys.entries(),
            groups,
        }
    }
}

impl<'a> Iterator for MatchesIter<'a> {
    type Item = (&'a str, &'a str);

    ghost use Rattle.std.specs.Iterator.{YieldsFirstBy, item_count};

    ghost next_gives = { YieldsFirstBy pair_texts (λ left. left) };

    ghost remaining = { item_count (λ left. left) };

    fn next(&mut self) -> Option<(&'a str, &'a str)> {
        'entries: while let Some((name, group)) = self.entries.next() {
            if let Some(text) = self.groups.get(group) {
                return Some((name, text));
            }
        }
        None
    }
}

pub(crate) fn write_pairs<W: fmt::Write>(
    f: &mut fmt::Formatter<W>,
    pairs: MatchesIter<'_>,
) -> fmt::Result
    ensures { DisplaysOnOk W.write_str_gives f.old result (debug_pairs pairs.entry) f.new }
{
    f.write_str("{")?;
    let mut lead = "";
    'pairs: for (name, text) in pairs {
        write_entry(f, lead, name, &text)?;
        lead = ", ";
    }
    f.write_str("}")
}

impl<'m, 'a, E: Engine> IntoIterator for &'m MatchesOf<'a, E> {
    type Item = (&'m str, &'m str);

    type IntoIter = MatchesIter<'m>;

    ghost into_iter_gives = { λ matches pairs. (pairs
        ≡ walk matches.now.pattern.keys matches.now.captures)
        × IsStrictlySortedBy (slice_cmp nat_cmp) (keys_of pairs) };

    fn into_iter(self) -> MatchesIter<'m> {
        self.iter()
    }
}

/// Writes the text and the extracts.
impl<E: Engine> fmt::Debug for PatternOf<E> {
    ghost use Rattle.std.specs.Prelude.{codes, Some};
    ghost use Rattle.std.specs.Fmt.{debug_str, ◌++?◌};
    ghost use Rattle.grok.specs.Debugs.{debug_texts};

    ghost debug_output = { λ pattern. Some (codes "Pattern { text: ")
        ++? debug_str (E.source_of pattern.engine) ++? Some (codes ", extracts: ")
        ++? debug_texts pattern.extracts ++? Some (codes " }") };

    fn fmt<W: fmt::Write>(&self, f: &mut fmt::Formatter<W>) -> fmt::Result {
        let text = self.text();
        if f.alternate() {
            return f
                .debug_struct("Pattern")
                .field("text", &text)
                .field("extracts", &self.extracts)
                .finish();
        }
        write!(f, "Pattern {{ text: {text:?}, extracts: ")?;
        write_map(f, &self.extracts)?;
        f.write_str(" }")
    }
}

/// Writes the pairs, in the order of `iter`.
impl<E: Engine> fmt::Debug for MatchesOf<'_, E> {
    ghost debug_output = { λ matches. debug_pairs (walk matches.pattern.keys matches.captures) };

    fn fmt<W: fmt::Write>(&self, f: &mut fmt::Formatter<W>) -> fmt::Result {
        if f.alternate() {
            return f.debug_map().entries(self.iter()).finish();
        }
        write_pairs(f, self.iter())
    }
}

//! The table of keys, with the group of each.
ghost use Rattle.std.specs.Prelude.{◌≡◌, ℕ, ◌<◌, List, map, IfOk, OnOk};
ghost use Rattle.std.specs.String.{string_bytes};
ghost use Rattle.std.specs.BTreeMap.{get_by};
ghost use Rattle.std.specs.List.Sorted.{IsStrictlySortedBy};
ghost use Rattle.std.specs.Map.{keys_of};
ghost use Rattle.std.specs.Cmp.Lexicographic.{slice_cmp};
ghost use Rattle.std.specs.Ordering.{nat_cmp};
ghost use Rattle.grok.specs.Captures.{name_texts};
ghost use Rattle.grok.specs.KeyNumbers.{key_text};
ghost use Rattle.grok.specs.KeyTable.{meant_key, group_of, group_in, IsKeyTable};

use crate::expand::placeholder_key::PlaceholderKey;
use crate::generated_name::number_of;
use std::alloc::{AllocError, Global};
use std::cmp::Ordering;
use std::collections::BTreeMap;
use std::marker::Model;

fn meant<'a>(name: &'a str, keys: &'a [PlaceholderKey]) -> &'a str
    ensures { result.now ≡ meant_key (map key_text keys.now) name.now }
{
    match number_of(name) {
        Some(number) if number < keys.len() => keys[number].key.as_str(),
        _ => name,
    }
}

fn groups_by_key<'a>(
    alloc: Global,
    names: &'a [Option<String>],
    keys: &'a [PlaceholderKey],
) -> Result<BTreeMap<&'a str, usize>, AllocError>
    ensures { IfOk result
        (λ groups. (key : List ℕ) → get_by (λ k. slice_cmp nat_cmp key k.now) groups
        ≡ group_of (map key_text keys.now) (name_texts names.now) key) }
{
    let mut groups = BTreeMap::new(alloc);
    'names: for (group, name) in names.iter().enumerate() {
        if let Some(name) = name {
            groups.insert(meant(name.as_str(), keys), group)?;
        }
    }
    Ok(groups)
}

/// The byte range of a key in the joined text of all keys, and its group.
#[derive(Clone, Copy)]
struct KeyRange {
    start: usize,
    end: usize,
    group: usize,
}

/// The keys and their groups, in the byte order of the keys.
#[derive(Drop)]
pub(crate) struct KeyTable {
    text: String,
    ranges: Vec<KeyRange>,
}

impl Model for KeyTable {
    ghost use Rattle.std.specs.String.{string_bytes};
    ghost use Rattle.grok.specs.KeyTable.{Entries};
    ghost use Rattle.grok.specs.steps.KeyRanges.{entries_at, IsTable};

    ghost Value = { Entries };

    ghost view = { λ table. entries_at (string_bytes table.text) table.ranges.items };

    ghost invariant = { λ table. IsTable (string_bytes table.text) table.ranges.items };
}

ghost use Rattle.grok.specs.steps.KeyRanges.{key_at, key_or_none, entry_of, IsExtended, IsKeyRange};

fn bytes_at(text: &str, range: KeyRange) -> &[u8]
    ensures { result.now ≡ key_or_none text.now range }
{
    match text.as_bytes().get(range.start..range.end) {
        Some(key) => key,
        None => &[],
    }
}

fn compare_at(text: &str, range: KeyRange, key: &str) -> Ordering
    ensures { result ≡ slice_cmp nat_cmp (key_or_none text.now range) key.now }
{
    bytes_at(text, range).cmp(key.as_bytes())
}

fn extend(
    text: &mut String,
    ranges: &mut Vec<KeyRange>,
    key: &str,
    group: usize,
) -> Result<(), AllocError>
    ensures { OnOk result (IsExtended (string_bytes text.old) ranges.old.items key.now group
        (string_bytes text.new) ranges.new.items) }
{
    let start = text.len();
    text.push_str(key)?;
    ranges.push(KeyRange {
        start,
        end: text.len(),
        group,
    })?;
    Ok(())
}

impl KeyTable {
    fn new(alloc: Global, groups: &BTreeMap<&str, usize>) -> Result<KeyTable, AllocError>
        ensures entries { IfOk result (λ table. table ≡ map entry_of groups.now.entries) }
        ensures sorted { IfOk result
            (λ table. IsStrictlySortedBy (slice_cmp nat_cmp) (keys_of table)) }
    {
        let mut text = String::new(alloc);
        let mut ranges = Vec::with_capacity(alloc, groups.len())?;
        'groups: for (key, group) in groups {
            extend(&mut text, &mut ranges, key, *group)?;
        }
        Ok(KeyTable { text, ranges })
    }

    pub(crate) fn for_names(
        alloc: Global,
        names: &[Option<String>],
        keys: &[PlaceholderKey],
    ) -> Result<KeyTable, AllocError>
        ensures { IfOk result (IsKeyTable (map key_text keys.now) (name_texts names.now)) }
    {
        let groups = groups_by_key(alloc, names, keys)?;
        KeyTable::new(alloc, &groups)
    }

    pub(crate) fn get(&self, key: &str) -> Option<usize>
        ensures { result ≡ group_in self.now key.now }
    {
        let text = self.text.as_str();
        match self
            .ranges
            .binary_search_by(|range| compare_at(text, *range, key))
        {
            Ok(at) => Some(self.ranges[at].group),
            Err(_) => None,
        }
    }

    pub(crate) fn entries(&self) -> KeyEntries<'_>
        ensures all { result ≡ self.now }
        ensures sorted { IsStrictlySortedBy (slice_cmp nat_cmp) (keys_of result) }
    {
        KeyEntries {
            text: self.text.as_str(),
            ranges: self.ranges.as_slice(),
        }
    }
}

/// An iterator over the keys of a table, with their groups.
#[derive(Drop)]
pub(crate) struct KeyEntries<'a> {
    text: &'a str,
    ranges: &'a [KeyRange],
}

impl<'a> Model for KeyEntries<'a> {
    ghost use Rattle.std.specs.List.{AllByRecursion};
    ghost use Rattle.grok.specs.KeyTable.{Entries};
    ghost use Rattle.grok.specs.steps.KeyRanges.{entries_at, IsKeyRange};

    ghost Value = { Entries };

    ghost view = { λ left. entries_at left.text.now left.ranges.now };

    ghost invariant = { λ left. AllByRecursion (IsKeyRange left.text.now) left.ranges.now };
}

fn key_of<'a>(text: &'a str, range: KeyRange) -> &'a str
    requires { IsKeyRange text.now range }
    ensures { result.now ≡ key_at text.now range }
{
    &text[range.start..range.end]
}

impl<'a> Iterator for KeyEntries<'a> {
    type Item = (&'a str, usize);

    ghost use Rattle.std.specs.Iterator.{YieldsFirstBy, item_count};

    ghost next_gives = { YieldsFirstBy entry_of (λ left. left) };

    ghost remaining = { item_count (λ left. left) };

    fn next(&mut self) -> Option<(&'a str, usize)> {
        let (first, rest) = self.ranges.split_first()?;
        let key = key_of(self.text, *first);
        self.ranges = rest;
        Some((key, first.group))
    }
}

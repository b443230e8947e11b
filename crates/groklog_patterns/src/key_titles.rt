//! Says by which placeholder the value of a key is found, and what that is defined as.

use crate::compiled::RunPattern;
use crate::stop_report::cut_text;
use grok::{ByteLocation, Location, Pattern, WrittenByte};
use groklog_definitions::Library;
use std::alloc::{AllocError, Global};
use std::collections::BTreeMap;

/// How many characters of each part of a title are shown at most.
const MOST_SHOWN: usize = 100;

/// How many keys have a title with a placeholder at most. A pattern is measured once for all of them, but
/// to find a placeholder and its definition, the texts on the way to it are read, each up to there.
const MOST_PLACED: usize = 200;

/// A key, and its index among all keys.
#[derive(Clone, Copy)]
struct Key<'k> {
    index: usize,
    name: &'k str,
}

/// A pattern, and the byte positions in the expanded text where its groups begin.
#[derive(Drop)]
struct GroupStarts<'p> {
    of: &'p RunPattern,
    /// Where the group of each name begins.
    starts: BTreeMap<&'p str, usize>,
}

/// Returns the text, which is cut if it is long.
fn shortened(alloc: Global, text: &str) -> Result<String, AllocError> {
    cut_text(alloc, text, MOST_SHOWN)
}

/// Returns the byte position where the group of each name begins in an expanded text, which is read once.
fn starts_of_groups(alloc: Global, expanded: &str) -> Result<BTreeMap<&str, usize>, AllocError> {
    let mut starts = BTreeMap::new(alloc);
    let mut parts = expanded.split("(?<");
    let mut start = parts.next().unwrap_or("").len();
    for part in parts {
        if let Some((name, _)) = part.split_once(">")
            && !starts.contains_key(&name)
        {
            starts.insert(name, start)?;
        }
        start = start.saturating_add("(?<".len()).saturating_add(part.len());
    }
    Ok(starts)
}

/// Returns the location of the placeholder whose group has a byte, or `None` if the byte is one of regular text.
fn placeholder_of(written: ByteLocation<'_>) -> Option<Location<'_>> {
    let ByteLocation { location, part } = written;
    match part {
        WrittenByte::OfGroup => Some(location),
        WrittenByte::Copied(_) => None,
    }
}

impl<'p> GroupStarts<'p> {
    fn new(alloc: Global, of: &'p RunPattern) -> Result<GroupStarts<'p>, AllocError> {
        let starts = starts_of_groups(alloc, of.pattern.text())?;
        Ok(GroupStarts { of, starts })
    }

    fn start(&self, key: &str) -> Option<usize> {
        let pattern = &self.of.pattern;
        let name = pattern.group_names().get(pattern.group_of(key)?)?;
        let name = name.as_ref()?;
        self.starts.get(&name.as_str()).copied()
    }

    /// Returns for each key the location of the placeholder that captures its value, or `None` if the group was
    /// written by hand.
    fn placeholders(
        &self,
        alloc: Global,
        library: &'p Library<'_>,
        keys: &[Key<'_>],
    ) -> Result<Vec<Option<Location<'p>>>, AllocError> {
        let mut starts = Vec::new(alloc);
        for key in keys {
            // No text has a byte at the greatest position.
            starts.push(self.start(key.name).unwrap_or(usize::MAX))?;
        }
        let text = &self.of.text;
        let found = library
            .grok
            .locate_bytes(text.text.as_str(), text.with_alias_only, &starts)?;
        let mut locations = Vec::new(alloc);
        for written in found {
            let location = match written {
                Some(written) => placeholder_of(written),
                None => None,
            };
            locations.push(location)?;
        }
        Ok(locations)
    }
}

/// Returns the key with its placeholder, which stands at this location, and with the definition of the
/// placeholder's name.
fn title_of(
    alloc: Global,
    library: &Library<'_>,
    location: &Location<'_>,
    key: &str,
) -> Result<String, AllocError> {
    let (start, end) = (location.range.start, location.range.end);
    let placeholder = location.text.get(start..end).unwrap_or("");
    let upto = location.text.get(..end).unwrap_or("");
    let mut title = shortened(alloc, key)?;
    if let Some((name, definition)) = library.grok.definitions_of(upto)?.as_slice().last() {
        let placeholder = shortened(alloc, placeholder)?;
        let (name, definition) = (shortened(alloc, name)?, shortened(alloc, definition)?);
        let words = format!(in alloc; ": {placeholder}, where {name}={definition}")?;
        title.push_str(words.as_str())?;
    }
    Ok(title)
}

/// Sets the titles of the keys that have the location of a placeholder.
fn add_placeholders(
    alloc: Global,
    library: &Library<'_>,
    titles: &mut Vec<String>,
    keys: &[Key<'_>],
    locations: &[Option<Location<'_>>],
) -> Result<(), AllocError> {
    for (key, location) in keys.iter().zip(locations) {
        if let (Some(location), Some(title)) = (location, titles.get_mut(key.index)) {
            *title = title_of(alloc, library, location, key.name)?;
        }
    }
    Ok(())
}

/// Returns the keys that a pattern has, and the others.
fn keys_of<'k>(
    alloc: Global,
    pattern: &Pattern,
    keys: &[Key<'k>],
) -> Result<(Vec<Key<'k>>, Vec<Key<'k>>), AllocError> {
    let (mut own, mut others) = (Vec::new(alloc), Vec::new(alloc));
    for key in keys {
        if pattern.group_of(key.name).is_some() {
            own.push(*key)?;
        } else {
            others.push(*key)?;
        }
    }
    Ok((own, others))
}

/// Returns the title of each key: the placeholder with which the first pattern that has the key finds its
/// value, and the definition of that placeholder. If the group was written by hand, or if many keys come
/// before, the title is the key alone. Long parts of a title are cut.
pub fn titles_of(
    alloc: Global,
    library: &Library<'_>,
    patterns: &[RunPattern],
    keys: &[&str],
) -> Result<Vec<String>, AllocError> {
    let (mut titles, mut rest) = (Vec::new(alloc), Vec::new(alloc));
    for (index, name) in keys.iter().enumerate() {
        titles.push(shortened(alloc, name)?)?;
        if index < MOST_PLACED {
            rest.push(Key { index, name })?;
        }
    }
    for pattern in patterns {
        let (own, others) = keys_of(alloc, &pattern.pattern, &rest)?;
        let locations = GroupStarts::new(alloc, pattern)?.placeholders(alloc, library, &own)?;
        add_placeholders(alloc, library, &mut titles, &own, &locations)?;
        rest = others;
    }
    Ok(titles)
}

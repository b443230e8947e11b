//! Finds where patterns stop in a line that doesn't match.

use crate::compiled::RunPattern;
use grok::{ByteLocation, Location, WrittenByte};
use groklog_definitions::{Library, PatternText};
use regex_beginnings::{Beginnings, Found, Group, Piece};
use std::alloc::{AllocError, Global};
use std::ops::Range;

/// A pattern, with the beginnings of the regular expression that it expands to.
#[derive(Drop)]
pub struct Searched<'p, 'd> {
    library: &'p Library<'d>,
    pub text: &'p PatternText,
    pub beginnings: Beginnings<'p>,
    /// The keys, each after the number of its group, in the order of the groups.
    keys: Vec<(usize, &'p str)>,
}

/// Where a pattern stops in a line: its longest beginning that finds something there.
#[derive(Drop)]
pub struct Stop {
    /// The index of the pattern.
    pub pattern: usize,
    /// How many pieces the beginning has.
    pub count: usize,
    /// What the beginning finds. It is `None` if the beginning is empty.
    pub found: Option<Found>,
}

/// The placeholder of the pattern in whose definition a piece is.
#[derive(Drop)]
pub struct Outermost {
    /// The byte range of the placeholder in the pattern.
    pub range: Range<usize>,
    /// How many pieces come before the placeholder.
    pub count: usize,
}

impl Stop {
    /// Returns how far the beginning comes in the line: the byte position after its match, plus 1,
    /// or 0 if the beginning is empty.
    fn reach(&self) -> usize {
        match &self.found {
            Some(found) => found.end.saturating_add(1),
            None => 0,
        }
    }
}

fn stop_of(
    searched: &mut Searched<'_, '_>,
    pattern: usize,
    line: &str,
) -> Result<Stop, AllocError> {
    let count = searched.beginnings.longest(line)?;
    let found = searched.find(count, line)?;
    Ok(Stop {
        pattern,
        count,
        found,
    })
}

/// Finds out which of the patterns comes furthest in the line, and returns where it stops. If
/// several come equally far, the first of them counts. Returns `None` if there is no pattern.
pub fn furthest_stop(all: &mut [Searched<'_, '_>], line: &str) -> Result<Option<Stop>, AllocError> {
    let mut furthest: Option<Stop> = None;
    for (number, searched) in all.iter_mut().enumerate() {
        let stop = stop_of(searched, number, line)?;
        let is_further = match &furthest {
            Some(best) => best.reach() < stop.reach(),
            None => true,
        };
        if is_further {
            furthest = Some(stop);
        }
    }
    Ok(furthest)
}

/// Returns how many bytes after the start of a piece of a pattern the byte is from which `part` was
/// written. A byte of a placeholder's group comes from the whole placeholder, whose start counts.
fn offset_of(part: WrittenByte) -> usize {
    match part {
        WrittenByte::Copied(offset) => offset,
        WrittenByte::OfGroup => 0,
    }
}

/// Returns the part from one byte to another one, up to the end of the first byte's piece at most if
/// the other one stands in another text.
fn part_between<'p>(first: ByteLocation<'p>, last: &ByteLocation<'p>) -> Location<'p> {
    let Location { path, text, range } = first.location;
    let start = range.start.saturating_add(offset_of(first.part));
    let end = if path != last.location.path {
        range.end
    } else if let WrittenByte::Copied(offset) = last.part {
        let begin = last.location.range.start;
        begin.saturating_add(offset).saturating_add(1)
    } else {
        last.location.range.end
    };
    Location {
        path,
        text,
        range: start..end,
    }
}

impl<'p, 'd> Searched<'p, 'd> {
    /// Takes a pattern of a run.
    pub fn new(
        alloc: Global,
        library: &'p Library<'d>,
        run_pattern: &'p RunPattern,
    ) -> Result<Searched<'p, 'd>, AllocError> {
        let RunPattern { text, pattern } = run_pattern;
        Ok(Searched {
            library,
            text,
            beginnings: Beginnings::new(alloc, pattern.text())?,
            keys: pattern.keys_by_group()?,
        })
    }

    /// Returns what the first `count` pieces of the pattern find in the line, or `None` if they
    /// find nothing or `count` is 0.
    pub fn find(&self, count: usize, line: &str) -> Result<Option<Found>, AllocError> {
        if count == 0 {
            return Ok(None);
        }
        self.beginnings.find(count, line)
    }

    /// Returns the key that has its values from the group with this number, or `None` if no key
    /// has.
    pub fn key(&self, group: usize) -> Option<&'p str> {
        let found = self.keys.binary_search_by(|entry| entry.0.cmp(&group));
        let (_, key) = self.keys.get(found.ok()?)?;
        Some(*key)
    }

    /// Returns the piece at this index, with the characters after it that stand for themselves too.
    /// It is a byte range of the expanded text.
    pub fn piece_at(&self, index: usize) -> Range<usize> {
        let pieces = self.beginnings.pieces();
        let Some(first) = pieces.get(index) else {
            return 0..0;
        };
        let mut end = first.upto.len();
        for next in pieces.iter().skip(index.saturating_add(1)) {
            if !first.is_literal || !next.is_literal || next.start != end {
                break;
            }
            end = next.upto.len();
        }
        first.start..end
    }

    /// Returns the expanded text up to the end of the piece at this index.
    pub fn text_upto(&self, index: usize) -> &str {
        match self.beginnings.pieces().get(index) {
            Some(piece) => piece.upto,
            None => "",
        }
    }

    /// Returns the groups around the piece at this index, outermost first.
    pub fn groups_around(&self, index: usize) -> Result<Vec<Group>, AllocError> {
        self.beginnings.groups_around(index)
    }

    /// Returns where a part of the expanded text was written. `part` has the start and the end of the
    /// part, which is a piece.
    pub fn written(&self, alloc: Global, part: Range<usize>) -> Result<Location<'p>, AllocError> {
        let (grok, pattern) = (&self.library.grok, self.text.text.as_str());
        let ends = [part.start, part.end.saturating_sub(1)];
        let mut located = grok
            .locate_bytes(pattern, self.text.with_alias_only, &ends)?
            .into_iter()
            .flatten();
        let (Some(first), Some(last)) = (located.next(), located.next()) else {
            // This doesn't happen: each byte of the expanded text was written by something.
            return Ok(Location {
                path: Vec::new(alloc),
                text: pattern,
                range: 0..pattern.len(),
            });
        };
        Ok(part_between(first, &last))
    }

    /// Returns the placeholder of the pattern in whose definition these groups are. They are around
    /// one piece, outermost first. Returns `None` if they are written in the pattern itself.
    pub fn outermost(&self, groups: &[Group]) -> Result<Option<Outermost>, AllocError> {
        let (grok, pattern) = (&self.library.grok, self.text.text.as_str());
        for group in groups {
            if let Some(location) = grok.locate_byte(
                pattern,
                self.text.with_alias_only,
                group.start,
            )?
                && let WrittenByte::OfGroup = location.part
            {
                return Ok(Some(Outermost {
                    range: location.location.range,
                    count: self.pieces_before(group.start),
                }));
            }
        }
        Ok(None)
    }

    /// Returns how many pieces come before this byte position of the expanded text.
    pub fn pieces_before(&self, position: usize) -> usize {
        let pieces = self.beginnings.pieces().iter();
        pieces
            .take_while(|piece: &&Piece<'_>| piece.start < position)
            .count()
    }
}

//! Finds out what makes the expanded text of a pattern too large. A few short definitions that use one another can
//! stand for more text than any memory holds.

use crate::diagnosis::describe_location;
use grok::parser::{Use, uses_in};
use grok::{Grok, Measure};
use groklog_definitions::{Library, PatternText};
use groklog_reports::{Report, add_excerpt};
use std::alloc::{AllocError, Global};
use std::collections::BTreeMap;

/// Which number of an expanded text is too great.
#[derive(Clone, Copy, PartialEq, Eq)]
enum Excess {
    Bytes,
    Groups,
}

impl Excess {
    /// Returns this number of an expanded text. A text that is longer than any memory has the greatest number of bytes.
    fn of(self, measure: &Measure<'_>) -> u128 {
        match (self, measure) {
            (Excess::Bytes, Measure::Size { length, .. }) => *length as u128,
            (Excess::Groups, Measure::Size { groups, .. }) => *groups as u128,
            (Excess::Bytes, _) => usize::MAX as u128,
            (Excess::Groups, _) => 0,
        }
    }
}

/// A definition that a pattern uses, and how far its uses are counted.
#[derive(Clone, Copy)]
struct Used<'a> {
    text: &'a str,
    /// How many bytes or groups its expanded text has, whichever are too many.
    size: u128,
    /// How many placeholders for it there are whose uses aren't counted yet.
    waiting: usize,
    /// How often it is used in the whole pattern, as far as that is counted.
    count: u128,
}

/// The definitions that a pattern uses, itself or through other definitions.
#[derive(Drop)]
struct UsedDefinitions<'a> {
    alloc: Global,
    with_alias_only: bool,
    excess: Excess,
    by_name: BTreeMap<&'a str, Used<'a>>,
}

impl<'a> UsedDefinitions<'a> {
    /// Adds the definitions that a text uses. Returns the texts of those that are new.
    fn add_uses(&mut self, grok: &'a Grok, text: &'a str) -> Result<Vec<&'a str>, AllocError> {
        let mut texts = Vec::new(self.alloc);
        for Use { name, .. } in uses_in(text) {
            if let Some(used) = self.by_name.get_mut(name) {
                used.waiting = used.waiting.saturating_add(1);
                continue;
            }
            let text = grok.definition(name).unwrap_or("");
            let (size, waiting, count) = (0, 1, 0);
            let used = Used {
                text,
                size,
                waiting,
                count,
            };
            self.by_name.insert(name, used)?;
            texts.push(text)?;
        }
        Ok(texts)
    }

    /// Adds the definitions that a pattern without a structural fault uses. Their uses aren't counted yet.
    fn add_all(&mut self, grok: &'a Grok, pattern: &'a str) -> Result<(), AllocError> {
        let mut left = self.add_uses(grok, pattern)?;
        for _ in 0..u64::MAX {
            let Some(text) = left.pop() else {
                break;
            };
            left.extend_from_slice(&self.add_uses(grok, text)?)?;
        }
        Ok(())
    }

    /// Measures the expanded text of each definition. Each definition is read once for that.
    fn measure(&mut self, grok: &'a Grok) -> Result<(), AllocError> {
        let mut texts = Vec::new(self.alloc);
        for used in self.by_name.values() {
            texts.push(used.text)?;
        }
        let measures = grok.measure_all(&texts, self.with_alias_only)?;
        for (used, measure) in self.by_name.values_mut().zip(&measures) {
            used.size = self.excess.of(measure);
        }
        Ok(())
    }

    /// Counts how often each definition is used. The uses of a definition are known once those of all
    /// definitions that use it are, so each definition is read once.
    fn count(&mut self, pattern: &'a str) -> Result<(), AllocError> {
        let mut left = Vec::new(self.alloc);
        left.push((pattern, 1u128))?;
        for _ in 0..u64::MAX {
            let Some((text, times)) = left.pop() else {
                break;
            };
            for Use { name, .. } in uses_in(text) {
                if let Some(used) = self.by_name.get_mut(name) {
                    used.count = used.count.saturating_add(times);
                    used.waiting = used.waiting.saturating_sub(1);
                    if used.waiting == 0 {
                        left.push((used.text, used.count))?;
                    }
                }
            }
        }
        Ok(())
    }

    /// Returns how many bytes or groups, whichever are too many, a placeholder adds.
    fn share(&self, each: &Use<'_>) -> u128 {
        let is_capturing = !self.with_alias_only || !each.alias.is_empty();
        let own = is_capturing && self.excess == Excess::Groups;
        let size = self.by_name.get(each.name).map_or(0, |used| used.size);
        size.saturating_add(own as u128)
    }
}

/// A definition that a text uses, and how much of the expanded text comes from it.
#[derive(Drop)]
struct Part<'a> {
    /// Its first placeholder in the text.
    first: Use<'a>,
    /// Whether the text has several placeholders for it.
    is_several: bool,
    /// How many bytes or groups they become together.
    share: u128,
}

/// Returns the definition from which most of the bytes or groups of a text come, among those that the text
/// uses itself.
fn greatest_part<'a>(
    used: &UsedDefinitions<'a>,
    text: &'a str,
) -> Result<Option<Part<'a>>, AllocError> {
    let mut parts: BTreeMap<&'a str, Part<'a>> = BTreeMap::new(used.alloc);
    for each in uses_in(text) {
        let share = used.share(&each);
        if let Some(part) = parts.get_mut(each.name) {
            part.is_several = true;
            part.share = part.share.saturating_add(share);
            continue;
        }
        let part = Part {
            first: each,
            is_several: false,
            share,
        };
        parts.insert(part.first.name, part)?;
    }
    Ok(parts.into_values().max_by_key(|part| part.share))
}

/// Where a text becomes large.
#[derive(Drop)]
struct Growth<'a> {
    /// The definitions that lead there, each used by the one before it, and the first one by the pattern.
    names: Vec<&'a str>,
    /// The text that uses a definition several times, or else the innermost text.
    text: &'a str,
    /// The definition from which most of that text comes, or `None` if it uses no definition.
    part: Option<Part<'a>>,
}

/// Goes from the pattern to the definition from which most of it comes, from there to the one from which
/// most of that comes, and so on. Returns the innermost text on this way that uses the next definition
/// several times.
fn growth_of<'a>(used: &UsedDefinitions<'a>, pattern: &'a str) -> Result<Growth<'a>, AllocError> {
    let alloc = used.alloc;
    let mut names = Vec::new(alloc);
    let mut found = Growth {
        names: Vec::new(alloc),
        text: pattern,
        part: None,
    };
    let mut text = pattern;
    let mut is_several = false;
    for _ in 0..u64::MAX {
        let Some(part) = greatest_part(used, text)? else {
            break;
        };
        let name = part.first.name;
        if part.is_several || !is_several {
            is_several = part.is_several;
            let names = Vec::from_slice(alloc, names.as_slice())?;
            let part = Some(part);
            found = Growth { names, text, part };
        }
        names.push(name)?;
        text = used.by_name.get(name).map_or("", |next| next.text);
    }
    Ok(found)
}

fn advice_for_size(
    used: &UsedDefinitions<'_>,
    part: Option<&Part<'_>>,
) -> Result<String, AllocError> {
    let alloc = used.alloc;
    let raise = match used.excess {
        Excess::Bytes => "raise the limit by --max-expansion BYTES",
        Excess::Groups => "raise the limit by --max-expansion BYTES, a group for each 250 bytes",
    };
    let Some(Part { first, .. }) = part else {
        return format!(in alloc; "make the pattern shorter, or {raise}");
    };
    let count = used.by_name.get(first.name).map_or(0, |found| found.count);
    let name = first.name;
    if count == u128::MAX {
        return format!(in alloc;
            "use {name} less often: it is used more than 2^128 times; or {raise}"
        );
    }
    if count == 1 {
        return format!(in alloc; "make the definition {name} shorter, or {raise}");
    }
    format!(in alloc; "use {name} less often: it is used {count} times; or {raise}")
}

/// Returns words that say how large the expanded text is, and which of its numbers is too great.
fn excess_of(
    alloc: Global,
    library: &Library<'_>,
    pattern: &PatternText,
    measure: Measure<'_>,
) -> Result<(String, Excess), AllocError> {
    let (words, limit) = (pattern.words.as_str(), library.limit);
    let (text, excess) = match measure {
        Measure::Size { length, .. } if length > limit.bytes => {
            (format!(in alloc; "of {length} bytes")?, Excess::Bytes)
        }
        Measure::Size { groups, .. } => {
            (
                format!(in alloc; "with {groups} groups of placeholders")?,
                Excess::Groups,
            )
        }
        _ => {
            let text = String::from_str(alloc, "of more than 2^64 bytes, which no memory holds")?;
            (text, Excess::Bytes)
        }
    };
    let most = match excess {
        Excess::Bytes => limit.bytes,
        Excess::Groups => limit.groups,
    };
    let what = format!(in alloc; "{words} stands for a text {text}, and the limit is {most}")?;
    Ok((what, excess))
}

/// Returns the report that the expanded text of a pattern would be too large: how large, and where it becomes
/// so large.
pub fn too_large_report(
    alloc: Global,
    library: &Library<'_>,
    pattern: &PatternText,
) -> Result<Report, AllocError> {
    let (grok, text) = (&library.grok, pattern.text.as_str());
    let with_alias_only = pattern.with_alias_only;
    let measure = grok.measure(text, with_alias_only)?;
    let (what, excess) = excess_of(alloc, library, pattern, measure)?;
    let mut used = UsedDefinitions {
        alloc,
        with_alias_only,
        excess,
        by_name: BTreeMap::new(alloc),
    };
    used.add_all(grok, text)?;
    used.measure(grok)?;
    used.count(text)?;
    let Growth { names, text, part } = growth_of(&used, text)?;
    let advice = advice_for_size(&used, part.as_ref())?;
    let mut report = Report::new(alloc, what.as_str(), advice.as_str())?;
    let range = match part {
        Some(Part { first, .. }) => first.range,
        None => 0..text.len(),
    };
    let location = describe_location(alloc, library, pattern, &names)?;
    add_excerpt(alloc, &mut report, location.as_str(), text, range)?;
    Ok(report)
}

//! Finds in lines what definitions recognize, such as times and addresses.

use crate::compiled::compile_valid;
use grok::Grok;
use groklog_definitions::Library;
use regex::{CaptureLocations, Matcher, Regex};
use std::alloc::{AllocError, Global};

/// The meaning of a text that a definition recognizes.
#[derive(Clone, Copy, PartialEq, Eq)]
pub enum Meaning {
    /// A time, or a date and a time.
    Time,
    /// A level of a message.
    Level,
    Number,
    /// A date without a time.
    Date,
    /// The address of a host.
    Address,
    /// A text in quotes.
    Quoted,
    Other,
}

/// A definition that is looked for in lines.
#[derive(Clone, Copy)]
pub struct Known {
    pub name: &'static str,
    /// The key of its placeholder.
    pub key: &'static str,
    pub meaning: Meaning,
}

/// The definitions that are looked for in lines, each with the key of its placeholder and its meaning. If
/// several recognize something at the same position, the first one counts.
static KNOWN: [(&str, &str, Meaning); 29] = [
    ("DATESTAMP_RFC2822", "timestamp", Meaning::Time),
    ("DATESTAMP_RFC822", "timestamp", Meaning::Time),
    ("DATESTAMP_OTHER", "timestamp", Meaning::Time),
    ("TIMESTAMP_CTIME", "timestamp", Meaning::Time),
    ("HTTPDATE", "timestamp", Meaning::Time),
    ("HAPROXYDATE", "timestamp", Meaning::Time),
    ("CATALINA_DATESTAMP", "timestamp", Meaning::Time),
    ("POSTGRESQLTIME", "timestamp", Meaning::Time),
    ("TIMESTAMP_ISO8601", "timestamp", Meaning::Time),
    ("TIMESTAMP_MONTHNAME", "timestamp", Meaning::Time),
    ("SYSLOGTIMESTAMP", "timestamp", Meaning::Time),
    ("TIMESTAMP_SLASHES", "timestamp", Meaning::Time),
    ("DATESTAMP_12H", "timestamp", Meaning::Time),
    ("DATESTAMP", "timestamp", Meaning::Time),
    ("DATESTAMP_COMPACT", "timestamp", Meaning::Time),
    ("DATESTAMP_SHORT", "timestamp", Meaning::Time),
    ("DATE_ISO8601", "date", Meaning::Date),
    ("DATE", "date", Meaning::Date),
    ("TIME", "timestamp", Meaning::Time),
    ("UUID", "uuid", Meaning::Other),
    ("MAC", "mac", Meaning::Other),
    ("EMAILADDRESS", "email", Meaning::Other),
    ("URI", "uri", Meaning::Other),
    ("IP", "ip", Meaning::Address),
    ("QS", "quoted", Meaning::Quoted),
    ("LOGLEVEL", "level", Meaning::Level),
    ("DAY", "day", Meaning::Other),
    ("MONTH", "month", Meaning::Other),
    ("NUMBER", "number", Meaning::Number),
];

/// Returns [`KNOWN`]. A function that named it itself would be proved with all 29 definitions.
fn known_definitions() -> &'static [(&'static str, &'static str, Meaning)] {
    &KNOWN
}

/// Returns the definition with this index among those that a [`Recognizer`] looks for. If there is none, returns `DATA`, which
/// finds any text.
pub fn known_definition(index: usize) -> Known {
    let data = ("DATA", "field", Meaning::Other);
    let (name, key, meaning) = known_definitions().get(index).copied().unwrap_or(data);
    Known { name, key, meaning }
}

/// A group of the regular expression of a recognizer.
#[derive(Clone, Copy)]
struct Group {
    number: usize,
    /// The index of its definition in [`KNOWN`].
    known: usize,
}

/// Recognizes what known definitions find, as far as a library has them: times, addresses, levels, numbers and the like.
#[derive(Drop)]
pub struct Recognizer<'r, 'd> {
    pub library: &'r Library<'d>,
    /// The alternatives, or `None` if the library has none of the definitions.
    regex: Option<Regex>,
    groups: Vec<Group>,
}

/// A part of a line that a definition recognizes.
#[derive(Clone, Copy)]
pub(crate) struct Recognized {
    /// The byte range in the line.
    pub start: usize,
    pub end: usize,
    /// The index of the definition in [`KNOWN`].
    pub known: usize,
}

/// Returns the key under which the definition with this index is found.
fn group_key(alloc: Global, known: usize) -> Result<String, AllocError> {
    format!(in alloc; "k{known}")
}

/// Returns a pattern whose alternatives are the definitions that the library has.
fn alternatives(alloc: Global, grok: &Grok) -> Result<String, AllocError> {
    let mut text = String::new(alloc);
    for (known, (name, _, _)) in known_definitions().iter().enumerate() {
        if grok.definition(name).is_none() {
            continue;
        }
        if !text.is_empty() {
            text.push('|')?;
        }
        let key = group_key(alloc, known)?;
        let placeholder = format!(in alloc; "%{{{name}:{key}}}")?;
        text.push_str(placeholder.as_str())?;
    }
    Ok(text)
}

impl<'r, 'd> Recognizer<'r, 'd> {
    /// Makes the recognizer with the definitions of a library. If one of them has a fault, nothing is recognized.
    pub fn new(alloc: Global, library: &'r Library<'d>) -> Result<Recognizer<'r, 'd>, AllocError> {
        let mut groups = Vec::new(alloc);
        let text = alternatives(alloc, &library.grok)?;
        let pattern = if text.is_empty() {
            None
        } else {
            compile_valid(library, text.as_str())?
        };
        let Some(pattern) = pattern else {
            return Ok(Recognizer {
                library,
                regex: None,
                groups,
            });
        };
        for known in 0..known_definitions().len() {
            let key = group_key(alloc, known)?;
            if let Some(number) = pattern.group_of(key.as_str()) {
                groups.push(Group { number, known })?;
            }
        }
        match Regex::new(alloc, pattern.text()) {
            Ok(regex) => Ok(Recognizer {
                library,
                regex: Some(regex),
                groups,
            }),
            // own error: `regex` has built this text before, so only an allocation can fail.
            Err(_) => Err(AllocError),
        }
    }

    /// Makes a search for what is recognized.
    pub fn search(&self, alloc: Global) -> Result<RecognizerSearch<'_>, AllocError> {
        let Some(regex) = &self.regex else {
            return Ok(RecognizerSearch {
                groups: self.groups.as_slice(),
                engine: None,
            });
        };
        let locations = regex.capture_locations(alloc)?;
        let matcher = regex.matcher(alloc)?;
        Ok(RecognizerSearch {
            groups: self.groups.as_slice(),
            engine: Some((matcher, locations)),
        })
    }
}

/// A search for what a recognizer recognizes, which keeps its caches from line to line.
#[derive(Drop)]
pub struct RecognizerSearch<'r> {
    groups: &'r [Group],
    engine: Option<(Matcher<'r>, CaptureLocations)>,
}

impl RecognizerSearch<'_> {
    /// Returns the first part of the line from the byte position `from` on that a definition recognizes.
    pub(crate) fn find(&mut self, line: &str, from: usize) -> Option<Recognized> {
        let (matcher, locations) = self.engine.as_mut()?;
        let found = matcher.captures_read_at(locations, line, from)?;
        let (start, end) = (found.start(), found.end());
        for group in self.groups {
            if locations.get(group.number).is_some() {
                let known = group.known;
                return Some(Recognized { start, end, known });
            }
        }
        None
    }
}

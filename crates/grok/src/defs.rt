//! Definitions by name, and the default definitions.
ghost use Rattle.std.specs.Prelude.{◌≡◌, OnOk, OnErr, IfOk, map, option_copied, option_map};
ghost use Rattle.std.specs.FinMap as finite;
ghost use Rattle.grok.specs.Captures.{text_of};
ghost use Rattle.grok.specs.Maps.{set_all, pair_texts};
ghost use Rattle.grok.specs.DefaultDefinitions.{default_definitions};

pub(crate) mod deferred_items;
pub(crate) mod definition;
pub(crate) mod items;
pub(crate) mod names;
pub(crate) mod pieces;
pub(crate) mod placed_items;
mod spans;

use crate::debug_map::write_map;
use crate::defs::definition::Definition;
use crate::defs::names::Names;
use std::alloc::{AllocError, Global};
use std::collections::BTreeMap;
use std::fmt;
use std::marker::Model;

/// The names with their definitions that [`patterns`] returns.
const PATTERNS: [(&str, &str); 10] = [
    ("USERNAME", r"[a-zA-Z0-9._-]+"),
    ("USER", r"%{USERNAME}"),
    ("YEAR", r"(\d\d){1,2}"),
    (
        "MONTH",
        r"\b(?:Jan(?:uary)?|Feb(?:ruary)?|Mar(?:ch)?|Apr(?:il)?|May|Jun(?:e)?|Jul(?:y)?|Aug(?:ust)?|Sep(?:tember)?|Oct(?:ober)?|Nov(?:ember)?|Dec(?:ember)?)\b",
    ),
    (
        "DAY",
        r"(?:Mon(?:day)?|Tue(?:sday)?|Wed(?:nesday)?|Thu(?:rsday)?|Fri(?:day)?|Sat(?:urday)?|Sun(?:day)?)",
    ),
    ("SPACE", r"\s*"),
    ("MAC", r"(?:%{CISCOMAC}|%{WINDOWSMAC}|%{COMMONMAC})"),
    ("CISCOMAC", r"(?:(?:[A-Fa-f0-9]{4}\.){2}[A-Fa-f0-9]{4})"),
    ("WINDOWSMAC", r"(?:(?:[A-Fa-f0-9]{2}-){5}[A-Fa-f0-9]{2})"),
    ("COMMONMAC", r"(?:(?:[A-Fa-f0-9]{2}:){5}[A-Fa-f0-9]{2})"),
];

/// Returns the default definitions with their names, in the order in which
/// [`Grok::with_default_patterns`] sets them.
pub fn patterns() -> &'static [(&'static str, &'static str)]
    ensures { map pair_texts result.now ≡ default_definitions }
{
    &PATTERNS
}

/// A library of definitions, each with a name.
///
/// Any text is accepted as a name and as a definition, even the empty one. A fault in a definition
/// is reported only when a pattern that reaches it is compiled or measured.
#[derive(Drop)]
pub struct Grok {
    alloc: Global,
    definitions: BTreeMap<String, Definition>,
}

impl Model for Grok {
    ghost use Rattle.grok.specs.Maps.{Texts, texts_code, texts_of};

    ghost Value = { Texts };

    ghost coded = { texts_code };

    ghost view = { λ g. texts_of g.definitions.entries };
}

impl Grok {
    /// Makes a library without definitions. It allocates nothing.
    pub fn empty(alloc: Global) -> Grok
        ensures { result ≡ finite.empty }
    {
        Grok {
            alloc,
            definitions: BTreeMap::new(alloc),
        }
    }

    /// Makes a library of the default definitions, which [`patterns`] returns.
    pub fn with_default_patterns(alloc: Global) -> Result<Grok, AllocError>
        ensures { IfOk result (λ grok. grok ≡ set_all finite.empty default_definitions) }
    {
        Grok::from_iter(alloc, patterns())
    }

    /// Makes a library of the default definitions, as [`Grok::with_default_patterns`] does.
    pub fn default(alloc: Global) -> Result<Grok, AllocError>
        ensures { IfOk result (λ grok. grok ≡ set_all finite.empty default_definitions) }
    {
        Grok::with_default_patterns(alloc)
    }

    /// Makes a library from pairs of a name and its definition. If a name comes twice, its later
    /// pair counts.
    pub fn from_iter(alloc: Global, pairs: &[(&str, &str)]) -> Result<Grok, AllocError>
        ensures { IfOk result (λ grok. grok ≡ set_all finite.empty (map pair_texts pairs.now)) }
    {
        let mut grok = Grok::empty(alloc);
        for &(name, pattern) in pairs {
            grok.add_pattern(name, pattern)?;
        }
        Ok(grok)
    }

    /// Makes another library with the same definitions.
    pub fn clone(&self) -> Result<Grok, AllocError>
        ensures { IfOk result (λ grok. grok ≡ self.now) }
    {
        let definitions = self.definitions.clone()?;
        Ok(Grok {
            alloc: self.alloc,
            definitions,
        })
    }

    /// Sets the definition of a name. It replaces an earlier definition of that name, and leaves
    /// all other names as they are.
    ///
    /// A definition is a regular expression with placeholders of its own: `%{name}`,
    /// `%{name:alias}`, `%{name:alias:extract}` or `%{name=definition}`. It may use names that are
    /// set later, and it is read only when a pattern reaches it. Placeholders can only spell names
    /// of ASCII letters, ASCII digits and `_`.
    pub fn add_pattern(&mut self, name: &str, pattern: &str) -> Result<(), AllocError>
        ensures ok { OnOk result (self.new ≡ finite.insert self.old name.now pattern.now) }
        ensures err { OnErr result (self.new ≡ self.old) }
    {
        let key = String::from_str(self.alloc, name)?;
        let definition = Definition::new(self.alloc, pattern)?;
        self.definitions.insert(key, definition)?;
        Ok(())
    }

    /// Returns the names that have a definition, each once, in byte order.
    pub fn names(&self) -> Names<'_>
        ensures { result ≡ finite.keys self.now }
    {
        Names {
            keys: self.definitions.keys(),
        }
    }

    pub(crate) fn alloc(&self) -> Global {
        self.alloc
    }

    pub(crate) fn stored(&self, name: &str) -> Option<&Definition>
        ensures { option_copied result ≡ finite.get self.now name.now }
    {
        self.definitions.get(name)
    }

    /// Returns the definition of a name, as it was set, or `None` if the name has none.
    pub fn definition(&self, name: &str) -> Option<&str>
        ensures { option_map text_of result ≡ finite.get self.now name.now }
    {
        match self.stored(name) {
            Some(definition) => Some(definition.text()),
            None => None,
        }
    }
}

/// Writes the definitions by name, in the byte order of the names.
impl fmt::Debug for Grok {
    ghost use Rattle.std.specs.Prelude.{codes, Some};
    ghost use Rattle.std.specs.Fmt.{◌++?◌};
    ghost use Rattle.grok.specs.Debugs.{debug_texts};

    ghost debug_output = { λ grok. Some (codes "Grok ") ++? debug_texts grok };

    fn fmt<W: fmt::Write>(&self, f: &mut fmt::Formatter<W>) -> fmt::Result {
        f.write_str("Grok ")?;
        write_map(f, &self.definitions)
    }
}

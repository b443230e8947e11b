//! Builds the library of definitions that patterns are compiled with: the default definitions, the
//! common definitions, those from files, and those from the words after `-D`.
ghost use Rattle.std.specs.Prelude.{◌≡◌, ◌/◌, ◌&&◌, nat_le, if◌then◌else◌, OnOk, OnErr};
ghost use Rattle.std.specs.FinMap as finite;
ghost use Rattle.grok.specs.Measured.{measure_view};
ghost use Rattle.groklog_definitions.specs.Compiled.{IsPastOrNot};

use crate::common::add_common_definitions;
use crate::definition::name_of_spaced;
use crate::definitions::{Definition, Origin, read_file, read_word};
use grok::{Grok, Measure, patterns};
use groklog_reports::{Report, RunFault, TextFile, add_excerpt};
use std::alloc::{AllocError, Global};
use std::collections::BTreeMap;

/// Where a stored definition was given.
#[derive(Clone, Copy)]
pub struct DefinitionSource<'a> {
    pub name: &'a str,
    pub origin: Origin<'a>,
}

/// A limit allows one group for each of this many bytes. The engine compares the name of each group with all
/// others, so 4,000 of them take most of a second.
const BYTES_FOR_A_GROUP: usize = 250;

/// From how many bytes on a limit allows 4,000 groups.
const BYTES_FOR_MANY_GROUPS: usize = 40_000;

/// How many groups such a limit allows at least.
const MANY_GROUPS: usize = 4000;

/// How large the expanded text of a pattern may be.
#[derive(Clone, Copy)]
pub struct Limit {
    pub bytes: usize,
    /// How many groups of placeholders that text may have.
    pub groups: usize,
}

impl Limit {
    /// Returns the limit of this many bytes, and of a group for each 250 of them, but of at least 4,000 groups from
    /// 40,000 bytes on.
    pub fn of_bytes(bytes: usize) -> Limit
        ensures bytes { result.bytes ≡ bytes }
        ensures groups { result.groups ≡ (if nat_le 40000 bytes && nat_le (bytes / 250) 4000 then 4000 else bytes / 250) }
    {
        let groups = bytes / BYTES_FOR_A_GROUP;
        Limit {
            bytes,
            groups: if BYTES_FOR_MANY_GROUPS <= bytes && groups <= MANY_GROUPS {
                MANY_GROUPS
            } else {
                groups
            },
        }
    }

    /// Returns whether a pattern that was measured has no structural fault and is larger than this.
    #[tactic(auto, using(crate::proofs::MeasuresDecide::measures_decide))]
    pub fn is_past(self, measure: Measure<'_>) -> bool
        ensures { IsPastOrNot self (measure_view measure.entry) result }
    {
        match measure {
            Measure::Size { length, .. } if length > self.bytes => true,
            Measure::Size { groups, .. } if groups > self.groups => true,
            Measure::TooLong => true,
            Measure::Size { .. } | Measure::Fault(_) => false,
        }
    }
}

/// Definitions, which `grok` has, and where each of them was given.
#[derive(Drop)]
pub struct Library<'a> {
    pub grok: Grok,
    /// How large the expanded text of a pattern may be.
    pub limit: Limit,
    /// Whether the common definitions are among them.
    pub has_common: bool,
    sources: BTreeMap<&'a str, DefinitionSource<'a>>,
}

/// Returns the fault that reports that a line or a word isn't a definition.
fn no_definition(alloc: Global, origin: Origin<'_>, line: &str) -> Result<RunFault, AllocError> {
    let mut report = match name_of_spaced(line) {
        Some(name) => {
            let advice = format!(in alloc;
                "write {name}=DEF without blanks around the =; for a definition that begins with =, write {name}==.."
            )?;
            let what = "this definition has a blank before its =";
            Report::new(alloc, what, advice.as_str())?
        }
        None => Report::new(
            alloc,
            "this isn't a definition",
            "write NAME=DEF or NAME DEF, where a NAME has a-z A-Z 0-9 _",
        )?,
    };
    let location = format!(in alloc; "{origin}")?;
    add_excerpt(alloc, &mut report, location.as_str(), line, 0..line.len())?;
    Ok(RunFault::Pattern(report))
}

fn add_file<'a>(
    alloc: Global,
    found: &mut Vec<Definition<'a>>,
    file: &'a TextFile,
) -> Result<(), RunFault> {
    match read_file(found, file.name.as_str(), file.text.as_str())? {
        None => Ok(()),
        Some((origin, line)) => Err(no_definition(alloc, origin, line)?),
    }
}

fn add_word<'a>(
    alloc: Global,
    found: &mut Vec<Definition<'a>>,
    word: &'a str,
) -> Result<(), RunFault> {
    match read_word(word) {
        Some(definition) => Ok(found.push(definition)?),
        None => Err(no_definition(alloc, Origin::Word, word)?),
    }
}

/// Returns the common definitions if `with_common` is set, then those of the files, and then those
/// of the words.
fn collect<'a>(
    alloc: Global,
    with_common: bool,
    files: &'a [TextFile],
    words: &[&'a str],
) -> Result<Vec<Definition<'a>>, RunFault> {
    let mut found = Vec::new(alloc);
    if with_common {
        add_common_definitions(&mut found)?;
    }
    for file in files {
        add_file(alloc, &mut found, file)?;
    }
    for word in words {
        add_word(alloc, &mut found, word)?;
    }
    Ok(found)
}

impl<'a> Library<'a> {
    /// Makes a library of the default definitions. `with_common` is whether the common ones will be added.
    fn with_default_definitions(
        alloc: Global,
        with_common: bool,
        most_bytes: usize,
    ) -> Result<Library<'a>, AllocError> {
        let mut sources = BTreeMap::new(alloc);
        for (name, _) in patterns() {
            let origin = Origin::Default;
            let source = DefinitionSource { name, origin };
            sources.insert(*name, source)?;
        }
        Ok(Library {
            grok: Grok::default(alloc)?,
            limit: Limit::of_bytes(most_bytes),
            has_common: with_common,
            sources,
        })
    }

    /// Makes the library with the default definitions, the common definitions if `with_common` is
    /// set, those of the files, and those of the words.
    /// A later definition of a name replaces an earlier one. Patterns are refused whose expanded text is longer
    /// than `most_bytes`, or has more groups than a limit of this many bytes allows.
    ///
    /// # Errors
    ///
    /// Returns an error if a line or a word isn't a definition, or if an allocation fails.
    pub fn new(
        alloc: Global,
        with_common: bool,
        files: &'a [TextFile],
        words: &[&'a str],
        most_bytes: usize,
    ) -> Result<Library<'a>, RunFault> {
        let mut library = Library::with_default_definitions(alloc, with_common, most_bytes)?;
        for definition in &collect(alloc, with_common, files, words)? {
            let Definition { name, text, origin } = *definition;
            library.store(DefinitionSource { name, origin }, text)?;
        }
        Ok(library)
    }

    /// Stores a definition with this text. If an allocation fails, the definitions are as before.
    pub fn store(&mut self, source: DefinitionSource<'a>, text: &str) -> Result<(), AllocError>
        ensures ok { OnOk result (self.new.grok ≡ finite.insert self.old.grok source.entry.name.now text.now) }
        ensures memory { OnErr result (self.new.grok ≡ self.old.grok) }
    {
        self.sources.insert(source.name, source)?;
        self.grok.add_pattern(source.name, text)
    }

    /// Returns where the definition of a name was given, or `None` if the name has no definition.
    pub fn source(&self, name: &str) -> Option<DefinitionSource<'a>> {
        self.sources.get(name).copied()
    }
    /// Returns where each of the user's definitions was given, in the byte order of their names.
    pub fn own_sources(&self, alloc: Global) -> Result<Vec<DefinitionSource<'a>>, AllocError> {
        let mut own = Vec::new(alloc);
        for source in self.sources.values() {
            if source.origin.is_own() {
                own.push(*source)?;
            }
        }
        Ok(own)
    }
}

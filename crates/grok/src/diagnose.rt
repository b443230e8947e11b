//! Finds out what is wrong with a pattern, and where.
ghost use Rattle.std.specs.Prelude.{◌≡◌, ◌≢◌, ◌-◌, ℕ, List, [], Some, None, IfOk, IfSome, MatchOption, length as len};
ghost use Rattle.std.specs.FinMap as finite;
ghost use Rattle.grok.specs.Tree.{tree as tree_of, first_structural};
ghost use Rattle.grok.specs.Keys.{Clash as KeyClash, first_fault};
ghost use Rattle.grok.specs.Expanded.{expanded};
ghost use Rattle.grok.specs.ByteLocations.{HasByte};
ghost use Rattle.grok.specs.steps.MeasureCache.{HasCorrectCache};
ghost use Rattle.grok.specs.FaultLocations.{path_view};
ghost use Rattle.grok.specs.Diagnoses.{IsRangeOf, IsOriginOf, LocatesReason, LeadsTo, IsBlamed, IsRefusedPart, IsNotToBlame, AreNotToBlame, IsInnermost, IfRefused, FindsDiagnosis};
ghost use Rattle.grok.specs.RegexFinds.{IsRegexOf};
ghost use Rattle.grok.specs.Refusals.{IsOfBrackets};
ghost use Rattle.regex.specs.Strings.{IsDefaultFailure};
ghost use Rattle.grok.specs.steps.RefusedParts.{IsWhole, IsToBlame, IsRefusedIn};

use crate::compile::expand_clean;
use crate::defs::Grok;
use crate::defs::items::Item;
use crate::defs::placed_items::PlacedItems;
use crate::engine::regex_engine::BuildFromText;
use crate::errors::fault::{Fault, MAX_NESTING};
use crate::locate::locate_fault;
use crate::locate_byte::{WrittenByte, locate_written};
use crate::locate_clash::{Clash, locate_clash};
use crate::location::{Location, PathStep};
use crate::measure::Measure;
use crate::measure::full_measure::FullMeasure;
use crate::measure::measurer::Measurer;
use crate::settings::Settings;
use crate::why_refused::{RefusalReason, reason_for};
use crate::write::ExpandedPattern;
use grok_parser::{MalformedReason, malformation_at};
use regex::Regex;
use std::alloc::AllocError;
use std::collections::BTreeMap;
use std::ops::Range;

/// What is wrong with a pattern. [`Grok::diagnose`] returns it.
#[derive(PartialEq, Eq, Debug, Drop)]
pub enum Diagnosis<'a> {
    /// The pattern is the empty text.
    Empty,
    /// A placeholder is malformed.
    Malformed {
        reason: MalformedReason,
        /// The byte position in `location.text` from which on the placeholder is malformed.
        byte: usize,
        /// The placeholder, which takes the rest of its text.
        location: Location<'a>,
    },
    /// No definition has the name of a placeholder.
    Missing {
        name: &'a str,
        /// The placeholder.
        location: Location<'a>,
    },
    /// The placeholder here is nested more than [`MAX_NESTING`] levels deep.
    TooDeep(Location<'a>),
    /// Two placeholders would get the same key.
    Clash(Clash<'a>),
    /// `regex` refuses the expanded text.
    Refused(Refused<'a>),
    /// The expanded text would be longer than the greatest `usize`.
    TooLong,
}

/// What `regex` refuses of a pattern.
///
/// If brackets don't match and `regex` refuses a definition alone, the fault is in there, though
/// `regex` may report another part of the pattern: if a definition has a `(` too many, the `)` of its
/// placeholder's group closes it, and the group that isn't closed is one further out.
#[derive(PartialEq, Eq, Debug, Drop)]
pub struct Refused<'a> {
    /// The placeholders that lead from the pattern to the refused part, outermost first. If the list
    /// is empty, the refused part is the pattern itself.
    pub path: Vec<PathStep<'a>>,
    /// The part that `regex` refuses, taken as a pattern of its own: the pattern, or the definition
    /// that the path leads to.
    pub part: &'a str,
    /// The expanded text of the part.
    pub text: String,
    pub reason: RefusalReason,
    /// What wrote the part of the expanded text that `regex` reports: the part itself, if it begins
    /// in regular text, up to the end of that piece at most, or the placeholder whose group it begins
    /// in. Its path begins in `part`. It is `None` if the regex is too big, or if the reported part is
    /// at the end of the expanded text.
    pub location: Option<Location<'a>>,
}

fn origin_in(piece: &Range<usize>, begin: WrittenByte, length: usize) -> Range<usize>
    ensures { IsRangeOf length piece.now.start piece.now.end begin result.start result.end }
{
    match begin {
        WrittenByte::OfGroup => piece.start..piece.end,
        WrittenByte::Copied(offset) => {
            let start = piece.start.saturating_add(offset).min(piece.end);
            start..start.saturating_add(length).min(piece.end)
        }
    }
}

fn origin_of_part<'a>(
    measurer: &Measurer<'a>,
    pattern: &'a str,
    part: &Range<usize>,
) -> Result<Option<Location<'a>>, AllocError>
    requires cache { HasCorrectCache measurer.now }
    requires clean { first_structural (tree_of (finite.get measurer.now.settings.grok.now) pattern.now) ≡ None }
    ensures { IfOk result (λ found. MatchOption found
        (HasByte measurer.now.settings.with_alias_only
        (tree_of (finite.get measurer.now.settings.grok.now) pattern.now) part.now.start → ⊥)
        (IsOriginOf (finite.get measurer.now.settings.grok.now)
        measurer.now.settings.with_alias_only pattern.now part.now.start part.now.end)) }
{
    let Some(found) = locate_written(measurer, pattern, part.start)? else {
        return Ok(None);
    };
    let length = part.end.saturating_sub(part.start);
    let piece = found.location;
    Ok(Some(Location {
        range: origin_in(&piece.range, found.part, length),
        path: piece.path,
        text: piece.text,
    }))
}

fn locate_reason<'a>(
    measurer: &Measurer<'a>,
    pattern: &'a str,
    reason: RefusalReason,
) -> Result<Option<Location<'a>>, AllocError>
    requires cache { HasCorrectCache measurer.now }
    requires clean { first_structural (tree_of (finite.get measurer.now.settings.grok.now) pattern.now) ≡ None }
    ensures { IfOk result (LocatesReason (finite.get measurer.now.settings.grok.now)
        measurer.now.settings.with_alias_only pattern.now reason) }
{
    match reason {
        RefusalReason::TooBig => Ok(None),
        RefusalReason::Syntax(error) => {
            let part = error.span.start..error.span.end;
            origin_of_part(measurer, pattern, &part)
        }
    }
}

fn diagnose_refusal<'a, B: BuildFromText>(
    measurer: &Measurer<'a>,
    pattern: &'a str,
    length: usize,
) -> Result<Option<Diagnosis<'a>>, AllocError>
    requires cache { HasCorrectCache measurer.now }
    requires some { pattern.now ≢ [] }
    requires clean { first_fault measurer.now.settings.with_alias_only
        (tree_of (finite.get measurer.now.settings.grok.now) pattern.now) ≡ None }
    requires long { length ≡ len (expanded measurer.now.settings.with_alias_only
        (tree_of (finite.get measurer.now.settings.grok.now) pattern.now)) }
    ensures found { IfOk result (FindsDiagnosis B.is_built_from B.refuses
        measurer.now.settings.grok.now measurer.now.settings.with_alias_only pattern.now) }
    ensures whole { IfOk result (λ found. IfSome found (IfRefused (IsWhole pattern.now))) }
{
    let settings = measurer.settings;
    let ExpandedPattern { text, .. } = expand_clean(settings, pattern, length)?;
    let Some(reason) = reason_for::<B>(settings.grok.alloc(), text.as_str())? else {
        return Ok(None);
    };
    let location = locate_reason(measurer, pattern, reason)?;
    Ok(Some(Diagnosis::Refused(Refused {
        path: Vec::new(settings.grok.alloc()),
        part: pattern,
        text,
        reason,
        location,
    })))
}

fn diagnose_structural<'a, B: BuildFromText>(
    measurer: Measurer<'a>,
    pattern: &'a str,
) -> Result<Option<Diagnosis<'a>>, AllocError>
    requires cache { HasCorrectCache measurer }
    requires faulty { first_structural (tree_of (finite.get measurer.settings.grok.now) pattern.now) ≢ None }
    requires no_clash { (key : List ℕ) → first_fault measurer.settings.with_alias_only
        (tree_of (finite.get measurer.settings.grok.now) pattern.now) ≢ Some (KeyClash key) }
    ensures found { IfOk result (FindsDiagnosis B.is_built_from B.refuses
        measurer.entry.settings.grok.now measurer.entry.settings.with_alias_only pattern.now) }
    ensures whole { IfOk result (λ found. IfSome found (IfRefused (IsWhole pattern.now))) }
{
    let Some(found) = locate_fault(measurer, pattern)? else {
        return Ok(None);
    };
    let location = found.location;
    match found.fault {
        Fault::Missing(name) => Ok(Some(Diagnosis::Missing { name, location })),
        Fault::TooDeep => Ok(Some(Diagnosis::TooDeep(location))),
        Fault::Malformed(_) => {
            let (reason, byte) = malformation_at(location.text, location.range.start);
            Ok(Some(Diagnosis::Malformed {
                reason,
                byte,
                location,
            }))
        }
    }
}

fn diagnose_whole<'a, B: BuildFromText>(
    settings: Settings<'a>,
    pattern: &'a str,
) -> Result<Option<Diagnosis<'a>>, AllocError>
    ensures found { IfOk result (FindsDiagnosis B.is_built_from B.refuses
        settings.entry.grok.now settings.entry.with_alias_only pattern.now) }
    ensures whole { IfOk result (λ found. IfSome found (IfRefused (IsWhole pattern.now))) }
{
    if pattern.is_empty() {
        return Ok(Some(Diagnosis::Empty));
    }
    let found = FullMeasure::of_pattern(settings, pattern)?;
    match found.measure {
        Measure::TooLong => Ok(Some(Diagnosis::TooLong)),
        Measure::Fault(_) => match locate_clash(settings, pattern, &found)? {
            Some(clash) => Ok(Some(Diagnosis::Clash(clash))),
            None => diagnose_structural::<B>(found.measurer, pattern),
        },
        Measure::Size { length, .. } => match locate_clash(settings, pattern, &found)? {
            Some(clash) => Ok(Some(Diagnosis::Clash(clash))),
            None => diagnose_refusal::<B>(&found.measurer, pattern, length),
        },
    }
}

fn refused_for_syntax<'a, B: BuildFromText>(
    settings: Settings<'a>,
    definition: &'a str,
) -> Result<Option<Refused<'a>>, AllocError>
    ensures { IfOk result (λ found. MatchOption found
        (IsNotToBlame B.is_built_from B.refuses
        settings.entry.grok.now settings.entry.with_alias_only definition.now)
        (IsToBlame B.refuses settings.entry definition.now)) }
{
    let Some(Diagnosis::Refused(refused)) = diagnose_whole::<B>(settings, definition)? else {
        return Ok(None);
    };
    match refused.reason {
        RefusalReason::Syntax(_) => Ok(Some(refused)),
        RefusalReason::TooBig => Ok(None),
    }
}

fn first_refused<'a, B: BuildFromText>(
    settings: Settings<'a>,
    text: &'a str,
) -> Result<Option<(PathStep<'a>, Refused<'a>)>, AllocError>
    ensures { IfOk result (λ found. MatchOption found
        (AreNotToBlame B.is_built_from B.refuses
        settings.entry.grok.now settings.entry.with_alias_only text.now)
        (λ at. IsRefusedIn B.refuses settings.entry text.now at.0 at.1)) }
{
    let mut seen = BTreeMap::new(settings.grok.alloc());
    let mut items = PlacedItems::of_text(settings.grok, text);
    'items: while let Some(placed) = items.next()? {
        let Item::Placeholder(label, meaning) = placed.item else {
            continue;
        };
        let definition = meaning.text();
        if seen.insert(definition, ())?.is_some() {
            continue;
        }
        if let Some(refused) = refused_for_syntax::<B>(settings, definition)? {
            let step = PathStep {
                name: label.name,
                range: placed.range,
            };
            return Ok(Some((step, refused)));
        }
    }
    Ok(None)
}

fn first_to_blame<'a, B: BuildFromText>(
    settings: Settings<'a>,
    outer: &Refused<'a>,
) -> Result<Option<(PathStep<'a>, Refused<'a>)>, AllocError>
    ensures { IfOk result (λ found. MatchOption found
        (IsOfBrackets outer.now.reason → AreNotToBlame B.is_built_from B.refuses
        settings.entry.grok.now settings.entry.with_alias_only outer.now.part.now)
        (λ at. IsOfBrackets outer.now.reason
        × IsRefusedIn B.refuses settings.entry outer.now.part.now at.0 at.1)) }
{
    if !outer.reason.is_of_brackets() {
        return Ok(None);
    }
    first_refused::<B>(settings, outer.part)
}

fn innermost<'a, B: BuildFromText>(
    settings: Settings<'a>,
    refused: Refused<'a>,
) -> Result<Refused<'a>, AllocError>
    requires { IsRefusedPart B.refuses settings.grok.now settings.with_alias_only refused }
    ensures leads { IfOk result (λ inner. LeadsTo (finite.get settings.entry.grok.now) refused.entry.part.now
        (path_view inner.path.items) inner.part.now) }
    ensures blamed { IfOk result (λ inner. IsBlamed (path_view inner.path.items)
        refused.entry.reason inner.reason) }
    ensures part { IfOk result (λ inner. IsRefusedPart B.refuses
        settings.entry.grok.now settings.entry.with_alias_only inner) }
    ensures innermost { IfOk result (IsInnermost B.is_built_from B.refuses
        settings.entry.grok.now settings.entry.with_alias_only) }
{
    let mut path = Vec::new(settings.grok.alloc());
    let mut inner = refused;
    'levels: for _level in 0..MAX_NESTING {
        let Some((step, refused)) = first_to_blame::<B>(settings, &inner)? else {
            inner.path = path;
            return Ok(inner);
        };
        path.push(step)?;
        inner = refused;
    }
    inner.path = path;
    Ok(inner)
}

fn diagnose_pattern<'a, B: BuildFromText>(
    settings: Settings<'a>,
    pattern: &'a str,
) -> Result<Option<Diagnosis<'a>>, AllocError>
    ensures found { IfOk result (FindsDiagnosis B.is_built_from B.refuses
        settings.entry.grok.now settings.entry.with_alias_only pattern.now) }
    ensures innermost { IfOk result (λ found. IfSome found (IfRefused
        (IsInnermost B.is_built_from B.refuses
        settings.entry.grok.now settings.entry.with_alias_only))) }
{
    match diagnose_whole::<B>(settings, pattern)? {
        Some(Diagnosis::Refused(refused)) => {
            let refused = innermost::<B>(settings, refused)?;
            Ok(Some(Diagnosis::Refused(refused)))
        }
        found => Ok(found),
    }
}

impl Grok {
    /// Finds out why [`Grok::compile`] returns an error for a pattern, and where in the pattern or
    /// its definitions the reason is. Returns `None` if nothing is wrong. Both calls ask `regex` alike,
    /// for the same text.
    ///
    /// Each definition is read as often as [`Grok::compile`] reads it. Then only the definitions that
    /// lead to a location are read again, at most [`MAX_NESTING`] for each location. If `regex` refuses
    /// the pattern because brackets don't match, it is also asked for the definitions of the pattern, and
    /// for those of each definition that it refuses.
    ///
    /// # Errors
    ///
    /// If an allocation fails, or if before a fault a base key `x` is used 2^64 times or more and the
    /// least number `n` of an alias `x[n]` is `usize::MAX` or more.
    pub fn diagnose<'a>(
        &'a self,
        pattern: &'a str,
        with_alias_only: bool,
    ) -> Result<Option<Diagnosis<'a>>, AllocError>
        ensures found { IfOk result
            (FindsDiagnosis IsRegexOf IsDefaultFailure self.now with_alias_only pattern.now) }
        ensures innermost { IfOk result (λ found. IfSome found
            (IfRefused (IsInnermost IsRegexOf IsDefaultFailure self.now with_alias_only))) }
    {
        let settings = Settings {
            grok: self,
            with_alias_only,
        };
        diagnose_pattern::<Regex>(settings, pattern)
    }
}

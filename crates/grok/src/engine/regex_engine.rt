//! The engine over the crate `regex`.
ghost use Rattle.std.specs.Prelude.{◌≡◌, ◌≢◌, ◌↔◌, ℕ, List, length, vec_len, option_map, box_value, IfOk, IfErr, IfSome, OnOk};
ghost use Rattle.std.specs.Option.{ForSome};
ghost use Rattle.grok.specs.Captures.{text_of, capture_texts, texts_if, IsSliceOf, AreSlicesOf, IsMatchIn};
ghost use Rattle.grok.specs.Locations.{IsLocationIn, AreLocationsIn, located_texts};
ghost use Rattle.grok.specs.RegexFinds.{IsReadByDefault, IsWithinLimit, captures_by, texts_at, text_at};
ghost use Rattle.regex.specs.declared.error.Error.{Error};
ghost use Rattle.regex.specs.declared.error.Error.TheVariants.{Internal, OutOfMemory};
ghost use Rattle.regex.specs.Strings.{captures_haystack, captures_span, captures_names, regex_names};

use crate::engine::{Engine, Refusal};
use regex::{Captures, Regex};
use regex_shared::SharedSearch;
use std::alloc::{AllocError, Global};

/// A value that is built from a text, or refused with an error of `regex`.
///
/// Only `Regex` is one. The functions that diagnose a pattern are written for any of them, so that
/// their proofs know of a text only what a build of this text returned: they can't report a refusal
/// that no build returned, nor call a text right that none accepted.
pub(crate) trait BuildFromText: Sized + Drop {
    /// The value was built from the text.
    ghost is_built_from: { Self → List ℕ → Type 0 };

    /// The text may be refused with the error.
    ghost refuses: { List ℕ → Error → Type 0 };

    /// Builds a value from the text, or returns why it is refused.
    fn build_from_text(alloc: Global, text: &str) -> Result<Self, regex::Error>
        ensures built { IfOk result (λ built. is_built_from built text.now) }
        ensures refused { IfErr result (refuses text.now) }
        ensures no_internal { IfErr result (λ error. error ≢ Internal) };
}

impl BuildFromText for Regex {
    ghost use Rattle.grok.specs.RegexFinds.{IsRegexOf};
    ghost use Rattle.regex.specs.Strings.{IsDefaultFailure};

    ghost is_built_from = { IsRegexOf };

    ghost refuses = { IsDefaultFailure };

    fn build_from_text(alloc: Global, text: &str) -> Result<Regex, regex::Error> {
        Regex::new(alloc, text)
    }
}

/// The engine over the crate `regex`, with its defaults: no flag and no limit is set.
pub struct RegexEngine {
    /// In a box, since a `Regex` takes over 4 kB, which would be copied at each move.
    pub(crate) regex: Box<Regex>,
    search: SharedSearch,
    ghost by_default: { ∥ IsReadByDefault (box_value regex) ∥₁ },
    ghost within_limit: { IsWithinLimit (box_value regex) },
}

// Not derived. So in the proof of a crate that drops a pattern, the drop is one call, and not the drop of
// each automaton.
impl Drop for RegexEngine {
    fn drop(self) {
        let RegexEngine {
            regex: _regex,
            search: _search,
        } = self;
    }
}

// If `regex` reports a failed allocation, the refusal is `Memory`. For every other error it is
// `Refused`.
impl From<regex::Error> for Refusal {
    ghost use Rattle.grok.specs.declared.engine.Refusal.TheVariants.{Memory};

    ghost from_gives = { λ error refusal. (refusal ≡ Memory) ↔ (error ≡ OutOfMemory) };

    fn from(error: regex::Error) -> Refusal {
        match error {
            // own error: `regex` reported that an allocation failed.
            regex::Error::OutOfMemory => Refusal::Memory,
            _ => Refusal::Refused,
        }
    }
}

impl Engine for RegexEngine {
    ghost use Rattle.regex.specs.Strings.{regex_source, regex_names};
    ghost use Rattle.grok.specs.RegexFinds.{captures_by, MayRefuse};
    ghost use Rattle.grok.specs.Engines.{engine_regex};

    ghost source_of = { λ engine. regex_source (engine_regex engine) };

    ghost group_names = { λ engine. regex_names (engine_regex engine) };

    ghost finds = { λ engine. captures_by (engine_regex engine) };

    ghost may_refuse = { MayRefuse };

    fn build(alloc: Global, text: &str) -> Result<Self, Refusal> {
        let regex = Regex::build_from_text(alloc, text)?;
        match Box::new(alloc, regex) {
            Ok(regex) => Ok(RegexEngine {
                regex,
                search: SharedSearch::new(),
            }),
            // own error: an allocation failed.
            Err(_) => Err(Refusal::Memory),
        }
    }

    fn text(&self) -> &str {
        self.regex.as_str()
    }

    fn names(&self) -> &[Option<String>] {
        self.regex.capture_names()
    }

    fn captures<'t>(
        &self,
        alloc: Global,
        line: &'t str,
    ) -> Result<Option<Vec<Option<&'t str>>>, AllocError> {
        let mut texts = Vec::new(alloc);
        let is_match = match self
            .search
            .write_captures(alloc, &self.regex, line, &mut texts)
        {
            Ok(is_match) => is_match,
            Err(_) => write_captures_uncached(alloc, &self.regex, line, &mut texts)?,
        };
        if is_match { Ok(Some(texts)) } else { Ok(None) }
    }
}

#[cold]
#[inline(never)]
fn write_captures_uncached<'t>(
    alloc: Global,
    regex: &Regex,
    line: &'t str,
    texts: &mut Vec<Option<&'t str>>,
) -> Result<bool, AllocError>
    ensures { IfOk result (λ is_match. IsMatchIn line.now (captures_by regex.now)
        (length (regex_names regex.now)) (texts_if is_match texts.new)) }
{
    let mut matcher = regex.matcher(alloc)?;
    match matcher.captures(line) {
        Some(found) => {
            *texts = group_texts(alloc, &found)?;
            Ok(true)
        }
        None => Ok(false),
    }
}

fn group_texts<'t>(
    alloc: Global,
    found: &Captures<'_, 't>,
) -> Result<Vec<Option<&'t str>>, AllocError>
    ensures texts { IfOk result
        (λ captures. capture_texts captures.items ≡ texts_at (captures_haystack found.now)
        (captures_span found.now) (length (captures_names found.now))) }
    ensures count { IfOk result (λ captures. vec_len captures ≡ length (captures_names found.now)) }
    ensures slices { IfOk result (λ captures. AreSlicesOf (captures_haystack found.now)
        (capture_texts captures.items)) }
{
    let mut captures = Vec::with_capacity(alloc, found.len())?;
    'groups: for number in 0..found.len() {
        captures.push(group_text(found, number))?;
    }
    Ok(captures)
}

fn group_text<'t>(found: &Captures<'_, 't>, number: usize) -> Option<&'t str>
    ensures text { option_map text_of result ≡ text_at (captures_haystack found.now)
        (captures_span found.now) number }
    ensures slice { IfSome (option_map text_of result) (IsSliceOf (captures_haystack found.now)) }
{
    let group = found.get(number)?;
    Some(group.as_str())
}

pub(crate) fn write_locations(
    locations: &mut Vec<Option<(usize, usize)>>,
    found: &Captures<'_, '_>,
) -> Result<(), AllocError>
    ensures texts { OnOk result (located_texts (captures_haystack found.now) locations.new.items
        ≡ texts_at (captures_haystack found.now) (captures_span found.now)
        (length (captures_names found.now))) }
    ensures count { OnOk result (vec_len locations.new ≡ length (captures_names found.now)) }
    ensures inside { OnOk result (AreLocationsIn
        (captures_haystack found.now) locations.new.items) }
{
    locations.clear();
    'groups: for number in 0..found.len() {
        locations.push(group_location(found, number))?;
    }
    Ok(())
}

fn group_location(found: &Captures<'_, '_>, number: usize) -> Option<(usize, usize)>
    ensures span { result ≡ captures_span found.now number }
    ensures inside { ForSome result (IsLocationIn (captures_haystack found.now)) }
{
    let group = found.get(number)?;
    Some((group.start(), group.end()))
}

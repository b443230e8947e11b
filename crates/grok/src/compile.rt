//! Compiles patterns.

ghost use Rattle.std.specs.Prelude.{◌≡◌, ◌≢◌, ◌⊎◌, [], map, MatchResult, MatchOption, IfOk, None, length as len};
ghost use Rattle.std.specs.Option.{option_map};
ghost use Rattle.std.specs.FinMap as finite;
ghost use Rattle.std.specs.String.{string_bytes};
ghost use Rattle.std.specs.BTreeMap.{get_by_text};
ghost use Rattle.grok.specs.Tree.{tree as tree_of, first_structural};
ghost use Rattle.grok.specs.Keys.{Structural, first_fault};
ghost use Rattle.grok.specs.Expanded.{expanded};
ghost use Rattle.grok.specs.KeyNumbers.{key_text, key_number};
ghost use Rattle.grok.specs.PlaceholderKeys.{AreKeysOf};
ghost use Rattle.grok.specs.Errors.{error_value, Memory as memory};
ghost use Rattle.grok.specs.Compiled.{IsExpansionError, IsFirstError, IsBuilt, IsRefusal, Compiles, expansion_of};
ghost use Rattle.grok.specs.steps.Expansions.{Expands, IsExpansionOf};
ghost use Rattle.grok.specs.steps.FullMeasures.{IsFullMeasure};
ghost use Rattle.grok.specs.RegexFinds.{IsReadByDefault, IsWithinLimit, MayRefuse};
ghost use Rattle.grok.specs.Engines.{engine_regex};
ghost use Rattle.regex.specs.Strings.{regex_source, regex_names};

use crate::Pattern;
use crate::defs::Grok;
use crate::engine::Engine;
use crate::engine::regex_engine::RegexEngine;
use crate::errors::Error;
use crate::errors::error::clash_error;
use crate::expand::first_clash::find_first_clash;
use crate::expand::key_assigner::KeyAssigner;
use crate::expand::known_parts::KnownParts;
use crate::expand::numbered::numbered_key;
use crate::expand::placeholder_key::PlaceholderKey;
use crate::key_table::KeyTable;
use crate::matches::PatternOf;
use crate::measure::Measure;
use crate::measure::full_measure::FullMeasure;
use crate::settings::Settings;
use crate::write::{ExpandedPattern, write};
use std::alloc::{AllocError, Global};

#[tactic(auto, using(crate::proofs::Keys::PlaceholdersHaveTheirKeys::have_keys, crate::proofs::Keys::PlaceholdersHaveTheirKeys::have_numbers))]
fn build<E: Engine>(alloc: Global, text: &str, given: KeyAssigner) -> Result<PatternOf<E>, Error>
    ensures { MatchResult result
        (IsBuilt E.source_of E.group_names text.now (map key_text given.keys.items) (map key_number given.keys.items)
        (λ key. option_map string_bytes (get_by_text given.extracts key)))
        (λ error. (error_value error ≡ memory) ⊎ IsRefusal E.may_refuse text.now
        (error_value error)) }
{
    let engine: E = match E::build(alloc, text) {
        Ok(engine) => engine,
        Err(refusal) => return Err(refusal.to_error(alloc, text)?),
    };
    let keys = KeyTable::for_names(alloc, engine.names(), given.keys.as_slice())?;
    Ok(PatternOf::new(alloc, engine, given.keys, keys, given.extracts))
}

/// Searches nothing if no alias that the pattern reaches ends in a number in brackets, since then no two
/// keys can clash.
fn error_of_clash<'a>(
    settings: Settings<'a>,
    pattern: &'a str,
    found: &FullMeasure<'a>,
) -> Result<Option<Error>, AllocError>
    requires { IsFullMeasure settings pattern.now found.now }
    ensures { IfOk result (λ error. MatchOption error
        (first_fault settings.entry.with_alias_only (tree_of (finite.get settings.entry.grok.now) pattern.now)
        ≡ option_map Structural (first_structural (tree_of (finite.get settings.entry.grok.now) pattern.now)))
        (λ error. IsFirstError settings.entry.with_alias_only
        (tree_of (finite.get settings.entry.grok.now) pattern.now) (error_value error))) }
{
    if !found.has_numbered() {
        return Ok(None);
    }
    let alloc = settings.grok.alloc();
    let names = found.read_names(alloc)?;
    let parts = KnownParts::of_names(settings, &names)?;
    let Some(clash) = find_first_clash(settings, &parts, pattern)? else {
        return Ok(None);
    };
    let key = numbered_key(alloc, clash.base, clash.number)?;
    Ok(Some(clash_error(alloc, key.as_str())?))
}

/// The buffer for the expanded text is reserved once, for exactly its `length` bytes.
pub(crate) fn expand_clean(
    settings: Settings<'_>,
    pattern: &str,
    length: usize,
) -> Result<ExpandedPattern, AllocError>
    requires some { pattern.now ≢ [] }
    requires clean { first_fault settings.with_alias_only
        (tree_of (finite.get settings.grok.now) pattern.now) ≡ None }
    requires long { length ≡ len (expanded settings.with_alias_only
        (tree_of (finite.get settings.grok.now) pattern.now)) }
    ensures { IfOk result (IsExpansionOf (expansion_of settings.entry.grok.now
        settings.entry.with_alias_only pattern.now)) }
{
    let text = String::with_capacity(settings.grok.alloc(), length)?;
    write(settings, pattern, text)
}

impl Grok {
    pub(crate) fn expand(
        &self,
        pattern: &str,
        with_alias_only: bool,
    ) -> Result<ExpandedPattern, Error>
        ensures { Expands (expansion_of self.now with_alias_only pattern.now) result }
    {
        if pattern.is_empty() {
            return Err(Error::CompiledPatternIsEmpty(String::new(self.alloc())));
        }
        let settings = Settings {
            grok: self,
            with_alias_only,
        };
        let found = FullMeasure::of_pattern(settings, pattern)?;
        match found.measure {
            // own error: the text of the pattern would be longer than `usize::MAX` bytes, so no
            // allocation could hold it.
            Measure::TooLong => Err(Error::Memory),
            Measure::Fault(fault) => match error_of_clash(settings, pattern, &found)? {
                Some(error) => Err(error),
                None => Err(fault.to_error(self.alloc())?),
            },
            Measure::Size { length, .. } => {
                if let Some(error) = error_of_clash(settings, pattern, &found)? {
                    return Err(error);
                }
                // Frees what measuring remembers before the text is allocated.
                drop(found);
                Ok(expand_clean(settings, pattern, length)?)
            }
        }
    }

    /// Returns the keys of a pattern's capturing placeholders, in reading order. In alias-only mode these
    /// are the placeholders with an alias.
    ///
    /// # Errors
    ///
    /// As for [`Grok::compile_with`], except that no engine is asked.
    pub fn keys(&self, pattern: &str, with_alias_only: bool) -> Result<Vec<PlaceholderKey>, Error>
        ensures { MatchResult result
            (λ keys. AreKeysOf (expansion_of self.now with_alias_only pattern.now) keys.items)
            (IsExpansionError (expansion_of self.now with_alias_only pattern.now)) }
    {
        let ExpandedPattern { keys, .. } = self.expand(pattern, with_alias_only)?;
        Ok(keys.keys)
    }

    /// Compiles a pattern for an engine. Each placeholder is replaced by its definition, in a group
    /// of its own, and the engine is built from that text.
    ///
    /// In alias-only mode a placeholder without an alias has no key. The compiled pattern owns all
    /// that it holds.
    ///
    /// # Errors
    ///
    /// - `CompiledPatternIsEmpty` if the pattern is the empty text.
    /// - `GenericCompilationFailure`, `DefinitionNotFound` or `RecursionTooDeep` for the first
    ///   fault in reading order: a malformed placeholder, a name without a definition, a
    ///   placeholder that is nested 1,024 levels deep, or one that would get a key that an earlier
    ///   one has. If one placeholder has several of these, a missing definition comes before a
    ///   clash of keys, and that before the depth.
    /// - `RegexCompilationFailed` if the engine refuses the expanded text.
    /// - `Memory` if an allocation fails, if the expanded text of a pattern without a structural
    ///   fault is longer than the greatest `usize`, or if before a fault a base key `x` is used
    ///   2^64 times or more and the least number `n` of an alias `x[n]` is `usize::MAX` or more.
    pub fn compile_with<E: Engine>(
        &self,
        pattern: &str,
        with_alias_only: bool,
    ) -> Result<PatternOf<E>, Error>
        ensures { Compiles E.source_of E.group_names E.may_refuse
            (expansion_of self.now with_alias_only pattern.now) result }
    {
        let alloc = self.alloc();
        let ExpandedPattern { text, keys } = self.expand(pattern, with_alias_only)?;
        build(alloc, text.as_str(), keys)
    }

    /// Compiles a pattern for `regex`, with its defaults.
    ///
    /// # Errors
    ///
    /// As for [`Grok::compile_with`].
    pub fn compile(&self, pattern: &str, with_alias_only: bool) -> Result<Pattern, Error>
        ensures answer { Compiles (λ engine. regex_source (engine_regex engine))
            (λ engine. regex_names (engine_regex engine)) MayRefuse
            (expansion_of self.now with_alias_only pattern.now) result }
        ensures read { IfOk result (λ pattern. ∥ IsReadByDefault (engine_regex pattern.engine) ∥₁) }
        ensures small { IfOk result (λ pattern. IsWithinLimit (engine_regex pattern.engine)) }
    {
        self.compile_with::<RegexEngine>(pattern, with_alias_only)
    }
}

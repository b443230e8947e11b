//! Counts the values of keys, for `--count`.
ghost use Rattle.std.specs.Prelude.{◌≡◌, ℕ, List, Some, None, IfOk, OnOk, option_map, string_bytes};
ghost use Rattle.groklog_answers.specs.{found_text_of, count_of, others_of, most_of, AreCommonest};
ghost use Rattle.groklog_answers.specs.PlanViews.{names_of};
ghost use Rattle.groklog_answers.specs.KeyCounts.{found_value, list_in, counted_in, keys_text, CountsValue};

use crate::layout::OutputFormat;
use crate::searched_lines::{Flow, FoundLine, LineTask};
use crate::searches::LineMatch;
use crate::value_counts::ValueCounts;
use crate::value_lists::{list_text, pairs_of_keys};
use std::alloc::{AllocError, Global};

/// Counts the values of a key in the matches of lines, or those of several keys together. It writes nothing
/// for a line.
#[derive(Drop)]
pub struct KeyCounts<'a> {
    alloc: Global,
    /// The keys whose values are counted.
    pub keys: Vec<&'a str>,
    /// How the counts are written. The values of several keys are counted by what is written of them.
    pub format: OutputFormat,
    pub counts: ValueCounts,
}

/// Returns the text of the values that these keys have in a match, or `None` if one of them has no value in it.
fn list_in<'m>(
    alloc: Global,
    format: OutputFormat,
    found: LineMatch<'m>,
    keys: &[&'m str],
) -> Result<Option<String>, AllocError>
    ensures { IfOk result (λ text. option_map string_bytes text
        ≡ list_in format (Some (found_text_of found.entry)) (names_of keys.now)) }
{
    match pairs_of_keys(alloc, found.matches, keys)? {
        Some(pairs) => Ok(Some(list_text(alloc, format, &pairs)?)),
        None => Ok(None),
    }
}

impl<'a> KeyCounts<'a> {
    /// Counts at most `most` different values of a key, or lists of values of several keys.
    pub fn new(
        alloc: Global,
        keys: Vec<&'a str>,
        format: OutputFormat,
        most: usize,
    ) -> KeyCounts<'a>
        ensures keys { result.keys ≡ keys.entry }
        ensures format { result.format ≡ format }
        ensures counts { (value : List ℕ) → count_of result.counts value ≡ None }
        ensures others { others_of result.counts ≡ 0 }
        ensures most { most_of result.counts ≡ most }
    {
        KeyCounts {
            alloc,
            keys,
            format,
            counts: ValueCounts::new(alloc, most),
        }
    }

    /// Counts the value that the key has in a match, if it has one. The key is the only one.
    fn count_value(&mut self, key: &str, found: LineMatch<'_>) -> Result<(), AllocError>
        ensures { OnOk result (CountsValue self.old.counts self.new.counts
            (found_value (Some (found_text_of found.entry)) key.now)) }
    {
        match found.matches.get(key) {
            Some(value) => self.counts.note(value),
            None => Ok(()),
        }
    }

    /// Counts the values that the keys have in a match, if each of them has one.
    fn count_list(&mut self, found: LineMatch<'_>) -> Result<(), AllocError>
        ensures { OnOk result (CountsValue self.old.counts self.new.counts
            (list_in self.old.format (Some (found_text_of found.entry)) (names_of self.old.keys.items))) }
    {
        match list_in(self.alloc, self.format, found, &self.keys)? {
            Some(text) => self.counts.note(text.as_str()),
            None => Ok(()),
        }
    }

    /// Counts what the keys have as their values in a match, if each of them has one.
    fn count(&mut self, found: LineMatch<'_>) -> Result<(), AllocError>
        ensures { OnOk result (CountsValue self.old.counts self.new.counts
            (counted_in self.old.format (Some (found_text_of found.entry)) (names_of self.old.keys.items))) }
    {
        if let [key] = self.keys.as_slice() {
            let key = *key;
            return self.count_value(key, found);
        }
        self.count_list(found)
    }

    /// Returns what came most often, at most `top` values or lists of them, as it is written: as JSON objects, or as
    /// records with a header. What came most often comes first, and of that the first in byte order.
    pub fn text(&self, top: usize) -> Result<Vec<u8>, AllocError>
        ensures { IfOk result (λ text. (pairs : List (List ℕ × ℕ)) × AreCommonest self.now.counts top pairs
            × (text.items ≡ keys_text self.now.format (names_of self.now.keys.items) pairs)) }
    {
        match self.keys.as_slice() {
            [_] => self.counts.text(self.format, top),
            keys => self.counts.text_of_lists(self.format, keys, top),
        }
    }
}

impl<'a> LineTask<'a> for KeyCounts<'a> {
    ghost use Rattle.std.specs.Prelude.{[]};
    ghost use Rattle.std.specs.Result.{result_ok};
    ghost use Rattle.groklog_answers.specs.PlanViews.{names_of};
    ghost use Rattle.groklog_answers.specs.KeyCounts.{counted_in, CountsValue};

    ghost answer = { λ _ found n line. [] };

    ghost takes = { λ old found n line new. CountsValue old.counts new.counts
        (counted_in old.format (result_ok found) (names_of old.keys.items)) };

    fn begin_file(&mut self, _name: &'a str) {}

    fn needs_broken(&self) -> bool {
        false
    }

    fn take(&mut self, line: FoundLine<'_>, out: &mut Vec<u8>) -> Result<Flow, AllocError> {
        let _ = out;
        if let Ok(found) = line.found {
            self.count(found)?;
        }
        Ok(Flow::More)
    }
}

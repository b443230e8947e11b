//! Counts how often each value of a key comes.
ghost use Rattle.std.specs.Prelude.{◌≡◌, ℕ, ◌<◌, ◌≤◌, ◌^◌, All, List, Some, None, ◌++◌, map, flat_map, IfOk, OnOk, OnErr, is_some, string_bytes};
ghost use Rattle.groklog_answers.specs.PlanViews.{names_of};
ghost use Rattle.groklog_answers.specs.ValueLists.{frame_text, frame_of, framed_list, list_header, lists_text};
ghost use Rattle.groklog_answers.specs.ValueCounts.{count_of, value_count, most_of, others_of, one_more, IsUnchanged, SetsCount, SkipsValue, counted_values, counted_pair, AreByCount, AreCommonest, counted_object, counted_record, counts_text};

use crate::layout::OutputFormat;
use crate::object::{write_number, write_string};
use crate::record::{add_names, append_record};
use itoa::Buffer;
use json::Writer;
use std::alloc::{AllocError, Global};
use std::collections::BTreeMap;

/// Counts how often each value comes, for a limited number of different values: those that come
/// first. Their counts are exact. All other values are counted together.
#[derive(Drop)]
pub struct ValueCounts {
    alloc: Global,
    /// How many different values are counted.
    most: usize,
    counts: BTreeMap<String, u64>,
    /// How often other values came.
    others: u64,
}

/// A value, and how often it came.
#[derive(Clone, Copy)]
pub struct Counted<'c> {
    pub value: &'c str,
    pub count: u64,
}

fn counted_of<'c>(value: &'c String, count: &u64) -> Counted<'c>
    ensures pair { counted_pair result ≡ (string_bytes value.now, count.now) }
    ensures fits { result.count < 2 ^ 64 }
{
    let (value, count) = (value.as_str(), *count);
    Counted { value, count }
}

#[tactic(auto, using(crate::proofs::TokensOfMembers::object_in_two_parts))]
fn write_object(text: Vec<u8>, counted: Counted<'_>) -> Result<Vec<u8>, AllocError>
    ensures { IfOk result (λ written. written.items ≡ text.items ++ counted_object (counted_pair counted.entry)) }
{
    let mut writer = Writer::new(text);
    writer.begin_object()?;
    write_string(&mut writer, "value", counted.value)?;
    write_number(&mut writer, "count", counted.count)?;
    writer.end_object()?;
    let mut text = writer.into_inner();
    text.push(b'\n')?;
    Ok(text)
}

fn append_counted(
    alloc: Global,
    text: &mut Vec<u8>,
    value: &str,
    count: u64,
) -> Result<(), AllocError>
    ensures { OnOk result (text.new.items ≡ text.old.items ++ counted_record (value.now, count)) }
{
    let mut digits = Buffer::new();
    let digits = digits.format(count);
    append_record(alloc, text, &[value.as_bytes(), digits.as_bytes()])
}

fn objects_of(alloc: Global, all: &[Counted<'_>]) -> Result<Vec<u8>, AllocError>
    ensures { IfOk result (λ text. text.items ≡ flat_map counted_object (map counted_pair all.now)) }
{
    let mut text = Vec::new(alloc);
    'values: for counted in all {
        text = write_object(text, *counted)?;
    }
    Ok(text)
}

fn records_of(alloc: Global, all: &[Counted<'_>]) -> Result<Vec<u8>, AllocError>
    ensures { IfOk result (λ text. text.items ≡ counts_text OutputFormat.Csv (map counted_pair all.now)) }
{
    let mut text = Vec::new(alloc);
    append_record(alloc, &mut text, &[b"value", b"count"])?;
    'values: for counted in all {
        append_counted(alloc, &mut text, counted.value, counted.count)?;
    }
    Ok(text)
}

/// The texts that are written before, between and after a list of values and its count.
#[derive(Clone, Copy)]
struct ListFrame {
    before: &'static str,
    between: &'static str,
    after: &'static str,
}

fn frame_of(format: OutputFormat) -> ListFrame
    ensures { frame_text result ≡ frame_of format }
{
    match format {
        OutputFormat::Csv => ListFrame {
            before: "",
            between: ",",
            after: "\n",
        },
        OutputFormat::Json | OutputFormat::Pairs => ListFrame {
            before: "{\"value\":",
            between: ",\"count\":",
            after: "}\n",
        },
    }
}

fn framed_list(alloc: Global, frame: ListFrame, counted: Counted<'_>) -> Result<String, AllocError>
    ensures { IfOk result (λ text. string_bytes text
        ≡ framed_list (frame_text frame) (counted_pair counted.entry)) }
{
    let (value, count) = (counted.value, counted.count);
    format!(in alloc;
        "{}{value}{}{count}{}",
        frame.before, frame.between, frame.after
    )
}

fn list_header(alloc: Global, format: OutputFormat, keys: &[&str]) -> Result<Vec<u8>, AllocError>
    ensures { IfOk result (λ text. text.items ≡ list_header format (names_of keys.now)) }
{
    let mut text = Vec::new(alloc);
    if let OutputFormat::Csv = format {
        let mut names = Vec::new(alloc);
        add_names(&mut names, keys)?;
        names.push("count".as_bytes())?;
        append_record(alloc, &mut text, &names)?;
    }
    Ok(text)
}

fn append_lists(
    alloc: Global,
    text: Vec<u8>,
    frame: ListFrame,
    all: &[Counted<'_>],
) -> Result<Vec<u8>, AllocError>
    ensures { IfOk result (λ written. written.items ≡ text.items
        ++ flat_map (framed_list (frame_text frame)) (map counted_pair all.now)) }
{
    let mut text = text;
    'values: for counted in all {
        let line = framed_list(alloc, frame, *counted)?;
        text.extend_from_slice(line.as_bytes())?;
    }
    Ok(text)
}

impl ValueCounts {
    /// Makes counts of at most `most` different values.
    pub fn new(alloc: Global, most: usize) -> ValueCounts
        ensures counts { (value : List ℕ) → count_of result value ≡ None }
        ensures others { others_of result ≡ 0 }
        ensures most { most_of result ≡ most }
    {
        ValueCounts {
            alloc,
            most,
            counts: BTreeMap::new(alloc),
            others: 0,
        }
    }

    fn note_again(&mut self, value: &str) -> bool
        ensures again { (count : ℕ) → count_of self.old value.now ≡ Some count
            → SetsCount self.old self.new value.now (one_more count) }
        ensures other { count_of self.old value.now ≡ None → self.new ≡ self.old }
        ensures known { result ≡ is_some (count_of self.old value.now) }
    {
        let Some(count) = self.counts.get_mut(value) else {
            return false;
        };
        *count = count.saturating_add(1);
        true
    }

    /// Counts a value. If there is no room for a value that didn't come before, it is counted with all others
    /// of that kind. No count grows past the greatest number of 64 bits. If an allocation fails, the value
    /// isn't counted.
    pub fn note(&mut self, value: &str) -> Result<(), AllocError>
        ensures again { OnOk result ((count : ℕ) → count_of self.old value.now ≡ Some count
            → SetsCount self.old self.new value.now (one_more count)) }
        ensures first { OnOk result (count_of self.old value.now ≡ None
            → value_count self.old < most_of self.old → SetsCount self.old self.new value.now 1) }
        ensures full { OnOk result (count_of self.old value.now ≡ None
            → most_of self.old ≤ value_count self.old → SkipsValue self.old self.new) }
        ensures memory { OnErr result (IsUnchanged self.old self.new) }
    {
        if self.note_again(value) {
            return Ok(());
        }
        if self.counts.len() >= self.most {
            self.others = self.others.saturating_add(1);
            return Ok(());
        }
        let value = String::from_str(self.alloc, value)?;
        self.counts.insert(value, 1)?;
        Ok(())
    }

    /// Returns how often values came that aren't counted by themselves.
    pub fn others(&self) -> u64
        ensures { result ≡ others_of self.now }
    {
        self.others
    }

    fn listed(&self) -> Result<Vec<Counted<'_>>, AllocError>
        ensures values { IfOk result (λ all. map counted_pair all.items ≡ counted_values self.now) }
        ensures fits { IfOk result (λ all. All (λ counted. counted.count < 2 ^ 64) all.items) }
    {
        let mut all = Vec::new(self.alloc);
        'values: for (value, count) in &self.counts {
            all.push(counted_of(value, count))?;
        }
        Ok(all)
    }

    /// Returns the values with their counts: those that came most often first, and of these the first
    /// in byte order.
    pub fn sorted(&self) -> Result<Vec<Counted<'_>>, AllocError>
        ensures { IfOk result (λ all. AreByCount self.now (map counted_pair all.items)) }
    {
        let mut all = self.listed()?;
        all.sort_by_key(|counted| u64::MAX - counted.count)?;
        Ok(all)
    }

    fn commonest(&self, top: usize) -> Result<Vec<Counted<'_>>, AllocError>
        ensures { IfOk result (λ all. AreCommonest self.now top (map counted_pair all.items)) }
    {
        let mut all = self.sorted()?;
        all.truncate(top);
        Ok(all)
    }

    /// Returns the values that came most often with their counts as they are written, at most `top` of them: as JSON
    /// objects, or as records with a header. Those that came most often come first, and of these the first in byte order.
    pub fn text(&self, format: OutputFormat, top: usize) -> Result<Vec<u8>, AllocError>
        ensures { IfOk result (λ text. (pairs : List (List ℕ × ℕ)) × AreCommonest self.now top pairs
            × (text.items ≡ counts_text format pairs)) }
    {
        let all = self.commonest(top)?;
        match format {
            OutputFormat::Csv => records_of(self.alloc, &all),
            OutputFormat::Json | OutputFormat::Pairs => objects_of(self.alloc, &all),
        }
    }

    /// Returns the same as `text`, for lists of values that were counted by their texts. A record has a column
    /// for each of these keys.
    pub fn text_of_lists(
        &self,
        format: OutputFormat,
        keys: &[&str],
        top: usize,
    ) -> Result<Vec<u8>, AllocError>
        ensures { IfOk result (λ text. (pairs : List (List ℕ × ℕ)) × AreCommonest self.now top pairs
            × (text.items ≡ lists_text format (names_of keys.now) pairs)) }
    {
        let all = self.commonest(top)?;
        let header = list_header(self.alloc, format, keys)?;
        append_lists(self.alloc, header, frame_of(format), &all)
    }
}

//! Finds where in a line the values of keys are.
ghost use Rattle.std.specs.Prelude.{◌≡◌, IfOk, OnOk, Some, map, option_map, slice_get};
ghost use Rattle.std.specs.List.{AllZip, IsDistinct, filter_map};
ghost use Rattle.std.specs.Str.{bytes_eq};
ghost use Rattle.grok.specs.Answers.{value_of};
ghost use Rattle.grok.specs.BorrowedMatches.{borrowed_line, borrowed_keys, borrowed_captures};
ghost use Rattle.groklog_answers.specs.{found_text_of};
ghost use Rattle.groklog_answers.specs.PlanViews.{names_of};
ghost use Rattle.groklog_views.specs.KeyNumbers.{counts, AreNumbers, AreNumbersOf};
ghost use Rattle.groklog_views.specs.steps.MoreKeys.{HasMore};
ghost use Rattle.groklog_views.specs.Fields.{field_text, fields_text, numbered_value, numbers_at, values_at};

use grok::MatchesRef;
use groklog_answers::{LineMatch, NamedPattern};
use indexmap::IndexSet;
use marked_lines::Field;
use std::alloc::{AllocError, Global};
use std::ops::Range;

/// Finds where in a line the values of the keys are.
#[derive(Drop)]
pub struct LocatedFields<'a> {
    alloc: Global,
    /// The keys of all patterns, each once. The keys of the first pattern come first, and those of one
    /// pattern in the order of their groups.
    pub keys: Vec<&'a str>,
    /// The numbers of the keys of each pattern, in the order of their groups. So a key comes after those
    /// whose groups are around its own.
    numbers_of: Vec<Vec<usize>>,
}

/// Returns whether a key counts: those in `fields` do, or all if it isn't given.
fn counts(fields: Option<&[&str]>, key: &str) -> bool
    ensures { result ≡ counts fields.entry key.now }
{
    match fields {
        Some(fields) => fields.contains(&key),
        None => true,
    }
}

/// Returns the number of a key, which it gets if it has none yet.
fn number_of<'p>(all: &mut IndexSet<&'p str>, key: &'p str) -> Result<usize, AllocError>
    ensures number { IfOk result (λ number. slice_get (names_of all.new.keys) number ≡ Some key.now) }
    ensures kept { OnOk result (HasMore all.old.keys all.new.keys) }
{
    let (number, _) = all.insert_full(key)?;
    Ok(number)
}

/// Returns the numbers of the keys that count, in their order. Each that has none yet gets the next one.
fn numbers_of<'p>(
    alloc: Global,
    all: &mut IndexSet<&'p str>,
    by_group: &[(usize, &'p str)],
    fields: Option<&[&str]>,
) -> Result<Vec<usize>, AllocError>
    ensures numbers { IfOk result (λ numbers. AreNumbers (counts fields.entry) (names_of all.new.keys) by_group.now numbers.items) }
    ensures kept { OnOk result (HasMore all.old.keys all.new.keys) }
{
    let mut numbers = Vec::new(alloc);
    'keys: for key in by_group {
        if counts(fields, key.1) {
            numbers.push(number_of(all, key.1)?)?;
        }
    }
    Ok(numbers)
}

fn field_of(matches: MatchesRef<'_>, keys: &[&str], key: usize) -> Option<Field>
    ensures { option_map (field_text (borrowed_line matches.entry)) result
        ≡ numbered_value (value_of (borrowed_keys matches.entry) (borrowed_captures matches.entry)) (names_of keys.now) key }
{
    let name = keys.get(key)?;
    let Range { start, end } = matches.range(name)?;
    Some(Field { key, start, end })
}

fn fields_in(
    alloc: Global,
    matches: MatchesRef<'_>,
    keys: &[&str],
    numbers: &[usize],
) -> Result<Vec<Field>, AllocError>
    ensures { IfOk result (λ fields. fields_text (borrowed_line matches.entry) fields
        ≡ values_at (value_of (borrowed_keys matches.entry) (borrowed_captures matches.entry)) (names_of keys.now) numbers.now) }
{
    let mut fields = Vec::new(alloc);
    'numbers: for number in numbers {
        if let Some(field) = field_of(matches, keys, *number) {
            fields.push(field)?;
        }
    }
    Ok(fields)
}

fn numbers_at(numbers_of: &[Vec<usize>], index: usize) -> &[usize]
    ensures { result.now ≡ numbers_at numbers_of.now index }
{
    match numbers_of.get(index) {
        Some(numbers) => numbers,
        None => &[],
    }
}

impl<'a> LocatedFields<'a> {
    /// Takes the patterns of a run, in their order. If `fields` is given, only these keys count.
    pub fn new(
        alloc: Global,
        patterns: &[NamedPattern<'a>],
        fields: Option<&[&'a str]>,
    ) -> Result<LocatedFields<'a>, AllocError>
        ensures once { IfOk result (λ located. IsDistinct (λ key other. bytes_eq key.now other.now) located.keys.items) }
        ensures numbers { IfOk result (λ located. AllZip (λ named numbers. AreNumbersOf (counts fields.entry) (names_of located.keys.items) named numbers.items)
            patterns.now located.numbers_of.items) }
    {
        let mut all = IndexSet::new(alloc);
        let mut numbers_by_pattern = Vec::new(alloc);
        'patterns: for named in patterns {
            let by_group = named.pattern.keys_by_group()?;
            numbers_by_pattern.push(numbers_of(alloc, &mut all, &by_group, fields)?)?;
        }
        Ok(LocatedFields {
            alloc,
            keys: Vec::from_slice(alloc, all.as_slice())?,
            numbers_of: numbers_by_pattern,
        })
    }

    /// Returns the fields of a match in its line. A field comes after those around it.
    pub fn find(&self, found: LineMatch<'_>) -> Result<Vec<Field>, AllocError>
        ensures { IfOk result (λ fields. fields_text (borrowed_line found.entry.matches) fields
            ≡ values_at (found_text_of found.entry).value (names_of self.now.keys.items)
            (numbers_at self.now.numbers_of.items found.entry.index)) }
    {
        let numbers = numbers_at(&self.numbers_of, found.index);
        fields_in(self.alloc, found.matches, &self.keys, numbers)
    }
}

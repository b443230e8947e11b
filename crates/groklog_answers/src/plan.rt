//! Plans where the values of keys are written in JSON objects: in nested objects, and several values
//! in one array.
ghost use Rattle.std.specs.Prelude.{◌≡◌, ◌≤◌, [], IfOk, IfNone, true, option_map, option_to_list, map, length};
ghost use Rattle.groklog_answers.specs.Plans.{is_name, first_name, names_within, most_names, key_names, comes_before, is_before, MayPrecede, AreInOrder, continues, entries_from, field_of, gathered, first_of, IsShallow, IsPlan};
ghost use Rattle.std.specs.List.{list_any};
ghost use Rattle.std.specs.Str.{bytes_eq};
ghost use Rattle.groklog_answers.specs.steps.OpenObjects.{shared_len};
ghost use Rattle.groklog_answers.specs.PlanViews.{names_of, shared_text, entry_text, field_text, plan_text};

use std::alloc::{AllocError, Global};
use std::cmp::Ordering;
use std::mem;

/// The most names that a key may have, as [`Plan::new`] says. Readers of JSON take objects that are nested
/// this deep.
const MOST_NAMES: usize = 100;

/// A key of a pattern, with the key that its values are written under. These differ if several
/// placeholders share a key.
#[derive(Clone, Copy)]
pub struct SharedKey<'k> {
    pub key: &'k str,
    pub base: &'k str,
}

/// A member of the object that is written for a match. Its place is in the innermost of the objects
/// that `parents` name, and it has its values from `keys`.
#[derive(Drop)]
pub struct Field<'k> {
    pub(crate) parents: Vec<&'k str>,
    pub(crate) name: &'k str,
    pub(crate) keys: Vec<&'k str>,
}

impl<'k> Field<'k> {
    fn first_name(&self) -> &'k str
        ensures { result.now ≡ first_of (field_text self.now) }
    {
        match self.parents.as_slice().first() {
            Some(parent) => parent,
            None => self.name,
        }
    }
}

/// Where the values of each key of a pattern are written in a JSON object.
#[derive(Drop)]
pub struct Plan<'k> {
    pub(crate) fields: Vec<Field<'k>>,
}

/// Two keys that can't both be written: they are for the same member, or the member of the first one
/// is also the object for the second one.
#[derive(Clone, Copy)]
pub struct PlanClash<'k> {
    pub first: &'k str,
    pub second: &'k str,
}

/// Why there is no plan.
#[derive(Clone, Copy)]
pub enum PlanError<'k> {
    /// An allocation failed.
    Memory,
    /// Two keys can't both be written.
    Clash(PlanClash<'k>),
}

impl From<AllocError> for PlanError<'_> {
    fn from(_: AllocError) -> Self {
        // own error: an allocation failed.
        PlanError::Memory
    }
}

/// A key with the names that lead to the member with its values. `index` says how many keys are read
/// before it.
#[derive(Drop)]
struct Entry<'k> {
    names: Vec<&'k str>,
    key: &'k str,
    base: &'k str,
    index: usize,
}

fn is_name(text: &str) -> bool
    ensures { result ≡ is_name text.now }
{
    !text.is_empty() && !text.as_bytes().contains(&b'[')
}

fn first_name(text: &str) -> Option<(&str, &str)>
    ensures { option_map (λ found. (found.0.now, found.1.now)) result ≡ first_name text.now }
{
    let Some(inside) = text.strip_prefix('[') else {
        return None;
    };
    let Some((name, rest)) = inside.split_once(']') else {
        return None;
    };
    if is_name(name) {
        Some((name, rest))
    } else {
        None
    }
}

fn names_in<'k>(alloc: Global, key: &'k str) -> Result<Option<Vec<&'k str>>, AllocError>
    ensures { IfOk result (λ names. option_map (λ names. names_of names.items) names
        ≡ names_within most_names key.now) }
{
    let mut names = Vec::new(alloc);
    let mut rest = key;
    'names: while names.len() < MOST_NAMES {
        let Some((name, more)) = first_name(rest) else {
            return Ok(None);
        };
        names.push(name)?;
        if more.is_empty() {
            return Ok(Some(names));
        }
        rest = more;
    }
    Ok(None)
}

fn key_names<'k>(alloc: Global, key: &'k str, is_nested: bool) -> Result<Vec<&'k str>, AllocError>
    ensures { IfOk result (λ names. names_of names.items ≡ key_names is_nested key.now) }
{
    if is_nested && let Some(names) = names_in(alloc, key)? {
        return Ok(names);
    }
    Vec::from_slice(alloc, &[key])
}

fn entries_of<'k>(
    alloc: Global,
    keys: &[SharedKey<'k>],
    is_nested: bool,
) -> Result<Vec<Entry<'k>>, AllocError>
    ensures { IfOk result (λ entries. map entry_text entries.items
        ≡ entries_from is_nested 0 (map shared_text keys.now)) }
{
    let mut entries = Vec::new(alloc);
    'keys: for (index, shared) in keys.iter().enumerate() {
        entries.push(Entry {
            names: key_names(alloc, shared.base, is_nested)?,
            key: shared.key,
            base: shared.base,
            index,
        })?;
    }
    Ok(entries)
}

/// Returns how many names both lists have in common at their beginnings.
pub(crate) fn shared_len(names: &[&str], others: &[&str]) -> usize
    ensures value { result ≡ shared_len (names_of names.now) (names_of others.now) }
    ensures within { result ≤ length names.now }
    ensures within_others { result ≤ length others.now }
{
    'names: for (index, name) in names.iter().enumerate() {
        let Some(other) = others.get(index) else {
            return index;
        };
        if name != other {
            return index;
        }
    }
    names.len()
}

/// Neither member is inside the other one.
fn comes_before(names: &[&str], others: &[&str]) -> bool
    ensures { result ≡ comes_before (names_of names.now) (names_of others.now) }
{
    let shared = shared_len(names, others);
    match (names.get(shared), others.get(shared)) {
        (Some(name), Some(other)) => name.as_bytes().cmp(other.as_bytes()).is_lt(),
        _ => false,
    }
}

impl<'k> Entry<'k> {
    /// Compares the names of two entries, and then their indices.
    fn compare(&self, other: &Entry<'_>) -> Ordering {
        'names: for (name, other) in self.names.iter().zip(&other.names) {
            match name.cmp(other) {
                Ordering::Equal => {}
                ordering => return ordering,
            }
        }
        let by_len = self.names.len().cmp(&other.names.len());
        by_len.then(self.index.cmp(&other.index))
    }

    fn is_before(&self, next: &Entry<'_>) -> bool
        ensures { result ≡ is_before (entry_text self.now) (entry_text next.now) }
    {
        comes_before(&self.names, &next.names)
            || (self.base == next.base && self.index < next.index)
    }

    fn field(&self, alloc: Global, keys: Vec<&'k str>) -> Result<Field<'k>, AllocError>
        ensures { IfOk result (λ field. field_text field
            ≡ field_of self.now.base.now (names_of self.now.names.items) (names_of keys.entry.items)) }
    {
        match self.names.as_slice().split_last() {
            Some((name, parents)) => {
                let parents = Vec::from_slice(alloc, parents)?;
                Ok(Field {
                    parents,
                    name: *name,
                    keys,
                })
            }
            None => Ok(Field {
                parents: Vec::new(alloc),
                name: self.base,
                keys,
            }),
        }
    }
}

fn continues(base: &str, next: Option<&Entry<'_>>) -> bool
    ensures { result ≡ continues base.now (option_to_list (option_map (λ next. entry_text next.now) next.entry)) }
{
    match next {
        Some(next) => base == next.base,
        None => false,
    }
}

fn gather<'k>(alloc: Global, entries: &[Entry<'k>]) -> Result<Vec<Field<'k>>, AllocError>
    ensures { IfOk result (λ fields. map field_text fields.items ≡ gathered [] (map entry_text entries.now)) }
{
    let mut fields = Vec::new(alloc);
    let mut keys = Vec::new(alloc);
    'entries: for (index, entry) in entries.iter().enumerate() {
        keys.push(entry.key)?;
        if !continues(entry.base, entries.get(index + 1)) {
            let all = mem::replace(&mut keys, Vec::new(alloc));
            fields.push(entry.field(alloc, all)?)?;
        }
    }
    Ok(fields)
}

fn may_precede(entry: &Entry<'_>, next: Option<&Entry<'_>>) -> bool
    ensures { result ≡ true → MayPrecede (entry_text entry.now) (option_to_list (option_map (λ next. entry_text next.now) next.entry)) }
{
    match next {
        Some(next) => entry.is_before(next),
        None => true,
    }
}

fn first_clash(entries: &[Entry<'_>]) -> Option<usize>
    ensures { IfNone result (AreInOrder (map entry_text entries.now)) }
{
    'entries: for (index, entry) in entries.iter().enumerate() {
        if !may_precede(entry, entries.get(index + 1)) {
            return Some(index);
        }
    }
    None
}

fn base_at<'k>(entries: &[Entry<'k>], index: usize) -> &'k str {
    match entries.get(index) {
        Some(entry) => entry.base,
        None => "",
    }
}

impl<'k> Plan<'k> {
    /// Plans where the values of these keys, which come in reading order, are written: in the member for
    /// their base, which has an array if several of them have a value. If `is_nested` is set, a base of
    /// the form `[a][b]..` with at most 100 names is the member `b` of an object `a`.
    ///
    /// # Errors
    ///
    /// If an allocation fails, or if two bases are for the same member, such as `a` and `[a]`, or the
    /// member of one is also an object for the other, such as `[a]` and `[a][b]`.
    pub fn new(
        alloc: Global,
        keys: &[SharedKey<'k>],
        is_nested: bool,
    ) -> Result<Plan<'k>, PlanError<'k>>
        ensures plan { IfOk result (λ plan. IsPlan is_nested (map shared_text keys.now) (plan_text plan)) }
        ensures shallow { IfOk result (λ plan. IsShallow (plan_text plan)) }
    {
        let mut entries = entries_of(alloc, keys, is_nested)?;
        entries.sort_by(|entry, other| entry.compare(other))?;
        if let Some(index) = first_clash(&entries) {
            return Err(PlanError::Clash(PlanClash {
                first: base_at(&entries, index),
                second: base_at(&entries, index.saturating_add(1)),
            }));
        }
        let fields = gather(alloc, &entries)?;
        Ok(Plan { fields })
    }

    /// Returns whether the outermost object has a member with this name, be it a field or an object with fields.
    pub fn has_member(&self, name: &str) -> bool
        ensures { result ≡ list_any (λ field. bytes_eq (first_of field) name.now) (plan_text self.now) }
    {
        'fields: for field in &self.fields {
            if field.first_name() == name {
                return true;
            }
        }
        false
    }
}

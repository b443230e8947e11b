//! Finds out which lines a pattern fits.
ghost use Rattle.std.specs.Prelude.{◌≡◌, ◌<◌, IfOk, OnOk, IfSome, count_by, filter, map, not};
ghost use Rattle.std.specs.Map.{keys_of};
ghost use Rattle.grok.specs.Answers.{value_of, walk};
ghost use Rattle.grok.specs.BorrowedMatches.{borrowed_keys, borrowed_captures};
ghost use Rattle.log_samples.specs.Fits.{texts_of, tells, finds, fits, has_value, has_key_in, has_key, unmarked};

use crate::compiled::compile_valid;
use grok::{Matcher, MatchesRef, Pattern};
use groklog_definitions::Library;
use std::alloc::{AllocError, Global};

/// How well a pattern fits some lines.
#[derive(Clone, Copy, PartialEq, Eq)]
pub struct Fit {
    /// How many lines it fits: those in which it finds something, but not the whole line as one
    /// value. A pattern `^..$` finds something only in lines that it matches whole.
    pub lines: usize,
    /// How many keys of the pattern have a value that isn't empty in one of these lines.
    pub fields: usize,
}

/// Which of some lines a pattern fits, and how well.
#[derive(Drop)]
pub struct FittedLines {
    /// For each of the lines, whether the pattern fits it.
    pub each: Vec<bool>,
    pub fit: Fit,
    /// The keys of the pattern that have a value which isn't empty in one of these lines, in byte order.
    pub keys: Vec<String>,
}

/// A pattern, and which of some lines it fits.
#[derive(Drop)]
pub struct Candidate {
    pub text: String,
    pub fit: Fit,
    /// For each of the lines, whether the pattern fits it.
    pub each: Vec<bool>,
    /// The keys of the pattern that have a value which isn't empty in one of these lines, in byte order.
    pub keys: Vec<String>,
}

/// A pattern that is searched for in many lines.
struct Counter<'p> {
    matcher: Matcher<'p>,
}

// Written by hand, because the kit can't prove the drop of a struct with a matcher if `Drop` is derived.
impl Drop for Counter<'_> {
    fn drop(self) {
        let Counter { matcher: _matcher } = self;
    }
}

fn tells(matches: MatchesRef<'_>, line: &str) -> bool
    ensures { result ≡ tells line.now (walk (borrowed_keys matches.entry) (borrowed_captures matches.entry)) }
{
    'pairs: for pair in matches.iter() {
        if pair.1.len() == line.len() {
            return false;
        }
    }
    true
}

/// Returns whether a match gives a key a value that isn't empty.
fn has_value(matches: MatchesRef<'_>, key: &str) -> bool
    ensures { result ≡ has_value (value_of (borrowed_keys matches.entry) (borrowed_captures matches.entry)) key.now }
{
    match matches.get(key) {
        Some(value) => !value.is_empty(),
        None => false,
    }
}

/// Takes out of these keys each to which a match gives a value.
fn drop_keys(keys: &mut Vec<&str>, matches: MatchesRef<'_>)
    ensures { keys.new.items ≡ filter (λ key. not (has_value (value_of (borrowed_keys matches.entry) (borrowed_captures matches.entry)) key.now))
        keys.old.items }
{
    keys.retain(|key| !has_value(matches, *key));
}

fn keys_of<'p>(alloc: Global, pattern: &'p Pattern) -> Result<Vec<&'p str>, AllocError>
    ensures { IfOk result (λ keys. texts_of keys.items ≡ keys_of pattern.now.keys) }
{
    let mut keys = Vec::new(alloc);
    'keys: for key in pattern.capture_names() {
        keys.push(key)?;
    }
    Ok(keys)
}

impl<'p> Counter<'p> {
    fn finds(&mut self, line: &str) -> Result<bool, AllocError>
        ensures finds { IfOk result (λ is_found. is_found ≡ finds self.old.matcher line.now) }
        ensures same { self.new.matcher ≡ self.old.matcher }
    {
        Ok(self.matcher.find(line)?.is_some())
    }

    /// Returns whether the pattern fits a line, and takes out of `missing` each key that has a value there.
    fn fits(&mut self, line: &str, missing: &mut Vec<&str>) -> Result<bool, AllocError>
        ensures fits { IfOk result (λ is_fit. is_fit ≡ fits self.old.matcher line.now) }
        ensures missing { OnOk result (missing.new.items ≡ filter (λ key. not (has_key_in self.old.matcher key.now line.now)) missing.old.items) }
        ensures same { self.new.matcher ≡ self.old.matcher }
    {
        match self.matcher.find(line)? {
            None => Ok(false),
            Some(matches) => {
                let is_fit = tells(matches, line);
                if is_fit {
                    drop_keys(missing, matches);
                }
                Ok(is_fit)
            }
        }
    }
}

/// Returns for each line whether a pattern finds something in it.
pub fn finds_each(alloc: Global, pattern: &Pattern, lines: &[&str]) -> Result<Vec<bool>, AllocError>
    ensures { IfOk result (λ each. each.items ≡ map (λ line. finds pattern.now line.now) lines.now) }
{
    let matcher = pattern.matcher()?;
    let mut counter = Counter { matcher };
    let mut each = Vec::new(alloc);
    'lines: for line in lines {
        let is_found = counter.finds(line)?;
        each.push(is_found)?;
    }
    Ok(each)
}

fn fits_each(
    alloc: Global,
    pattern: &Pattern,
    lines: &[&str],
    missing: &mut Vec<&str>,
) -> Result<Vec<bool>, AllocError>
    ensures each { IfOk result (λ each. each.items ≡ map (λ line. fits pattern.now line.now) lines.now) }
    ensures missing { OnOk result (missing.new.items ≡ filter (λ key. not (has_key pattern.now (texts_of lines.now) key.now)) missing.old.items) }
{
    let matcher = pattern.matcher()?;
    let mut counter = Counter { matcher };
    let mut each = Vec::new(alloc);
    'lines: for line in lines {
        let is_fit = counter.fits(line, missing)?;
        each.push(is_fit)?;
    }
    Ok(each)
}

/// Returns the keys of a pattern without the missing ones, in byte order.
fn found_keys(
    alloc: Global,
    pattern: &Pattern,
    missing: &[&str],
) -> Result<Vec<String>, AllocError> {
    let mut keys = Vec::new(alloc);
    for key in pattern.capture_names() {
        if !missing.iter().any(|missing| *missing == key) {
            keys.push(String::from_str(alloc, key)?)?;
        }
    }
    Ok(keys)
}

/// Counts the lines that are marked.
pub fn count(each: &[bool]) -> usize
    ensures { result ≡ count_by (λ is_marked. is_marked) each.now }
{
    let mut count = 0usize;
    'each: for is_marked in each {
        if *is_marked {
            count += 1;
        }
    }
    count
}

/// Returns which lines a pattern fits, and how well.
pub fn fitted_lines(
    alloc: Global,
    pattern: &Pattern,
    lines: &[&str],
) -> Result<FittedLines, AllocError>
    ensures each { IfOk result (λ fitted. fitted.each.items ≡ map (λ line. fits pattern.now line.now) lines.now) }
    ensures lines { IfOk result (λ fitted. fitted.fit.lines ≡ count_by (λ is_fit. is_fit) fitted.each.items) }
    ensures fields { IfOk result (λ fitted. fitted.fit.fields ≡ count_by (has_key pattern.now (texts_of lines.now)) (keys_of pattern.now.keys)) }
{
    let mut missing = keys_of(alloc, pattern)?;
    let all = missing.len();
    let each = fits_each(alloc, pattern, lines, &mut missing)?;
    let fields = all.saturating_sub(missing.len());
    let keys = found_keys(alloc, pattern, &missing)?;
    let lines = count(&each);
    Ok(FittedLines {
        fit: Fit { lines, fields },
        each,
        keys,
    })
}

/// Returns the lines that aren't marked.
fn unmarked<'l>(alloc: Global, lines: &[&'l str], each: &[bool]) -> Result<Vec<&'l str>, AllocError>
    ensures { IfOk result (λ left. left.items ≡ unmarked lines.now each.now) }
{
    let mut left = Vec::new(alloc);
    'lines: for (line, is_marked) in lines.iter().zip(each) {
        if !*is_marked {
            left.push(*line)?;
        }
    }
    Ok(left)
}

impl Candidate {
    /// Compiles a pattern, and finds out which of the lines it fits. Returns `None` if the pattern can't be
    /// compiled, or fits no line.
    pub fn new(
        alloc: Global,
        library: &Library<'_>,
        text: String,
        lines: &[&str],
    ) -> Result<Option<Candidate>, AllocError>
        ensures { IfOk result (λ found. IfSome found (λ candidate. 0 < candidate.fit.lines)) }
    {
        let Some(pattern) = compile_valid(library, text.as_str())? else {
            return Ok(None);
        };
        let FittedLines { each, fit, keys } = fitted_lines(alloc, &pattern, lines)?;
        if fit.lines == 0 {
            return Ok(None);
        }
        Ok(Some(Candidate {
            text,
            fit,
            each,
            keys,
        }))
    }

    /// Returns the lines that the pattern doesn't fit.
    pub fn unfit_lines<'l>(
        &self,
        alloc: Global,
        lines: &[&'l str],
    ) -> Result<Vec<&'l str>, AllocError>
        ensures { IfOk result (λ unfit. unfit.items ≡ unmarked lines.now self.now.each.items) }
    {
        unmarked(alloc, lines, &self.each)
    }
}

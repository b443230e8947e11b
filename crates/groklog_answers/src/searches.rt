//! Finds in each line the match of the first of the patterns of a run, and counts the lines.
ghost use Rattle.std.specs.Prelude.{◌≡◌, [], ◌+◌, ◌<◌, if◌then◌else◌, IsErr, IfOk, IfSome, OnOk, OnErr, Some, None, true, map, option_map, length, HoldsAt};
ghost use Rattle.std.specs.Option.{is_some};
ghost use Rattle.std.specs.Borrow.{sem};
ghost use Rattle.std.specs.Io.BufRead.{Rests};
ghost use mir.Syntax.{named};
ghost use Rattle.grok.specs.{borrowed_line};
ghost use Rattle.groklog_answers.specs.Patterns.{match_of, first_match};
ghost use Rattle.groklog_answers.specs.Views.{pattern_text, searched, found_text_of};
ghost use Rattle.groklog_answers.specs.Searches.{patterns_in, next_number_in, matched_in, unmatched_in, broken_in, first_index, one_more_at, HasNumbered, HasCounted, HasMatch, HasFirstMatch};

use crate::plan::Plan;
use grok::{LineSearch, MatchesRef, Pattern};
use std::alloc::{AllocError, Global};

/// A pattern with its tag and its plan. The tag is a text that names the pattern, such as the one that
/// it was compiled from. The plan says where its values are written in a JSON object. Without a plan,
/// each value is written under its key, in the byte order of the keys.
#[derive(Clone, Copy)]
pub struct NamedPattern<'p> {
    pub tag: &'p str,
    pub pattern: &'p Pattern,
    pub plan: Option<&'p Plan<'p>>,
}

/// The match of a line: that of the first pattern that matches it.
#[derive(Clone, Copy)]
pub struct LineMatch<'m> {
    /// The index of the pattern.
    pub index: usize,
    pub named: NamedPattern<'m>,
    pub matches: MatchesRef<'m>,
}

/// A pattern with what searches lines for it.
struct Search<'p> {
    named: NamedPattern<'p>,
    search: LineSearch<'p>,
    /// How many lines this pattern was the first to match.
    matched: u64,
}

// Written by hand, because the kit can't prove the drop of a list of these if `Drop` is derived.
impl Drop for Search<'_> {
    fn drop(self) {
        let Search {
            named: _,
            search: _search,
            matched: _,
        } = self;
    }
}

/// The patterns of a run, in the order in which they are tried. It numbers the lines, and counts them.
#[derive(Drop)]
pub struct Searches<'p> {
    searches: Vec<Search<'p>>,
    /// The number of the next line. The first line has the number 1.
    pub(crate) next_number: u64,
    /// How many lines no pattern matched, without those that aren't UTF-8.
    unmatched: u64,
    /// How many lines weren't UTF-8.
    broken: u64,
}

fn number_after(number: u64) -> Result<u64, AllocError>
    ensures ok { number < u64.MAX → result ≡ Ok (number + 1) }
    ensures err { number ≡ u64.MAX → IsErr result }
{
    match number.checked_add(1) {
        Some(after) => Ok(after),
        // own error: the number is `u64::MAX`, so the next line would have none. No run reads so
        // many lines.
        None => Err(AllocError),
    }
}

impl<'p> Search<'p> {
    #[inline(always)]
    fn read(&mut self, line: &str) -> Result<bool, AllocError>
        ensures is_match { IfOk result (λ is_match. is_match ≡ is_some (match_of (searched self.old) line.now)) }
        ensures found { IfOk result (λ is_match. is_match ≡ true → HasMatch line.now self.new) }
        ensures same { searched self.new ≡ searched self.old }
        ensures count { IfOk result (λ is_match. self.new.matched
            ≡ (if is_match then self.old.matched + 1 else self.old.matched)) }
    {
        if !self.search.search(line)? {
            return Ok(false);
        }
        self.matched = number_after(self.matched)?;
        Ok(true)
    }

    #[inline(always)]
    fn last_match<'m>(&'m self, index: usize, line: &'m str) -> LineMatch<'m>
    where
        'p: 'm,
        requires { HasMatch line.now self.now }
        ensures index { result.index ≡ index }
        ensures found { Some (found_text_of result) ≡ match_of (searched self.now) line.now }
        ensures line { borrowed_line result.matches ≡ line.now }
    {
        LineMatch {
            index,
            named: self.named,
            matches: self.search.last_match(line),
        }
    }
}

/// Counts the line for the pattern that matches it first.
#[inline(always)]
fn find_first(searches: &mut [Search<'_>], line: &str) -> Result<Option<usize>, AllocError>
    ensures index { IfOk result (λ index. index ≡ first_index (map searched searches.old) line.now) }
    ensures count { IfOk result (λ index. map (λ search. search.matched) searches.new
        ≡ one_more_at index (map (λ search. search.matched) searches.old)) }
    ensures none { IfOk result (λ index. index ≡ None → first_match (map searched searches.old) line.now ≡ None) }
    ensures inside { IfOk result (λ index. IfSome index (λ i. i < length searches.new)) }
    ensures some { IfOk result (λ index. IfSome index (HoldsAt (HasFirstMatch (map searched searches.old) line.now) searches.new)) }
    ensures same { map searched searches.new ≡ map searched searches.old }
{
    'searches: for i in 0..searches.len() {
        if searches[i].read(line)? {
            return Ok(Some(i));
        }
    }
    Ok(None)
}

#[inline(always)]
fn match_at<'p, 'm>(searches: &'m [Search<'p>], index: usize, line: &'m str) -> LineMatch<'m>
where
    'p: 'm,
    requires inside { index < length searches.now }
    requires found { HoldsAt (HasMatch line.now) searches.now index }
    ensures index { result.index ≡ index }
    ensures found { HoldsAt (λ search. Some (found_text_of result) ≡ match_of (searched search) line.now) searches.now index }
    ensures line { borrowed_line result.matches ≡ line.now }
{
    searches[index].last_match(index, line)
}

impl<'p> Searches<'p> {
    ghost use Rattle.groklog_answers.specs.contracts.searches.Searches.{the_row};

    /// Makes the searches of these patterns. The first line has the number 1.
    pub fn new(alloc: Global, patterns: &[NamedPattern<'p>]) -> Result<Searches<'p>, AllocError>
        ensures patterns { IfOk result (λ searches. patterns_in searches ≡ map pattern_text patterns.now) }
        ensures number { IfOk result (λ searches. next_number_in searches ≡ 1) }
        ensures matched { IfOk result (λ searches. matched_in searches ≡ map (λ pattern. 0) patterns.now) }
        ensures unmatched { IfOk result (λ searches. unmatched_in searches ≡ 0) }
        ensures broken { IfOk result (λ searches. broken_in searches ≡ 0) }
    {
        let mut searches = Vec::new(alloc);
        'patterns: for named in patterns {
            let search = named.pattern.line_search()?;
            searches.push(Search {
                named: *named,
                search,
                matched: 0,
            })?;
        }
        Ok(Searches {
            searches,
            next_number: 1,
            unmatched: 0,
            broken: 0,
        })
    }

    /// Numbers and counts the line, and returns the match of the first pattern that matches it, or
    /// `None` if none does. The match is borrowed until the next line. If an allocation fails, the line has
    /// no number.
    #[inline(always)]
    pub fn find<'m>(&'m mut self, line: &'m str) -> Result<Option<LineMatch<'m>>, AllocError>
    where
        'p: 'm,
        ensures found { IfOk result (λ found. option_map found_text_of found ≡ first_match (patterns_in self.old) line.now) }
        ensures index { IfOk result (λ found. option_map (λ found. found.index) found ≡ first_index (patterns_in self.old) line.now) }
        ensures line { IfOk result (λ found. IfSome found (λ found. borrowed_line found.matches ≡ line.now)) }
        ensures* after { sem 𝓛 (Rests (the_row (record { mir = named 0; lft = [] })) self.entry
            (λ last. HasNumbered self.entry.now last result
            × OnOk result (HasCounted self.entry.now last (first_index (patterns_in self.entry.now) line.now)))) }
    {
        let next_number = number_after(self.next_number)?;
        match find_first(&mut self.searches, line)? {
            None => {
                self.unmatched = number_after(self.unmatched)?;
                self.next_number = next_number;
                Ok(None)
            }
            Some(index) => {
                self.next_number = next_number;
                Ok(Some(match_at(&self.searches, index, line)))
            }
        }
    }

    /// Numbers and counts a line that isn't UTF-8.
    ///
    /// # Errors
    ///
    /// If the line would have no number.
    pub fn note_broken(&mut self) -> Result<(), AllocError>
        ensures number { HasNumbered self.old self.new result }
        ensures broken { OnOk result (broken_in self.new ≡ broken_in self.old + 1) }
        ensures matched { matched_in self.new ≡ matched_in self.old }
        ensures unmatched { unmatched_in self.new ≡ unmatched_in self.old }
    {
        let next_number = number_after(self.next_number)?;
        self.broken = number_after(self.broken)?;
        self.next_number = next_number;
        Ok(())
    }

    /// Numbers this many lines that aren't searched.
    ///
    /// # Errors
    ///
    /// If the next line would have no number.
    pub fn skip_lines(&mut self, count: u64) -> Result<(), AllocError>
        ensures ok { OnOk result (next_number_in self.new ≡ next_number_in self.old + count) }
        ensures err { OnErr result (next_number_in self.new ≡ next_number_in self.old) }
        ensures same { patterns_in self.new ≡ patterns_in self.old }
        ensures matched { matched_in self.new ≡ matched_in self.old }
        ensures unmatched { unmatched_in self.new ≡ unmatched_in self.old }
        ensures broken { broken_in self.new ≡ broken_in self.old }
    {
        let Some(number) = self.next_number.checked_add(count) else {
            // own error: the next line would have no number. No run reads so many lines.
            return Err(AllocError);
        };
        self.next_number = number;
        Ok(())
    }

    /// Returns how many lines each pattern was the first to match, in the order of the patterns.
    pub fn matched(&self, alloc: Global) -> Result<Vec<u64>, AllocError>
        ensures { IfOk result (λ counts. counts.items ≡ matched_in self.now) }
    {
        let mut counts = Vec::new(alloc);
        'searches: for search in &self.searches {
            counts.push(search.matched)?;
        }
        Ok(counts)
    }

    /// Returns how many lines no pattern matched, without those that aren't UTF-8.
    pub fn unmatched(&self) -> u64
        ensures { result ≡ unmatched_in self.now }
    {
        self.unmatched
    }

    /// Returns how many lines weren't UTF-8.
    pub fn broken(&self) -> u64
        ensures { result ≡ broken_in self.now }
    {
        self.broken
    }

    /// Returns the number of the line that is searched next.
    pub fn next_number(&self) -> u64
        ensures { result ≡ next_number_in self.now }
    {
        self.next_number
    }
}

//! What the page of `--html` shows of the first lines or events.
ghost use Rattle.std.specs.Prelude.{◌≡◌, [], nat_lt, if◌then◌else◌, ◌<◌, ◌+◌, ◌^◌, IfOk, OnOk};
ghost use Rattle.groklog_views.specs.Pages.{lists_unmatched, with_item_begin, with_unmatched};

use crate::key_figures::KeyValues;
use crate::located_fields::LocatedFields;
use groklog_answers::{Flow, FoundLine, LineMatch, Lines};
use groklog_reports::Unit;
use marked_lines::{Field, Html, runs_of};
use std::alloc::{AllocError, Global};

/// For how many lines or events that don't match the page shows where the pattern stops.
pub const EXPLAINED: u64 = 20;

/// What a page is about.
#[derive(Clone, Copy)]
pub struct Scope {
    /// The unit of the items: lines or events.
    pub unit: Unit,
    /// Which lines or events the page lists. All of them are counted.
    pub lines: Lines,
    /// How many lines or events the page is about at most.
    pub most: usize,
}

/// What a page shows of the lines or events so far.
#[derive(Drop)]
pub struct PageContent<'a> {
    pub alloc: Global,
    pub scope: Scope,
    pub located: LocatedFields<'a>,
    /// For each key its title.
    titles: Vec<String>,
    /// The values of each key.
    pub(crate) values: Vec<KeyValues>,
    /// The lines or events, as the items of a list.
    pub items: Html,
    /// How many lines or events were answered.
    pub count: u64,
}

/// Adds the values of these fields to the values of their keys.
fn note_fields(values: &mut [KeyValues], line: &str, fields: &[Field]) -> Result<(), AllocError> {
    for field in fields {
        if let Some(values) = values.get_mut(field.key) {
            values.note(line.get(field.start..field.end).unwrap_or(""))?;
        }
    }
    Ok(())
}

/// Appends a report, row by row.
fn push_report(items: &mut Html, report: &str) -> Result<(), AllocError> {
    items.push_markup("<pre>")?;
    for (i, row) in report.trim_end().split('\n').enumerate() {
        items.push_markup(if i > 0 { "\n" } else { "" })?;
        items.push_text(row)?;
    }
    items.push_markup("</pre>")
}

impl<'a> PageContent<'a> {
    /// Makes the content of a page about no lines. `titles` has the title of each key of `located`.
    pub fn new(
        alloc: Global,
        scope: Scope,
        located: LocatedFields<'a>,
        titles: Vec<String>,
    ) -> Result<PageContent<'a>, AllocError>
        ensures scope { IfOk result (λ content. content.scope ≡ scope) }
        ensures items { IfOk result (λ content. content.items ≡ []) }
        ensures count { IfOk result (λ content. content.count ≡ 0) }
    {
        let mut values = Vec::new(alloc);
        for _ in &titles {
            values.push(KeyValues::new(alloc, scope.most))?;
        }
        Ok(PageContent {
            alloc,
            scope,
            located,
            titles,
            values,
            items: Html::new(alloc),
            count: 0,
        })
    }

    /// Counts a line or an event.
    pub fn count_item(&mut self)
        ensures { self.old.count + 1 < 2 ^ 64 → self.new.count ≡ self.old.count + 1 }
    {
        self.count = self.count.saturating_add(1);
    }

    /// Returns whether there are enough lines or events.
    pub fn flow(&self) -> Flow
        ensures { result ≡ (if nat_lt self.now.count self.now.scope.most then Flow.More else Flow.Enough) }
    {
        if self.count < self.scope.most as u64 {
            Flow::More
        } else {
            Flow::Enough
        }
    }

    /// Begins the item of the line with this number, or of the event whose first line has it.
    fn begin_item(&mut self, number: u64) -> Result<(), AllocError>
        ensures items { OnOk result (self.new.items ≡ with_item_begin self.old.items number) }
        ensures titles { self.new.titles ≡ self.old.titles }
        ensures scope { self.new.scope ≡ self.old.scope }
        ensures count { self.new.count ≡ self.old.count }
    {
        let number = format!(in self.alloc; "{number}")?;
        self.items.push_markup("<li value=\"")?;
        self.items.push_text(number.as_str())?;
        self.items.push_markup("\">")
    }

    /// Returns whether lines or events that no pattern matches are listed.
    pub fn lists_unmatched(&self) -> bool
        ensures { result ≡ lists_unmatched self.now.scope.lines }
    {
        !matches!(self.scope.lines, Lines::Matched)
    }

    /// Adds a line or an event that has this match.
    pub fn add_matched(
        &mut self,
        line: FoundLine<'_>,
        found: LineMatch<'_>,
    ) -> Result<(), AllocError>
        ensures scope { self.new.scope ≡ self.old.scope }
        ensures count { self.new.count ≡ self.old.count }
    {
        let fields = self.located.find(found)?;
        note_fields(&mut self.values, line.text, &fields)?;
        if matches!(self.scope.lines, Lines::Unmatched) {
            return Ok(());
        }
        let runs = runs_of(self.alloc, line.text, &fields)?;
        self.begin_item(line.number)?;
        self.items.push_markup("<code>")?;
        self.items.push_runs(&runs, &self.titles)?;
        self.items.push_markup("</code></li>\n")
    }

    /// Adds a line or an event that no pattern matches, with a report on it, which may be empty.
    pub fn add_unmatched(&mut self, line: FoundLine<'_>, report: &str) -> Result<(), AllocError>
        ensures item { OnOk result (report.now ≡ [] → self.new.items
            ≡ with_unmatched self.old.items line.entry.number line.entry.text.now) }
        ensures scope { self.new.scope ≡ self.old.scope }
        ensures count { self.new.count ≡ self.old.count }
    {
        self.begin_item(line.number)?;
        self.items.push_markup("<code class=\"unmatched\">")?;
        self.items.push_text(line.text)?;
        self.items.push_markup("</code>")?;
        if !report.is_empty() {
            push_report(&mut self.items, report)?;
        }
        self.items.push_markup("</li>\n")
    }
}

//! Measures texts. If a text uses a definition that isn't measured yet, a frame keeps the rest of
//! the text until it is.
ghost use Rattle.std.specs.Prelude.{◌≡◌, ◌+◌, ◌<◌, ◌≤◌, ◌^◌, ℕ, List, [], ◌∷◌, Option, Result, OnOk, IfOk, IfErr, IfSome, MatchOption, length, Some, Ok, option_map};
ghost use Rattle.std.specs.FinMap as finite;
ghost use Rattle.grok.specs.Tree.{first_structural, inside};
ghost use Rattle.grok.specs.steps.Sizes.{size_or_fault};
ghost use Rattle.grok.specs.steps.MeasuredOnce.{State, items_within, nothing_measured};
ghost use Rattle.grok.specs.Measured.{tree_of, measured_tree, saturated, measure_view};
ghost use Rattle.grok.specs.steps.MeasureCache.{items_in, shown_result, result_view, ShowsState, unwound, AreLow, StopsReading, AnswersReading, HasCorrectCache};
ghost use Rattle.grok.specs.Items.{fault_view, item_view, label_view};
ghost use Rattle.grok.specs.Keys.{is_capturing};

use crate::defs::definition::Definition;
use crate::defs::items::{Item, Items, Label};
use crate::errors::fault::{Fault, MAX_NESTING};
use crate::measure::cache::{MeasureCache, Progress, progress_of_failure};
use crate::measure::partial_size::{
    Failure, PartialSize, add, bracketed, fault_after, fault_of, measure_of_result, size_of_text,
};
use crate::measure::placeholders::{PlaceholderSize, measure_placeholder};
use crate::measure::{Looks, Measure};
use crate::settings::Settings;
use std::alloc::AllocError;

/// A text that waits until a definition that it uses is measured.
#[derive(Drop)]
pub(crate) struct Frame<'a> {
    /// The name of the definition that it waits for, and whether the placeholder that uses it
    /// captures.
    name: &'a str,
    is_capturing: bool,
    /// The items after the placeholder.
    items: Items<'a>,
    /// The size of the items before it.
    sum: PartialSize,
}

/// Measures texts with the same library of definitions. Each definition is measured once, unless it
/// was nested too deeply before and more levels are left now.
#[derive(Drop)]
pub(crate) struct Measurer<'a> {
    pub settings: Settings<'a>,
    pub(super) cache: MeasureCache<'a>,
}

fn next_counted<'a>(
    items: &mut Items<'a>,
    looks: &mut Looks,
) -> Result<Option<Item<'a>>, AllocError>
    ensures { IfOk result (λ found. MatchOption found
        ((items.old ≡ [])
        × (looks.new ≡ record { pieces = looks.old.pieces; ends = saturated (looks.old.ends + 1) }))
        (λ item. (items.old ≡ item_view item ∷ items.new)
        × (looks.new ≡ record {
          pieces = saturated
              (looks.old.pieces + 1);
          ends = looks.old.ends;
        }))) }
{
    let found = items.next()?;
    match found {
        Some(_) => looks.pieces = looks.pieces.saturating_add(1),
        None => looks.ends = looks.ends.saturating_add(1),
    }
    Ok(found)
}

impl<'a> Measurer<'a> {
    pub fn new(settings: Settings<'a>) -> Measurer<'a>
        ensures settings { result.settings ≡ settings.entry }
        ensures nothing { ShowsState result.cache nothing_measured }
        ensures cache { HasCorrectCache result }
    {
        Measurer {
            settings,
            cache: MeasureCache::new(settings.grok.alloc()),
        }
    }

    pub fn is_capturing(&self, label: Label<'a>) -> bool
        ensures { result ≡ is_capturing self.now.settings.with_alias_only (label_view label.entry) }
    {
        label.is_capturing(self.settings.with_alias_only)
    }

    /// If the text uses a definition that isn't measured yet, a frame keeps the rest of the text until it
    /// is, the innermost last. On a fault the open frames stay, so that the caller can remember the fault
    /// for their names.
    fn measure_text(
        &mut self,
        frames: &mut Vec<Frame<'a>>,
        text: &'a str,
        levels: usize,
    ) -> Result<Result<PartialSize, Failure<'a>>, AllocError>
        requires few { levels < 2 ^ 31 }
        requires none { frames.old.items ≡ [] }
        ensures stops { IfOk result (λ r. (st : State) → ShowsState self.old.cache st →
            StopsReading levels r frames.new.items self.new.cache (items_within self.old.settings.with_alias_only
            (items_in self.old.settings.grok.now) levels
            (items_in self.old.settings.grok.now text.now) st)) }
        ensures reach { IfOk result (λ r. IfErr r (λ failure. failure.height ≤ levels + 1)) }
        ensures low { IfOk result (λ r. AreLow levels frames.new.items) }
        ensures few { IfOk result (λ r. length frames.new.items ≤ levels) }
        ensures settings { IfOk result (λ r. self.new.settings ≡ self.old.settings) }
    {
        let settings = self.settings;
        let mut items = Items::of_text(settings.grok.alloc(), settings.grok, text);
        let mut sum = size_of_text("");
        'items: loop {
            match next_counted(&mut items, &mut self.cache.looks)? {
                Some(Item::Text(text)) => sum = add(sum, size_of_text(text)),
                Some(Item::Fault(fault)) => {
                    return Ok(Err(fault_after(sum, Failure { fault, height: 0 })));
                }
                Some(Item::Placeholder(label, meaning)) => {
                    let levels_left = levels - frames.len();
                    match measure_placeholder(
                        settings,
                        &mut self.cache,
                        label,
                        meaning,
                        levels_left,
                    )? {
                        PlaceholderSize::Measured(Ok(one)) => sum = add(sum, one),
                        PlaceholderSize::Measured(Err(failure)) => return Ok(Err(fault_after(
                            sum, failure,
                        ))),
                        PlaceholderSize::Unread(stored) => {
                            frames.push(Frame {
                                name: label.name,
                                is_capturing: label.is_capturing(settings.with_alias_only),
                                items,
                                sum,
                            })?;
                            items = Items::of_stored(settings.grok.alloc(), settings.grok, stored);
                            sum = size_of_text("");
                        }
                    }
                }
                None => match frames.pop() {
                    None => return Ok(Ok(sum)),
                    Some(frame) => {
                        self.cache.set_progress(frame.name, Progress::HasSize(sum))?;
                        let inner = bracketed(frame.is_capturing, sum);
                        sum = add(frame.sum, inner);
                        items = frame.items;
                    }
                },
            }
        }
    }

    fn remember_fault(
        &mut self,
        frames: &mut Vec<Frame<'a>>,
        levels: usize,
        mut failure: Failure<'a>,
    ) -> Result<(), AllocError>
        requires levels { levels < 2 ^ 31 }
        requires few { length frames.old.items ≤ levels }
        requires low { AreLow levels frames.old.items }
        requires reach { failure.height ≤ levels + 1 }
        ensures remembers { OnOk result ((st : State) → ShowsState self.old.cache st → st.reach
            ≡ failure.entry.height →
            ShowsState self.new.cache (unwound levels frames.old.items (fault_view failure.entry.fault) st)) }
        ensures settings { OnOk result (self.new.settings ≡ self.old.settings) }
    {
        'frames: while let Some(frame) = frames.pop() {
            let progress = progress_of_failure(failure, levels - frames.len());
            self.cache.set_progress(frame.name, progress)?;
            failure.height += 1;
            failure = fault_after(frame.sum, failure);
        }
        Ok(())
    }

    pub(super) fn measure_within(
        &mut self,
        text: &'a str,
        levels: usize,
    ) -> Result<Result<PartialSize, Failure<'a>>, AllocError>
        requires few { levels < 2 ^ 31 }
        ensures reading { IfOk result (λ r. (st : State) → ShowsState self.old.cache st →
            AnswersReading r self.new.cache (items_within self.old.settings.with_alias_only
            (items_in self.old.settings.grok.now) levels (items_in self.old.settings.grok.now text.now) st)) }
        ensures settings { IfOk result (λ r. self.new.settings ≡ self.old.settings) }
    {
        let mut frames = Vec::new(self.settings.grok.alloc());
        let answer = self.measure_text(&mut frames, text, levels)?;
        if let Err(failure) = answer {
            self.remember_fault(&mut frames, levels, failure)?;
        }
        Ok(answer)
    }

    pub fn measure_next(&mut self, pattern: &'a str) -> Result<Measure<'a>, AllocError>
        ensures answer { IfOk result
            (λ measure. HasCorrectCache self.old →
            measure_view measure ≡ measured_tree self.old.settings.with_alias_only
            (tree_of self.old.settings.grok.now pattern.now)) }
        ensures cache { IfOk result
            (λ measure. HasCorrectCache self.old →
            HasCorrectCache self.new) }
        ensures settings { IfOk result (λ measure. self.new.settings ≡ self.old.settings) }
    {
        let answer = self.measure_within(pattern, MAX_NESTING)?;
        Ok(measure_of_result(answer))
    }

    /// Returns `None` if the definition has a fault, or if its size isn't remembered. Its own level is one
    /// of the `levels` that are left.
    pub fn remembered_size(&self, name: &'a str, levels: usize) -> Option<PartialSize>
        ensures { IfSome result (λ size. (text : List ℕ) →
            HasCorrectCache self.now →
            finite.get self.now.settings.grok.now name.now ≡ Some text →
            Ok size ≡ shown_result (size_or_fault self.now.settings.with_alias_only
            (items_in self.now.settings.grok.now) levels text)) }
    {
        match self.cache.known(name, levels) {
            Some(Ok(size)) => Some(size),
            Some(Err(_)) | None => None,
        }
    }

    /// Measures the definition only if its size or fault isn't remembered. Its own level is one of the
    /// `levels` that are left.
    pub fn size_of_definition(
        &mut self,
        name: &'a str,
        stored: &'a Definition,
        levels: usize,
    ) -> Result<Result<PartialSize, Failure<'a>>, AllocError>
        requires some { 0 < levels }
        requires few { levels < 2 ^ 31 }
        ensures size { IfOk result (λ r.
            HasCorrectCache self.old →
            finite.get self.old.settings.grok.now name.now ≡ Some stored.now →
            result_view r ≡ shown_result (size_or_fault self.old.settings.with_alias_only
            (items_in self.old.settings.grok.now) levels stored.now)) }
        ensures cache { IfOk result
            (λ r. HasCorrectCache self.old →
            HasCorrectCache self.new) }
        ensures settings { IfOk result (λ r. self.new.settings ≡ self.old.settings) }
    {
        if let Some(known) = self.cache.known(name, levels) {
            return Ok(known);
        }
        self.measure_within(stored.text(), levels - 1)
    }

    /// Measures the definition only if its size or fault isn't remembered. Its own level is one of the
    /// `levels` that are left.
    pub fn fault_of_definition(
        &mut self,
        name: &'a str,
        stored: &'a Definition,
        levels: usize,
    ) -> Result<Option<Fault<'a>>, AllocError>
        requires some { 0 < levels }
        requires few { levels < 2 ^ 31 }
        ensures fault { IfOk result (λ fault.
            HasCorrectCache self.old →
            finite.get self.old.settings.grok.now name.now ≡ Some stored.now →
            option_map fault_view fault ≡ first_structural
            (inside (items_in self.old.settings.grok.now) levels stored.now)) }
        ensures cache { IfOk result
            (λ fault. HasCorrectCache self.old →
            HasCorrectCache self.new) }
        ensures settings { IfOk result (λ fault. self.new.settings ≡ self.old.settings) }
    {
        let answer = self.size_of_definition(name, stored, levels)?;
        Ok(fault_of(answer))
    }
}

//! Remembers how far measuring each definition has come, so that no definition is read twice.
ghost use Rattle.std.specs.Prelude.{◌≡◌, ◌<◌, ◌≤◌, false, Option, Result, OnOk, IfOk, IfErr, IfSome, MatchOption, Some};
ghost use Rattle.grok.specs.steps.Sizes.{Size};
ghost use Rattle.grok.specs.steps.MeasuredOnce.{Progress as ProgressOf, State, Reading, labelled, with_progress, failed_progress, by_progress, nothing_measured};
ghost use Rattle.grok.specs.steps.MeasureCache.{shown_progress, progress_view, progress_of, is_kept, ShowsState, RemembersReading, IsUnknown, HasProgress};
ghost use Rattle.grok.specs.Items.{fault_view, label_view};

use crate::defs::items::Label;
use crate::errors::fault::Fault;
use crate::expand::numbered::ends_in_number;
use crate::measure::Looks;
use crate::measure::partial_size::{Failure, PartialSize, too_deep};
use std::alloc::{AllocError, Global};
use std::collections::BTreeMap;

/// How far measuring a definition has come.
#[derive(Clone, Copy)]
pub(super) enum Progress<'a> {
    /// It is being measured. If it is used again, that is a circle.
    InProgress,
    /// It has this size.
    HasSize(PartialSize),
    /// It has this fault.
    HasFault(Failure<'a>),
    /// It needs more than this many levels.
    NeedsMoreThan(usize),
}

/// What measuring remembers: how far it has come with each definition, so that none is read twice.
#[derive(Drop)]
pub(crate) struct MeasureCache<'a> {
    pub(super) by_name: BTreeMap<&'a str, Progress<'a>>,
    pub(super) looks: Looks,
    /// Whether a placeholder was read whose alias ends in a number in brackets, such as `x[1]`.
    pub(super) has_numbered: bool,
}

impl<'a> MeasureCache<'a> {
    #[tactic(auto, using(crate::proofs::Sizes::MeasureIsCounted::shows_nothing))]
    pub fn new(alloc: Global) -> MeasureCache<'a>
        ensures { ShowsState result nothing_measured }
    {
        MeasureCache {
            by_name: BTreeMap::new(alloc),
            looks: Looks { pieces: 0, ends: 0 },
            has_numbered: false,
        }
    }

    /// Returns the size or fault of a name's definition if `levels` levels are left, or `None` if
    /// the definition has to be measured first.
    pub(super) fn known(
        &self,
        name: &'a str,
        levels: usize,
    ) -> Option<Result<PartialSize, Failure<'a>>>
        ensures known { MatchOption result ((is_kept (progress_of self.now.by_name name.now) ≡ false)
            × IsUnknown name.now levels self.now)
            (λ r. (st : State) → ShowsState self.now st → (fresh : Reading)
            → RemembersReading r st (by_progress (st.by_name name.now) levels st fresh)) }
        ensures low { IfSome result (λ r. IfOk r (λ sum. sum.height < levels)) }
        ensures reach { IfSome result (λ r. IfErr r (λ failure. failure.height ≤ levels)) }
    {
        match self.by_name.get(&name).copied() {
            None => None,
            Some(Progress::NeedsMoreThan(most)) if most < levels => None,
            Some(Progress::HasSize(sum)) if sum.height < levels => Some(Ok(sum)),
            Some(Progress::HasFault(failure)) if failure.height < levels => Some(Err(failure)),
            // It uses itself, or it needs more levels than are left.
            Some(_) => Some(Err(too_deep())),
        }
    }

    pub(super) fn set_progress(
        &mut self,
        name: &'a str,
        progress: Progress<'a>,
    ) -> Result<(), AllocError>
        ensures shows { OnOk result ((st : State) (known : ProgressOf Size) →
            progress_view progress.entry ≡ shown_progress known → ShowsState self.old st
            → ShowsState self.new (with_progress st name.now known)) }
        ensures by_name { OnOk result (HasProgress name.now progress.entry self.old self.new) }
    {
        self.by_name.insert(name, progress)?;
        Ok(())
    }

    /// Remembers whether the alias of a placeholder ends in a number in brackets, such as `x[1]`.
    pub(super) fn label(&mut self, label: Label<'a>)
        ensures shows { (st : State) → ShowsState self.old st
            → ShowsState self.new (labelled (label_view label.entry) st) }
        ensures by_name { self.new.by_name ≡ self.old.by_name }
    {
        self.has_numbered = ends_in_number(label.alias) || self.has_numbered;
    }
}

pub(super) fn progress_of_failure<'a>(failure: Failure<'a>, levels: usize) -> Progress<'a>
    ensures { progress_view result ≡ failed_progress
        (fault_view failure.entry.fault) levels failure.entry.height }
{
    match failure.fault {
        Fault::TooDeep => Progress::NeedsMoreThan(levels),
        Fault::Malformed(_) | Fault::Missing(_) => Progress::HasFault(failure),
    }
}

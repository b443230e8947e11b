//! The size of a placeholder: it is known, or its definition has to be measured first.
ghost use Rattle.std.specs.Prelude.{◌≡◌, ℕ, ◌+◌, ◌<◌, ◌≤◌, ◌^◌, Result, IfOk, IfErr, Some};
ghost use Rattle.grok.specs.Tree.{Fault as ItemFault, PlaceholderItem};
ghost use Rattle.grok.specs.steps.Sizes.{Size, wrapped};
ghost use Rattle.grok.specs.steps.MeasuredOnce.{State, inlined, item_within, stored_within, deeper};
ghost use Rattle.grok.specs.steps.MeasureCache.{items_in, shown_result, result_view, ShowsState, ReturnsReading, HasReach, ReturnsSize, BeginsMeasuring, MustBeMeasured, MatchPlaceholderSize, IfMeasured};
ghost use Rattle.grok.specs.Items.{label_view, meaning_view};

use crate::defs::definition::Definition;
use crate::defs::items::{Label, Meaning};
use crate::measure::cache::{MeasureCache, Progress};
use crate::measure::partial_size::{Failure, PartialSize, bracketed, size_of_text, too_deep};
use crate::settings::Settings;
use std::alloc::AllocError;

/// One placeholder: its size or fault is known, or its definition has to be measured first.
#[derive(Drop)]
pub(super) enum PlaceholderSize<'a> {
    /// Its size, or its fault.
    Measured(Result<PartialSize, Failure<'a>>),
    /// This is its definition, which has to be measured first.
    Unread(&'a Definition),
}

fn measure_inline<'a>(text: &'a str, levels: usize) -> Result<PartialSize, Failure<'a>>
    ensures reading { result_view result ≡ shown_result (inlined levels text.now) }
    ensures low { IfOk result (λ sum. sum.height < levels) }
    ensures reach { IfErr result (λ failure. failure.height ≡ 0) }
{
    if levels == 0 {
        return Err(too_deep());
    }
    Ok(size_of_text(text))
}

fn size_of_placeholder<'a>(
    settings: Settings<'a>,
    label: Label<'a>,
    inner: Result<PartialSize, Failure<'a>>,
) -> Result<PartialSize, Failure<'a>>
    requires low { IfOk inner (λ sum. sum.height < 2 ^ 32) }
    requires reach { IfErr inner (λ failure. failure.height < 2 ^ 32) }
    ensures reading { (st : State) (r : Result Size ItemFault) → result_view inner.entry
        ≡ shown_result r → HasReach inner.entry st →
        ReturnsSize result (wrapped settings.entry.with_alias_only (label_view label.entry) r) (deeper st) }
    ensures low { (most : ℕ) → IfOk inner.entry (λ sum. sum.height < most) →
        IfOk result (λ sum. sum.height ≤ most) }
    ensures reach { (most : ℕ) → IfErr inner.entry (λ failure. failure.height ≤ most) →
        IfErr result (λ failure. failure.height ≤ most + 1) }
{
    match inner {
        Ok(sum) => Ok(bracketed(label.is_capturing(settings.with_alias_only), sum)),
        Err(failure) => Err(Failure {
            fault: failure.fault,
            height: failure.height + 1,
        }),
    }
}

/// The placeholder's own level is one of the `levels` that are left.
fn measure_stored<'a>(
    settings: Settings<'a>,
    cache: &mut MeasureCache<'a>,
    label: Label<'a>,
    stored: &'a Definition,
    levels: usize,
) -> Result<PlaceholderSize<'a>, AllocError>
    requires { levels < 2 ^ 31 }
    ensures reading { IfOk result (λ size. MatchPlaceholderSize size
        (λ r. (st : State) → ShowsState cache.old st → ReturnsReading r cache.new
        (stored_within settings.entry.with_alias_only (items_in settings.entry.grok.now) levels
        (label_view label.entry) stored.now st))
        (λ text. (text ≡ stored.now) × (0 < levels)
        × BeginsMeasuring label.entry.name.now levels cache.old cache.new)) }
    ensures by_name { IfOk result (λ size. IfMeasured size (λ r. cache.new.by_name ≡ cache.old.by_name)) }
    ensures low { IfOk result
        (λ size. IfMeasured size (λ r. IfOk r (λ sum. sum.height ≤ levels))) }
    ensures reach { IfOk result
        (λ size. IfMeasured size (λ r. IfErr r (λ failure. failure.height ≤ levels + 1))) }
{
    if levels == 0 {
        return Ok(PlaceholderSize::Measured(size_of_placeholder(settings, label, Err(too_deep()))));
    }
    if let Some(known) = cache.known(label.name, levels) {
        return Ok(PlaceholderSize::Measured(size_of_placeholder(settings, label, known)));
    }
    cache.set_progress(label.name, Progress::InProgress)?;
    Ok(PlaceholderSize::Unread(stored))
}

/// The placeholder's own level is one of the `levels` that are left.
pub(super) fn measure_placeholder<'a>(
    settings: Settings<'a>,
    cache: &mut MeasureCache<'a>,
    label: Label<'a>,
    meaning: Meaning<'a>,
    levels: usize,
) -> Result<PlaceholderSize<'a>, AllocError>
    requires { levels < 2 ^ 31 }
    ensures reading { IfOk result (λ size. MatchPlaceholderSize size
        (λ r. (st : State) → ShowsState cache.old st → ReturnsReading r cache.new
        (item_within settings.entry.with_alias_only (items_in settings.entry.grok.now) levels
        (PlaceholderItem (label_view label.entry) (meaning_view meaning.entry)) st))
        (λ text. MustBeMeasured levels label.entry (meaning_view meaning.entry) text cache.old cache.new)) }
    ensures by_name { IfOk result (λ size. IfMeasured size (λ r. cache.new.by_name ≡ cache.old.by_name)) }
    ensures low { IfOk result
        (λ size. IfMeasured size (λ r. IfOk r (λ sum. sum.height ≤ levels))) }
    ensures reach { IfOk result
        (λ size. IfMeasured size (λ r. IfErr r (λ failure. failure.height ≤ levels + 1))) }
{
    cache.label(label);
    match meaning {
        Meaning::Inline(text) => {
            let inner = measure_inline(text, levels);
            Ok(PlaceholderSize::Measured(size_of_placeholder(settings, label, inner)))
        }
        Meaning::Stored(stored) => {
            let size = measure_stored(settings, cache, label, stored, levels)?;
            Ok(size)
        }
    }
}

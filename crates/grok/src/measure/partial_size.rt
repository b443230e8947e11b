//! Sizes of texts without the numbers of their groups, and faults with their heights.
ghost use Rattle.std.specs.Prelude.{◌≡◌, ℕ, ◌+◌, ◌<◌, ◌≤◌, ◌^◌, max, nat_lt, Option, Result, length, Some, option_map};
ghost use Rattle.grok.specs.Tree.{Fault as ItemFault, inside};
ghost use Rattle.grok.specs.steps.Sizes.{Size, plus, in_brackets, head_size, length_of, digits_from, size_of_bytes};
ghost use Rattle.grok.specs.Measured.{size_within, measure_view};
ghost use Rattle.grok.specs.steps.MeasureCache.{fault_in, fit, shown, shown_result, result_view, measured_size};
ghost use Rattle.grok.specs.Items.{fault_view};

use crate::errors::fault::Fault;
use crate::generated_name::{CLOSE, NAMED_BYTES, UNNAMED_BYTES};
use crate::measure::Measure;

/// The size of a text whose groups aren't numbered yet: the bytes without those numbers, the number
/// of groups, and the greatest nesting in levels. A number that is greater than the greatest
/// `usize` is `None`.
#[derive(Clone, Copy)]
pub(crate) struct PartialSize {
    pub bytes: Option<usize>,
    pub groups: Option<usize>,
    pub height: usize,
}

/// A fault, and the greatest nesting up to it, in levels.
#[derive(Clone, Copy)]
pub(crate) struct Failure<'a> {
    pub fault: Fault<'a>,
    pub height: usize,
}

pub(super) fn add_fit(a: Option<usize>, b: Option<usize>) -> Option<usize>
    ensures { (x y : ℕ) → a ≡ fit x → b ≡ fit y → result ≡ fit (x + y) }
{
    match (a, b) {
        (Some(a), Some(b)) => a.checked_add(b),
        _ => None,
    }
}

pub(crate) fn add(a: PartialSize, b: PartialSize) -> PartialSize
    ensures adds { (x y : Size) → a ≡ shown x → b ≡ shown y → result ≡ shown (plus x y) }
    ensures height { result.height ≡ max a.height b.height }
{
    PartialSize {
        bytes: add_fit(a.bytes, b.bytes),
        groups: add_fit(a.groups, b.groups),
        height: a.height.max(b.height),
    }
}

pub(crate) fn size_of_text(text: &str) -> PartialSize
    ensures shown { result ≡ shown (size_of_bytes text.now) }
    ensures height { result.height ≡ 0 }
{
    PartialSize {
        bytes: Some(text.len()),
        groups: Some(0),
        height: 0,
    }
}

pub(super) fn bracketed(is_capturing: bool, inner: PartialSize) -> PartialSize
    requires { inner.height < 2 ^ 32 }
    ensures height { result.height ≡ inner.height + 1 }
    ensures brackets { (z : Size) → inner ≡ shown z →
        result ≡ shown (in_brackets is_capturing z) }
{
    // The numbers of the groups are added at the end, in `length_of_partial_size`.
    let (bytes, groups) = if is_capturing {
        (NAMED_BYTES, 1)
    } else {
        (UNNAMED_BYTES, 0)
    };
    PartialSize {
        bytes: add_fit(Some(bytes), inner.bytes),
        groups: add_fit(Some(groups), inner.groups),
        height: inner.height + 1,
    }
}

pub(crate) fn size_of_head(is_capturing: bool) -> PartialSize
    ensures { result ≡ shown (head_size is_capturing) }
{
    let (bytes, groups) = if is_capturing {
        (NAMED_BYTES - CLOSE.len(), 1)
    } else {
        (UNNAMED_BYTES - CLOSE.len(), 0)
    };
    PartialSize {
        bytes: Some(bytes),
        groups: Some(groups),
        height: 0,
    }
}

fn digits_of_numbers_below(count: usize) -> Option<usize>
    ensures { result ≡ fit (digits_from 0 count) }
{
    let mut digits = Some(count);
    let mut power: usize = 1;
    // 10^19 is the greatest power of ten that a `usize` holds.
    'powers: for _exponent in 0..19usize {
        power *= 10;
        digits = add_fit(digits, Some(count.saturating_sub(power)));
    }
    digits
}

#[tactic(auto, using(crate::proofs::Sizes::SumsFit::fits))]
fn length_of_partial_size(sum: PartialSize) -> Option<usize>
    ensures { (z : Size) → sum ≡ shown z → result ≡ fit (length_of z) }
{
    match sum.groups {
        Some(groups) => add_fit(sum.bytes, digits_of_numbers_below(groups)),
        None => None,
    }
}

pub(crate) fn has_byte(sum: PartialSize, byte: usize) -> bool
    ensures { (z : Size) → sum ≡ shown z → result ≡ nat_lt byte (length_of z) }
{
    match length_of_partial_size(sum) {
        Some(length) => byte < length,
        None => true,
    }
}

pub(crate) fn offset_after(sum: PartialSize, byte: usize) -> usize
    ensures { (z : Size) → sum ≡ shown z → length_of z ≤ byte → byte ≡ length_of z + result }
{
    match length_of_partial_size(sum) {
        Some(length) => byte.saturating_sub(length),
        None => 0,
    }
}

#[tactic(auto, using(crate::proofs::Sizes::SumsFit::fits))]
fn measure_of_size<'a>(sum: PartialSize) -> Measure<'a>
    ensures { (z : Size) → sum ≡ shown z →
        measure_view result ≡ size_within (length_of z) z.groups z.height }
{
    match (length_of_partial_size(sum), sum.groups) {
        (Some(length), Some(groups)) => Measure::Size {
            length,
            groups,
            nesting: sum.height,
        },
        _ => Measure::TooLong,
    }
}

pub(super) fn measure_of_result<'a>(answer: Result<PartialSize, Failure<'a>>) -> Measure<'a>
    ensures { (r : Result Size ItemFault) → result_view answer.entry ≡ shown_result r →
        measure_view result ≡ measured_size r }
{
    match answer {
        Ok(sum) => measure_of_size(sum),
        Err(failure) => Measure::Fault(failure.fault),
    }
}

pub(super) fn too_deep<'a>() -> Failure<'a>
    ensures fault { result.fault ≡ Fault.TooDeep }
    ensures reach { result.height ≡ 0 }
{
    Failure {
        fault: Fault::TooDeep,
        height: 0,
    }
}

pub(super) fn fault_after<'a>(sum: PartialSize, failure: Failure<'a>) -> Failure<'a>
    ensures fault { result.fault ≡ failure.entry.fault }
    ensures reach { result.height ≡ max sum.height failure.entry.height }
{
    Failure {
        fault: failure.fault,
        height: sum.height.max(failure.height),
    }
}

pub(super) fn fault_of<'a>(answer: Result<PartialSize, Failure<'a>>) -> Option<Fault<'a>>
    ensures { (r : Result Size ItemFault) → result_view answer.entry ≡ shown_result r →
        option_map fault_view result ≡ fault_in r }
{
    match answer {
        Ok(_) => None,
        Err(failure) => Some(failure.fault),
    }
}

//! What the values of a key are like, all together.
ghost use Rattle.std.specs.Prelude.{◌≡◌, ◌≤◌, ◌*◌, Some, OnOk, IfOk, IfSome, length, map};
ghost use Rattle.std.specs.Int.{div_ceil};
ghost use Rattle.groklog_answers.specs.KeyCounts.{CountsValue};
ghost use Rattle.groklog_views.specs.Figures.{counted_value, value_at};

use groklog_answers::{Counted, ValueCounts};
use std::alloc::{AllocError, Global};
use std::cmp::OrderedFloat;

/// How many bars over time there are at most.
const MOST_STRETCHES: usize = 24;

/// How many bytes a time has at most. A longer value with a time of day in it is a message.
const MOST_TIME_BYTES: usize = 64;

/// What numbers are like. Each figure is one of the numbers, by the nearest-rank method: the median is the first
/// one in order that half of all numbers don't exceed.
#[derive(Clone, Copy)]
pub(crate) struct NumberFigures<'c> {
    pub(crate) least: &'c str,
    pub(crate) median: &'c str,
    pub(crate) p95: &'c str,
    pub(crate) greatest: &'c str,
}

/// A number, how it is written, and how often it came.
#[derive(Clone, Copy)]
struct CountedNumber<'c> {
    number: OrderedFloat<f64>,
    counted: Counted<'c>,
}

/// Returns the number that a text is, or `None` if it is none. Only a text with a digit is one, so `nan` isn't.
fn number_of(text: &str) -> Option<OrderedFloat<f64>> {
    if !text.as_bytes().iter().any(|b| b.is_ascii_digit()) {
        return None;
    }
    let number: f64 = fast_float::parse(text).ok()?;
    Some(OrderedFloat(number))
}

/// Returns the values as numbers, from the least to the greatest, or `None` if one of them isn't a number.
fn numbers_of<'c>(
    alloc: Global,
    values: &[Counted<'c>],
) -> Result<Option<Vec<CountedNumber<'c>>>, AllocError> {
    let mut numbers = Vec::new(alloc);
    for counted in values {
        let Some(number) = number_of(counted.value) else {
            return Ok(None);
        };
        let counted = *counted;
        numbers.push(CountedNumber { number, counted })?;
    }
    numbers.sort_by_key(|number| number.number)?;
    Ok(Some(numbers))
}

/// Returns the number at a rank, where the first one in order has the rank 1, and each has as many ranks as it came
/// times.
fn number_at<'c>(numbers: &[CountedNumber<'c>], rank: u128) -> &'c str
    ensures { result.now ≡ value_at (map counted_value numbers.now) rank }
{
    let mut left = rank;
    'numbers: for number in numbers {
        let count = u128::from(number.counted.count);
        if count >= left {
            return number.counted.value;
        }
        left -= count;
    }
    ""
}

/// Returns the least number that at least `percent` percent of the `total` numbers don't exceed.
fn percentile<'c>(numbers: &[CountedNumber<'c>], total: u64, percent: u8) -> &'c str
    ensures { result.now ≡ value_at (map counted_value numbers.now) (div_ceil (total * percent) 100) }
{
    let hundredths = u128::from(total) * u128::from(percent);
    number_at(numbers, hundredths.div_ceil(100))
}

/// Returns the least, the median and the other figures of these values, of which there are `total`, as numbers. Returns
/// `None` if there are none, or if one of them isn't a number.
pub(crate) fn figures_of<'c>(
    alloc: Global,
    values: &[Counted<'c>],
    total: u64,
) -> Result<Option<NumberFigures<'c>>, AllocError> {
    let Some(numbers) = numbers_of(alloc, values)? else {
        return Ok(None);
    };
    let (Some(least), Some(greatest)) = (numbers.as_slice().first(), numbers.as_slice().last())
    else {
        return Ok(None);
    };
    Ok(Some(NumberFigures {
        least: least.counted.value,
        median: percentile(&numbers, total, 50),
        p95: percentile(&numbers, total, 95),
        greatest: greatest.counted.value,
    }))
}

/// Returns whether two bytes are the digits of an hour, from `00` to `23`.
fn is_hour(tens: u8, ones: u8) -> bool {
    match tens {
        b'0' | b'1' => ones.is_ascii_digit(),
        b'2' => matches!(ones, b'0'..=b'3'),
        _ => false,
    }
}

/// Returns whether two bytes are the digits of a minute, from `00` to `59`.
fn is_minute(tens: u8, ones: u8) -> bool {
    matches!(tens, b'0'..=b'5') && ones.is_ascii_digit()
}

fn is_hour_or_minute(tens: u8, ones: u8) -> bool {
    is_hour(tens, ones) || is_minute(tens, ones)
}

/// Returns whether a time of day, such as `06:25`, begins at this byte. No digit stands around it, and no point
/// before it, as in an address with a port.
fn is_time_at(bytes: &[u8], start: usize) -> bool {
    let before = bytes.get(..start).and_then(|before| before.last());
    let Some([a, b, b':', c, d, after @ ..]) = bytes.get(start..) else {
        return false;
    };
    let stands_alone = match before {
        Some(before) => !before.is_ascii_digit() && *before != b'.',
        None => true,
    };
    let ends = match after.first() {
        Some(after) => !after.is_ascii_digit(),
        None => true,
    };
    stands_alone && ends && is_hour(*a, *b) && is_minute(*c, *d)
}

/// Returns whether a text is short enough for a time, and has a time of day in it.
fn is_time(text: &str) -> bool {
    let bytes = text.as_bytes();
    bytes.len() <= MOST_TIME_BYTES && (0..bytes.len()).any(|start| is_time_at(bytes, start))
}

/// The values of a key.
#[derive(Drop)]
pub(crate) struct KeyValues {
    alloc: Global,
    /// How many values there are.
    pub(crate) total: u64,
    /// How often each value came.
    pub(crate) counts: ValueCounts,
    /// All of them in the order in which they were read, if each is a time.
    pub(crate) times: Option<Vec<String>>,
}

impl KeyValues {
    /// Makes the values of a key that has none yet. At most `most` different ones are counted.
    pub(crate) fn new(alloc: Global, most: usize) -> KeyValues {
        KeyValues {
            alloc,
            total: 0,
            counts: ValueCounts::new(alloc, most),
            times: Some(Vec::new(alloc)),
        }
    }

    pub(crate) fn note(&mut self, value: &str) -> Result<(), AllocError>
        ensures { OnOk result (CountsValue self.old.counts self.new.counts (Some value.now)) }
    {
        if !is_time(value) {
            self.times = None;
        }
        if let Some(times) = &mut self.times {
            times.push(String::from_str(self.alloc, value)?)?;
        }
        self.total = self.total.saturating_add(1);
        self.counts.note(value)
    }
}

/// Times that came one after another and begin alike, and how many there are.
#[derive(Clone, Copy)]
pub(crate) struct Stretch<'t> {
    pub(crate) beginning: &'t str,
    /// Whether the beginning ends after the tens of the minutes or of the seconds.
    pub(crate) is_of_tens: bool,
    pub(crate) count: u64,
}

/// Cuts each time after this many bytes, and returns the stretches of those that begin alike, or `None` if there
/// are too many.
fn stretches_at<'t>(
    alloc: Global,
    times: &'t [String],
    cut: usize,
) -> Result<Option<Vec<Stretch<'t>>>, AllocError>
    ensures { IfOk result (λ found. IfSome found (λ stretches. length stretches.items ≤ 24)) }
{
    let mut stretches: Vec<Stretch<'t>> = Vec::new(alloc);
    'times: for time in times {
        let beginning = time.as_str().get(..cut).unwrap_or(time.as_str());
        let is_of_tens = is_between_digits(time.as_str(), cut);
        if let Some(last) = stretches.last_mut()
            && last.beginning == beginning
        {
            last.count = last.count.saturating_add(1);
            continue;
        }
        if stretches.len() == MOST_STRETCHES {
            return Ok(None);
        }
        stretches.push(Stretch {
            beginning,
            is_of_tens,
            count: 1,
        })?;
    }
    Ok(Some(stretches))
}

/// Returns whether the digits of a minute or a second stand around this byte position: its tens come after two digits
/// and a colon, as in `06:2`.
fn is_between_digits(time: &str, cut: usize) -> bool {
    let bytes = time.as_bytes();
    let Some([before @ .., a, b, b':', tens]) = bytes.get(..cut) else {
        return false;
    };
    let is_in_time = match before.last() {
        Some(before) => !before.is_ascii_digit(),
        None => true,
    };
    let is_before_digit = match bytes.get(cut) {
        Some(ones) => ones.is_ascii_digit(),
        None => false,
    };
    is_in_time && is_hour_or_minute(*a, *b) && tens.is_ascii_digit() && is_before_digit
}

/// Returns whether a date ends after this many bytes, before the `T` of a time such as `2026-11-28T06:25:01`.
fn is_end_of_date(time: &str, cut: usize) -> bool {
    match time.as_bytes().get(cut..) {
        Some([b'T', hour, ..]) => hour.is_ascii_digit(),
        _ => false,
    }
}

/// Returns whether a time can be cut after this many bytes: at its end, before a byte that is neither a letter nor a
/// digit, at the end of its date, or after the tens of its minutes or seconds.
fn is_cut(time: &str, cut: usize) -> bool {
    match time.as_bytes().get(cut) {
        Some(b) => {
            !b.is_ascii_alphanumeric() || is_end_of_date(time, cut) || is_between_digits(time, cut)
        }
        None => true,
    }
}

/// Returns the stretches of the times. All times are cut after the same number of bytes, the greatest number that
/// gives at most 24 stretches. There are no stretches if each number gives more.
pub(crate) fn stretches_of<'t>(
    alloc: Global,
    times: &'t [String],
) -> Result<Vec<Stretch<'t>>, AllocError>
    ensures { IfOk result (λ stretches. length stretches.items ≤ 24) }
{
    let Some(first) = times.first() else {
        return Ok(Vec::new(alloc));
    };
    'cuts: for cut in (1..=first.len()).rev() {
        if is_cut(first.as_str(), cut)
            && let Some(stretches) = stretches_at(alloc, times, cut)?
        {
            return Ok(stretches);
        }
    }
    Ok(Vec::new(alloc))
}

//! Counts how many lines have each of some things.

use std::alloc::AllocError;

/// What some lines have, and how many of them have it.
#[derive(Clone, Copy)]
pub(crate) struct Counted<T> {
    pub what: T,
    pub lines: usize,
}

/// Counts one more line that has this.
pub(crate) fn count_line<T: Copy + PartialEq>(
    counts: &mut Vec<Counted<T>>,
    what: T,
) -> Result<(), AllocError> {
    for count in counts.iter_mut() {
        if count.what == what {
            count.lines = count.lines.saturating_add(1);
            return Ok(());
        }
    }
    Ok(counts.push(Counted { what, lines: 1 })?)
}

/// Returns what most lines have: the first of these, if there are several.
pub(crate) fn commonest<T: Copy>(counts: &[Counted<T>]) -> Option<Counted<T>> {
    let mut best: Option<Counted<T>> = None;
    for count in counts {
        let most = best.map_or(0, |best| best.lines);
        if count.lines > most {
            best = Some(*count);
        }
    }
    best
}

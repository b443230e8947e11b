//! The texts of the groups of a match.
ghost use Rattle.std.specs.Prelude.{◌≡◌, ◌+◌, ◌/◌, ◌≤◌, length, vec_len, option_map, slice_range, IfOk, IfSome, OnOk};
ghost use Rattle.regex_shared.specs.Texts.{text_of, capture_texts, IsSliceOf, AreSlicesOf, text_at, texts_at};
ghost use Rattle.regex_shared.specs.steps.Searches.{span_of_cells};

use regex_vm::Declined;

pub(crate) fn write_texts<'t>(
    line: &'t str,
    whole: (usize, usize),
    cells: &[usize],
    texts: &mut Vec<Option<&'t str>>,
) -> Result<(), Declined>
    ensures texts { OnOk result (capture_texts texts.new.items
        ≡ texts_at line.now (span_of_cells whole cells.now) (length cells.now / 2 + 1)) }
    ensures count { OnOk result (vec_len texts.new ≡ length cells.now / 2 + 1) }
    ensures slices { OnOk result (AreSlicesOf line.now (capture_texts texts.new.items)) }
{
    let count = cells.len() / 2 + 1;
    texts.clear();
    texts.reserve(count)?;
    'groups: for number in 0..count {
        let text = group_text(line, whole, cells, number)?;
        let Ok(()) = texts.push(text) else {
            return Err(Declined);
        };
    }
    Ok(())
}

fn group_text<'t>(
    line: &'t str,
    whole: (usize, usize),
    cells: &[usize],
    number: usize,
) -> Result<Option<&'t str>, Declined>
    requires { number ≤ length cells.now / 2 }
    ensures text { IfOk result (λ text. option_map text_of text
        ≡ text_at line.now (span_of_cells whole cells.now) number) }
    ensures slice { IfOk result (λ text. IfSome (option_map text_of text) (IsSliceOf line.now)) }
{
    match group_span(whole, cells, number) {
        Some((start, end)) => Ok(Some(part(line, start, end)?)),
        None => Ok(None),
    }
}

fn group_span(whole: (usize, usize), cells: &[usize], number: usize) -> Option<(usize, usize)>
    requires { number ≤ length cells.now / 2 }
    ensures { result ≡ span_of_cells whole cells.now number }
{
    if number == 0 {
        return Some(whole);
    }
    let first = cells[2 * number - 2];
    let last = cells[2 * number - 1];
    if first == 0 || last == 0 {
        None
    } else {
        Some((first - 1, last - 1))
    }
}

fn part(line: &str, start: usize, end: usize) -> Result<&str, Declined>
    ensures text { IfOk result (λ text. text.now ≡ slice_range line.now start end) }
    ensures slice { IfOk result (λ text. IsSliceOf line.now text.now) }
{
    if start <= end && line.is_char_boundary(start) && line.is_char_boundary(end) {
        Ok(&line[start..end])
    } else {
        Err(Declined)
    }
}

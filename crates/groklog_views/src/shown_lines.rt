//! Shows a line on a terminal, with its fields marked in colours or by letters under them.
ghost use Rattle.std.specs.Prelude.{◌≡◌, true, IfOk, string_bytes};
ghost use Rattle.groklog_views.specs.Shown.{unmatched_shown, IsColoured};

use groklog_reports::{push_visible, visible};
use marked_lines::{Field, Run, letter_of, push_coloured, push_letters, runs_of};
use std::alloc::{AllocError, Global};

/// Returns the line that shows which key has which colour, or which letter. It is empty if there are no
/// keys.
pub fn legend_of(alloc: Global, keys: &[&str], is_coloured: bool) -> Result<String, AllocError> {
    let mut legend = String::new(alloc);
    if keys.is_empty() {
        return Ok(legend);
    }
    legend.push_str("keys:")?;
    for (number, key) in keys.iter().enumerate() {
        legend.push(' ')?;
        if is_coloured {
            let text = String::from_str(alloc, key)?;
            let key = Some(number);
            push_coloured(&mut legend, &[Run { key, text }])?;
        } else {
            let key = visible(alloc, key)?;
            legend.push(letter_of(number))?;
            legend.push('=')?;
            legend.push_str(key.as_str())?;
        }
    }
    legend.push('\n')?;
    Ok(legend)
}

/// Returns a line that no pattern matches, as it is shown: dimmed if there are colours, and otherwise as it
/// is.
pub fn shown_unmatched(alloc: Global, line: &str, is_coloured: bool) -> Result<String, AllocError>
    ensures { IfOk result (λ shown. string_bytes shown ≡ unmatched_shown is_coloured line.now) }
{
    let line = visible(alloc, line)?;
    if is_coloured {
        format!(in alloc; "\u{1b}[2m{line}\u{1b}[0m\n")
    } else {
        format!(in alloc; "{line}\n")
    }
}

/// Appends a line, and a row of letters under its fields if it has any.
fn push_lettered(
    alloc: Global,
    shown: &mut String,
    line: &str,
    runs: &[Run],
) -> Result<(), AllocError> {
    push_visible(shown, line)?;
    let mut row = String::new(alloc);
    push_letters(alloc, &mut row, runs)?;
    let row = row.as_str().trim_end();
    if row.is_empty() {
        return Ok(());
    }
    shown.push('\n')?;
    shown.push_str(row)
}

/// Returns a line as it is shown with these fields: in colours if `is_coloured` is set, and otherwise with
/// letters under them.
pub fn shown_line(
    alloc: Global,
    line: &str,
    fields: &[Field],
    is_coloured: bool,
) -> Result<String, AllocError>
    ensures { IfOk result (λ shown. is_coloured ≡ true → IsColoured line.now fields.now (string_bytes shown)) }
{
    let runs = runs_of(alloc, line, fields)?;
    let mut shown = String::new(alloc);
    if is_coloured {
        push_coloured(&mut shown, &runs)?;
    } else {
        push_lettered(alloc, &mut shown, line, &runs)?;
    }
    shown.push('\n')?;
    Ok(shown)
}

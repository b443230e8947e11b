//! Writes a letter under each column of a field, for a line without colours.
ghost use Rattle.std.specs.Prelude.{◌≡◌, ◌<◌, ◌++◌, OnOk, flat_map, replicate, string_bytes};
ghost use Rattle.marked_lines.specs.Letters.{letter_of, letter_or_blank, run_letters};

use crate::runs::Run;
use groklog_reports::push_visible;
use std::alloc::{AllocError, Global};
use unicode_width::UnicodeWidthStr;

/// Returns the letter of a key: `a` to `z` for the first keys, then `A` to `Z`, and then `a` again.
pub fn letter_of(key: usize) -> char
    ensures { result ≡ letter_of key }
{
    let number = (key % 52) as u8;
    if number < 26 {
        char::from(b'a' + number)
    } else {
        char::from(b'A' + (number - 26))
    }
}

fn letter_or_blank(key: Option<usize>) -> char
    ensures letter { result ≡ letter_or_blank key }
    ensures ascii { result < 128 }
{
    match key {
        Some(key) => letter_of(key),
        None => ' ',
    }
}

fn push_many(row: &mut String, letter: char, count: usize) -> Result<(), AllocError>
    requires { letter < 128 }
    ensures { OnOk result (string_bytes row.new ≡ string_bytes row.old ++ replicate count letter) }
{
    'letters: for _ in 0..count {
        row.push(letter)?;
    }
    Ok(())
}

/// Appends the letters under a run. The text of the run is shown in `shown` before.
fn push_run_letters(row: &mut String, shown: &mut String, run: &Run) -> Result<(), AllocError>
    ensures { OnOk result (string_bytes row.new ≡ string_bytes row.old ++ run_letters run.now) }
{
    shown.clear();
    push_visible(shown, run.text.as_str())?;
    let letter = letter_or_blank(run.key);
    push_many(row, letter, shown.as_str().width())
}

/// Appends the row that stands under runs on a terminal: for each column of a run the letter of its
/// key, or a blank if the run has no key. If an allocation fails, a part of the row may have been
/// appended.
pub fn push_letters(alloc: Global, row: &mut String, runs: &[Run]) -> Result<(), AllocError>
    ensures { OnOk result (string_bytes row.new
        ≡ string_bytes row.old ++ flat_map run_letters runs.now) }
{
    let mut shown = String::new(alloc);
    'runs: for run in runs {
        push_run_letters(row, &mut shown, run)?;
    }
    Ok(())
}

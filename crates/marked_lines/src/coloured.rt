//! Writes runs in colours, for a terminal.
ghost use Rattle.std.specs.Prelude.{◌≡◌, ◌++◌, OnOk, flat_map, false, string_bytes};
ghost use Rattle.groklog_reports.specs.Visible.{visible};
ghost use Rattle.marked_lines.specs.Colours.{colour_code};
ghost use Rattle.marked_lines.specs.Runs.{runs_text};
ghost use Rattle.marked_lines.specs.Coloured.{coloured_run, without_codes};

use crate::colour::colour_digit;
use crate::runs::Run;
use groklog_reports::push_visible;
use std::alloc::AllocError;

fn push_code(text: &mut String, key: usize) -> Result<(), AllocError>
    ensures { OnOk result (string_bytes text.new ≡ string_bytes text.old ++ colour_code key) }
{
    text.push_str("\u{1b}[3")?;
    text.push(colour_digit(key))?;
    text.push('m')
}

fn push_run(text: &mut String, run: &Run) -> Result<(), AllocError>
    ensures { OnOk result (string_bytes text.new ≡ string_bytes text.old ++ coloured_run run.now) }
{
    match run.key {
        None => push_visible(text, run.text.as_str()),
        Some(key) => {
            push_code(text, key)?;
            push_visible(text, run.text.as_str())?;
            text.push_str("\u{1b}[0m")
        }
    }
}

/// Appends runs, each in the colour of its key. Without the codes of the colours, what is appended is
/// the text of the runs as messages show it, so nothing in it is a command to the terminal. If an
/// allocation fails, some of the runs may have been appended.
pub fn push_coloured(text: &mut String, runs: &[Run]) -> Result<(), AllocError>
    ensures coloured { OnOk result (string_bytes text.new
        ≡ string_bytes text.old ++ flat_map coloured_run runs.now) }
    ensures text { without_codes false (flat_map coloured_run runs.now)
        ≡ visible (runs_text runs.now) }
{
    'runs: for run in runs {
        push_run(text, run)?;
    }
    Ok(())
}

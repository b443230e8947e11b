//! Writes the `KEY=VALUE` lines for a line of a log.
ghost use Rattle.std.specs.Prelude.{◌≡◌, ◌++◌, Some, OnOk, flat_map, map};
ghost use Rattle.grok.specs.Answers.{walk, value_of};
ghost use Rattle.grok.specs.BorrowedMatches.{borrowed_keys, borrowed_captures};
ghost use Rattle.groklog_answers.specs.Layouts.{added_pair, layout_value};
ghost use Rattle.groklog_answers.specs.PairTexts.{added_line, field_line, field_lines, chosen_pairs, answer_lines};
ghost use Rattle.groklog_answers.specs.Views.{answered_text};

use crate::answered_line::AnsweredLine;
use crate::layout::{Added, Layout};
use grok::MatchesRef;
use grok_lines::append_pair;
use std::alloc::AllocError;

fn append_additions(
    text: &mut Vec<u8>,
    line: &AnsweredLine<'_>,
    additions: &[Added<'_>],
) -> Result<(), AllocError>
    ensures { OnOk result (text.new.items ≡ text.old.items
        ++ flat_map (added_line (answered_text line.now)) (map added_pair additions.now)) }
{
    'additions: for added in additions {
        if let Some(value) = line.added(added.what) {
            append_pair(text, added.key, value)?;
        }
    }
    Ok(())
}

fn append_field(
    text: &mut Vec<u8>,
    layout: &Layout<'_>,
    key: &str,
    value: &str,
) -> Result<(), AllocError>
    ensures { OnOk result (text.new.items ≡ text.old.items
        ++ field_line (layout_value layout.now) (key.now, value.now)) }
{
    if layout.drops_empty && value.is_empty() {
        return Ok(());
    }
    append_pair(text, key, value)
}

fn append_all(
    text: &mut Vec<u8>,
    layout: &Layout<'_>,
    matches: MatchesRef<'_>,
) -> Result<(), AllocError>
    ensures { OnOk result (text.new.items ≡ text.old.items ++ flat_map (field_line (layout_value layout.now))
        (walk (borrowed_keys matches.entry) (borrowed_captures matches.entry))) }
{
    'pairs: for (key, value) in matches.iter() {
        append_field(text, layout, key, value)?;
    }
    Ok(())
}

fn append_chosen(
    text: &mut Vec<u8>,
    layout: &Layout<'_>,
    names: &[&str],
    matches: MatchesRef<'_>,
) -> Result<(), AllocError>
    ensures { OnOk result (text.new.items ≡ text.old.items ++ flat_map (field_line (layout_value layout.now))
        (chosen_pairs (Some (map (λ name. name.now) names.now))
        (walk (borrowed_keys matches.entry) (borrowed_captures matches.entry))
        (value_of (borrowed_keys matches.entry) (borrowed_captures matches.entry)))) }
{
    'names: for name in names {
        if let Some(value) = matches.get(name) {
            append_field(text, layout, name, value)?;
        }
    }
    Ok(())
}

fn append_pairs(
    text: &mut Vec<u8>,
    layout: &Layout<'_>,
    matches: MatchesRef<'_>,
) -> Result<(), AllocError>
    ensures { OnOk result (text.new.items ≡ text.old.items ++ flat_map (field_line (layout_value layout.now))
        (chosen_pairs (layout_value layout.now).fields
        (walk (borrowed_keys matches.entry) (borrowed_captures matches.entry))
        (value_of (borrowed_keys matches.entry) (borrowed_captures matches.entry)))) }
{
    match layout.fields {
        None => append_all(text, layout, matches),
        Some(names) => append_chosen(text, layout, names, matches),
    }
}

fn append_fields(text: &mut Vec<u8>, line: &AnsweredLine<'_>) -> Result<(), AllocError>
    ensures { OnOk result (text.new.items ≡ text.old.items
        ++ field_lines (answered_text line.now).layout (answered_text line.now).found) }
{
    match &line.found {
        Ok(found) => append_pairs(text, line.layout, found.matches),
        Err(_) => Ok(()),
    }
}

/// Appends what `--pairs` writes for a line: a line `KEY=VALUE` for each value, and an empty line.
pub fn append_answer(text: &mut Vec<u8>, line: &AnsweredLine<'_>) -> Result<(), AllocError>
    ensures { OnOk result (text.new.items ≡ text.old.items ++ answer_lines (answered_text line.now)) }
{
    append_additions(text, line, line.layout.before)?;
    append_fields(text, line)?;
    append_additions(text, line, line.layout.after)?;
    text.push(b'\n')?;
    Ok(())
}

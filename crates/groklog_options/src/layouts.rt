//! How the answers of a run are written, by its options.
ghost use Rattle.std.specs.Prelude.{◌≡◌, ◌≤◌, drop, length, take};
ghost use Rattle.groklog_options.specs.Additions.{count_before, is_line};

use crate::task::AnswerOptions;
use groklog_answers::{Added, Addition, Layout};

fn is_line(added: &Added<'_>) -> bool
    ensures { result ≡ is_line added.now }
{
    matches!(added.what, Addition::Line)
}

fn count_before(added: &[Added<'_>]) -> usize
    ensures count { result ≡ count_before added.now }
    ensures within { result ≤ length added.now }
{
    'added: for (index, one) in added.iter().enumerate() {
        if is_line(one) {
            return index;
        }
    }
    added.len()
}

/// Returns the layout that the options ask for, with these keys of patterns.
pub fn layout_of<'a>(answers: &'a AnswerOptions<'a>, fields: Option<&'a [&'a str]>) -> Layout<'a>
    ensures lines { result.lines ≡ answers.now.lines }
    ensures format { result.format ≡ answers.now.format }
    ensures before { result.before.now ≡ take (count_before answers.now.added.items) answers.now.added.items }
    ensures after { result.after.now ≡ drop (count_before answers.now.added.items) answers.now.added.items }
    ensures typed { result.typed ≡ answers.now.is_typed }
    ensures drops_empty { result.drops_empty ≡ answers.now.drops_empty }
    ensures fields { result.fields ≡ fields.entry }
    ensures tags_failures { result.tags_failures ≡ answers.now.tags_failures }
{
    let (before, after) = answers.added.split_at(count_before(&answers.added));
    Layout {
        lines: answers.lines,
        format: answers.format,
        before,
        after,
        file_name: "",
        typed: answers.is_typed,
        drops_empty: answers.drops_empty,
        fields,
        tags_failures: answers.tags_failures,
    }
}

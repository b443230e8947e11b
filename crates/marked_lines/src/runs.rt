//! Cuts a line into runs of characters that have one key.
ghost use Rattle.std.specs.Prelude.{◌≡◌, ℕ, ◌≤◌, ◌<◌, ◌++◌, IfOk, OnOk, flat_map, chars, encode_utf8, string_bytes};
ghost use Rattle.marked_lines.specs.Runs.{has_byte, key_at, keyed_bytes, run_bytes, runs_text, with_key};

use std::alloc::{AllocError, Global};

/// The part of a line that is the value of a key.
#[derive(Clone, Copy)]
pub struct Field {
    /// The number of the key.
    pub key: usize,
    /// The byte position in the line where the value starts.
    pub start: usize,
    /// The byte position after the value.
    pub end: usize,
}

/// Characters that follow each other in a line and have the same key.
#[derive(Drop)]
pub struct Run {
    /// The number of the key, or `None` if the characters are in no field.
    pub key: Option<usize>,
    pub text: String,
}

fn key_at(fields: &[Field], at: usize) -> Option<usize>
    ensures { result ≡ key_at fields.now at }
{
    let field = fields
        .iter()
        .rev()
        .find(|field| field.start <= at && at < field.end)?;
    Some(field.key)
}

/// Returns where a field starts or ends next after `at`, or the greatest number if it does neither. An empty
/// field has no bytes, so it does neither.
fn bound_of(field: &Field, at: usize) -> usize
    ensures { (p : ℕ) → at ≤ p → p < result → has_byte p field.now ≡ has_byte at field.now }
{
    if field.end <= at || field.end <= field.start {
        usize::MAX
    } else if at < field.start {
        field.start
    } else {
        field.end
    }
}

/// Returns the first position after `at` where a field starts or ends. Up to there the key is that at `at`.
fn next_bound(fields: &[Field], at: usize) -> usize
    ensures { (p : ℕ) → at ≤ p → p < result → key_at fields.now p ≡ key_at fields.now at }
{
    let mut bound = usize::MAX;
    'fields: for field in fields {
        bound = bound.min(bound_of(field, at));
    }
    bound
}

fn push_run(
    alloc: Global,
    runs: &mut Vec<Run>,
    key: Option<usize>,
    text: &str,
) -> Result<(), AllocError>
    ensures text { OnOk result (runs_text runs.new.items ≡ runs_text runs.old.items ++ text.now) }
    ensures keys { OnOk result (flat_map run_bytes runs.new.items
        ≡ flat_map run_bytes runs.old.items ++ with_key key text.now) }
{
    let text = String::from_str(alloc, text)?;
    runs.push(Run { key, text })?;
    Ok(())
}

/// Cuts a line into runs. A character that is in several fields has the key of the last of them. If
/// `fields` has each field after those that it lies in, this is the innermost one.
pub fn runs_of(alloc: Global, line: &str, fields: &[Field]) -> Result<Vec<Run>, AllocError>
    ensures text { IfOk result (λ runs. runs_text runs.items ≡ line.now) }
    ensures keys { IfOk result (λ runs. flat_map run_bytes runs.items
        ≡ keyed_bytes fields.now 0 (chars line.now)) }
{
    let mut runs = Vec::new(alloc);
    let mut start = 0;
    let mut key = key_at(fields, 0);
    let mut bound = next_bound(fields, 0);
    'chars: for (at, _) in line.char_indices() {
        if bound <= at {
            push_run(alloc, &mut runs, key, &line[start..at])?;
            start = at;
            key = key_at(fields, at);
            bound = next_bound(fields, at);
        }
    }
    push_run(alloc, &mut runs, key, &line[start..])?;
    Ok(runs)
}

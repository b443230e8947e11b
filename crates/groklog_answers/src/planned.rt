//! Writes the fields of a match by a plan: in nested objects, and several values as an array.
ghost use Rattle.std.specs.Prelude.{◌≡◌, ◌++◌, IfOk, OnOk, true, false, option_map, flat_map, map, length, ◌≤◌, Some, None};
ghost use Rattle.grok.specs.Answers.{value_of};
ghost use Rattle.grok.specs.Captures.{text_of};
ghost use Rattle.grok.specs.BorrowedMatches.{borrowed_keys, borrowed_captures};
ghost use Rattle.json.specs.Json.{Json, Members};
ghost use Rattle.json.specs.Tree.{json_tokens};
ghost use Rattle.groklog_answers.specs.Objects.{member_tokens, pairs_of};
ghost use Rattle.groklog_answers.specs.PlannedFields.{kept_value, key_values, one_or_array, put_field, field_value, planned_members};
ghost use Rattle.groklog_answers.specs.PlanViews.{names_of, field_text};
ghost use Rattle.groklog_answers.specs.Views.{found_layout, found_text};
ghost use Rattle.groklog_answers.specs.steps.OpenObjects.{closing, opening, shared_len, moving, opened_after, left_tokens};

use crate::found::Found;
use crate::plan::{Field, shared_len};
use json::Writer;
use std::alloc::{AllocError, Global};

impl Found<'_> {
    fn value(&self, key: &str) -> Option<&str>
        ensures { option_map text_of result ≡ kept_value self.now.layout.now.drops_empty
            (value_of (borrowed_keys self.now.matches) (borrowed_captures self.now.matches) key.now) }
    {
        let value = self.matches.get(key)?;
        if self.layout.drops_empty && value.is_empty() {
            return None;
        }
        Some(value)
    }

    fn count_one(&self, key: &str) -> usize
        ensures value { result ≡ length (key_values (found_layout self.now) (found_text self.now) key.now) }
        ensures one { result ≤ 1 }
    {
        match self.value(key) {
            Some(_) => 1,
            None => 0,
        }
    }

    fn count(&self, keys: &[&str]) -> usize
        ensures { result ≡ length (flat_map (key_values (found_layout self.now) (found_text self.now)) (names_of keys.now)) }
    {
        let mut count = 0;
        'keys: for key in keys {
            count += self.count_one(key);
        }
        count
    }
}

fn write_key_value(
    alloc: Global,
    writer: &mut Writer,
    found: &Found<'_>,
    key: &str,
) -> Result<(), AllocError>
    ensures values { OnOk result (writer.new.tokens ≡ writer.old.tokens ++ flat_map json_tokens
        (key_values (found_layout found.now) (found_text found.now) key.now)) }
    ensures before { writer.new.before ≡ writer.old.before }
{
    let Some(value) = found.value(key) else {
        return Ok(());
    };
    found.write_value(alloc, writer, key, value)
}

#[tactic(auto, using(crate::proofs::PlannedTokens::values_append))]
fn write_values(
    alloc: Global,
    writer: &mut Writer,
    found: &Found<'_>,
    keys: &[&str],
) -> Result<(), AllocError>
    ensures values { OnOk result (writer.new.tokens ≡ writer.old.tokens ++ flat_map json_tokens
        (flat_map (key_values (found_layout found.now) (found_text found.now)) (names_of keys.now))) }
    ensures before { writer.new.before ≡ writer.old.before }
{
    'keys: for key in keys {
        write_key_value(alloc, writer, found, key)?;
    }
    Ok(())
}

fn write_one_or_array(
    alloc: Global,
    writer: &mut Writer,
    found: &Found<'_>,
    keys: &[&str],
    count: usize,
) -> Result<(), AllocError>
    ensures value { OnOk result ((value : Json)
        → count ≡ length (flat_map (key_values (found_layout found.now) (found_text found.now)) (names_of keys.now))
        → one_or_array (flat_map (key_values (found_layout found.now) (found_text found.now)) (names_of keys.now)) ≡ Some value
        → writer.new.tokens ≡ writer.old.tokens ++ json_tokens value) }
    ensures before { writer.new.before ≡ writer.old.before }
{
    if count == 1 {
        return write_values(alloc, writer, found, keys);
    }
    writer.begin_array()?;
    write_values(alloc, writer, found, keys)?;
    writer.end_array()
}

fn close_objects(writer: &mut Writer, names: &[&str]) -> Result<(), AllocError>
    ensures tokens { OnOk result (writer.new.tokens ≡ writer.old.tokens ++ closing (names_of names.now)) }
    ensures before { writer.new.before ≡ writer.old.before }
{
    'names: for _ in names {
        writer.end_object()?;
    }
    Ok(())
}

fn open_objects(writer: &mut Writer, names: &[&str]) -> Result<(), AllocError>
    ensures tokens { OnOk result (writer.new.tokens ≡ writer.old.tokens ++ opening (names_of names.now)) }
    ensures before { writer.new.before ≡ writer.old.before }
{
    'names: for name in names {
        writer.key(name)?;
        writer.begin_object()?;
    }
    Ok(())
}

fn move_to(writer: &mut Writer, opened: &[&str], parents: &[&str]) -> Result<(), AllocError>
    ensures tokens { OnOk result (writer.new.tokens ≡ writer.old.tokens
        ++ moving (names_of opened.now) (names_of parents.now)) }
    ensures before { writer.new.before ≡ writer.old.before }
{
    let shared = shared_len(opened, parents);
    close_objects(writer, opened.split_at(shared).1)?;
    open_objects(writer, parents.split_at(shared).1)
}

fn opened_after<'f>(last: Option<&'f Field<'f>>) -> &'f [&'f str]
    ensures { names_of result.now ≡ opened_after (option_map (λ field. field_text field.now) last.entry) }
{
    match last {
        Some(field) => field.parents.as_slice(),
        None => &[],
    }
}

/// `last` is the field that was written last, whose objects are open, if there is one. Returns whether the
/// field was written.
fn write_field<'f>(
    alloc: Global,
    writer: &mut Writer,
    found: &Found<'_>,
    last: Option<&'f Field<'f>>,
    field: &'f Field<'f>,
) -> Result<bool, AllocError>
    ensures written { IfOk result (λ is_written. is_written ≡ true → (more : Members)
        → writer.new.tokens ++ left_tokens (field_text field.now).parents more
        ≡ writer.old.tokens ++ left_tokens (opened_after (option_map (λ field. field_text field.now) last.entry))
        (put_field (field_text field.now) (field_value (found_layout found.now) (found_text found.now) (field_text field.now)) more)) }
    ensures left_out { IfOk result (λ is_written. is_written ≡ false → (writer.new.tokens ≡ writer.old.tokens)
        × (field_value (found_layout found.now) (found_text found.now) (field_text field.now) ≡ None)) }
    ensures before { writer.new.before ≡ writer.old.before }
{
    let count = found.count(&field.keys);
    if count == 0 {
        return Ok(false);
    }
    move_to(writer, opened_after(last), &field.parents)?;
    writer.key(field.name)?;
    write_one_or_array(alloc, writer, found, &field.keys, count)?;
    Ok(true)
}

/// Writes the fields of a plan, in their order.
pub fn write_planned<'f>(
    alloc: Global,
    writer: &mut Writer,
    found: &Found<'_>,
    fields: &'f [Field<'f>],
) -> Result<(), AllocError>
    ensures members { OnOk result (writer.new.tokens ≡ writer.old.tokens ++ flat_map member_tokens
        (pairs_of (planned_members (found_layout found.now) (found_text found.now) (map field_text fields.now)))) }
    ensures before { writer.new.before ≡ writer.old.before }
{
    let mut last = None;
    'fields: for field in fields {
        if write_field(alloc, writer, found, last, field)? {
            last = Some(field);
        }
    }
    close_objects(writer, opened_after(last))
}

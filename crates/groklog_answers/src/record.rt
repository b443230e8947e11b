//! Writes the record of comma-separated values for a line of a log.
ghost use Rattle.std.specs.Prelude.{◌≡◌, ◌++◌, IfOk, OnOk, map};
ghost use Rattle.csv.specs.Writing.{default_writer, row_text};
ghost use Rattle.groklog_answers.specs.Layouts.{added_pair, layout_value};
ghost use Rattle.groklog_answers.specs.Records.{value_in, added_value, columns_of, value_or_empty, answer_record, header_record};
ghost use Rattle.groklog_answers.specs.Views.{answered_text};

use crate::answered_line::AnsweredLine;
use crate::layout::{Added, Layout};
use csv::{Error, WriterBuilder};
use std::alloc::{AllocError, Global};

/// The values of a record so far.
type Values<'v> = Vec<&'v [u8]>;

fn write_record(alloc: Global, values: &[&[u8]]) -> Result<Vec<u8>, Error>
    ensures { IfOk result (λ text. text.items ≡ row_text default_writer (map (λ value. value.now) values.now)) }
{
    let mut writer = WriterBuilder::new().from_writer(Vec::new(alloc));
    writer.write_fields(values)?;
    match writer.into_inner() {
        Ok(text) => Ok(text),
        Err(error) => Err(error.into_error()),
    }
}

/// Appends a record.
pub fn append_record(alloc: Global, text: &mut Vec<u8>, values: &[&[u8]]) -> Result<(), AllocError>
    ensures { OnOk result (text.new.items ≡ text.old.items
        ++ row_text default_writer (map (λ value. value.now) values.now)) }
{
    match write_record(alloc, values) {
        Ok(record) => text.extend_from_slice(&record),
        // own error: a record in memory can't be written only if an allocation fails.
        Err(_) => Err(AllocError),
    }
}

impl AnsweredLine<'_> {
    fn value(&self, name: &str) -> &str
        ensures { result.now ≡ value_or_empty (value_in (answered_text self.now).found) name.now }
    {
        match &self.found {
            Ok(found) => found.matches.get(name).unwrap_or(""),
            Err(_) => "",
        }
    }

    fn added_value(&self, added: &Added<'_>) -> &str
        ensures { result.now ≡ added_value (answered_text self.now) (added_pair added.now) }
    {
        self.added(added.what).unwrap_or("")
    }
}

fn add_values<'v>(
    values: &mut Values<'v>,
    line: &'v AnsweredLine<'_>,
    names: &[&str],
) -> Result<(), AllocError>
    ensures { OnOk result (map (λ value. value.now) values.new.items ≡ map (λ value. value.now) values.old.items
        ++ map (value_or_empty (value_in (answered_text line.now).found)) (map (λ name. name.now) names.now)) }
{
    'names: for name in names {
        values.push(line.value(name).as_bytes())?;
    }
    Ok(())
}

fn add_additions<'v>(
    values: &mut Values<'v>,
    line: &'v AnsweredLine<'_>,
    additions: &[Added<'_>],
) -> Result<(), AllocError>
    ensures { OnOk result (map (λ value. value.now) values.new.items ≡ map (λ value. value.now) values.old.items
        ++ map (added_value (answered_text line.now)) (map added_pair additions.now)) }
{
    'additions: for added in additions {
        values.push(line.added_value(added).as_bytes())?;
    }
    Ok(())
}

fn add_keys<'v>(values: &mut Values<'v>, additions: &[Added<'v>]) -> Result<(), AllocError>
    ensures { OnOk result (map (λ value. value.now) values.new.items ≡ map (λ value. value.now) values.old.items
        ++ map (λ added. added.1) (map added_pair additions.now)) }
{
    'additions: for added in additions {
        values.push(added.key.as_bytes())?;
    }
    Ok(())
}

pub(crate) fn add_names<'v>(values: &mut Values<'v>, names: &[&'v str]) -> Result<(), AllocError>
    ensures { OnOk result (map (λ value. value.now) values.new.items ≡ map (λ value. value.now) values.old.items
        ++ map (λ name. name.now) names.now) }
{
    'names: for name in names {
        values.push(name.as_bytes())?;
    }
    Ok(())
}

impl<'a> Layout<'a> {
    fn columns(&self) -> &'a [&'a str]
        ensures { map (λ name. name.now) result.now ≡ columns_of (layout_value self.now) }
    {
        self.fields.unwrap_or(&[])
    }
}

/// Appends the record of a line.
pub fn append_answer(
    alloc: Global,
    text: &mut Vec<u8>,
    line: &AnsweredLine<'_>,
) -> Result<(), AllocError>
    ensures { OnOk result (text.new.items ≡ text.old.items ++ answer_record (answered_text line.now)) }
{
    let mut values = Vec::new(alloc);
    add_additions(&mut values, line, line.layout.before)?;
    add_values(&mut values, line, line.layout.columns())?;
    add_additions(&mut values, line, line.layout.after)?;
    append_record(alloc, text, &values)
}

/// Returns the record that names the columns of the other ones.
pub fn header_of(alloc: Global, layout: &Layout<'_>) -> Result<Vec<u8>, AllocError>
    ensures { IfOk result (λ text. text.items ≡ header_record (layout_value layout.now)) }
{
    let mut values = Vec::new(alloc);
    add_keys(&mut values, layout.before)?;
    add_names(&mut values, layout.columns())?;
    add_keys(&mut values, layout.after)?;
    let mut text = Vec::new(alloc);
    append_record(alloc, &mut text, &values)?;
    Ok(text)
}

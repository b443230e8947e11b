//! Writes the values of several keys as one text, by which they are counted together.
ghost use Rattle.std.specs.Prelude.{◌≡◌, ◌++◌, IfOk, OnOk, flat_map, map, option_map, string_bytes};
ghost use Rattle.grok.specs.Answers.{value_of};
ghost use Rattle.grok.specs.BorrowedMatches.{borrowed_keys, borrowed_captures};
ghost use Rattle.groklog_answers.specs.Objects.{member_tokens, object_text};
ghost use Rattle.groklog_answers.specs.PlanViews.{names_of};
ghost use Rattle.groklog_answers.specs.ValueLists.{key_value, pairs_text, values_by, string_member, list_object, list_record, list_text};

use crate::layout::OutputFormat;
use crate::record::append_record;
use grok::MatchesRef;
use json::Writer;
use std::alloc::{AllocError, Global};

/// A key and its value in a match.
#[derive(Clone, Copy)]
pub struct KeyValue<'v> {
    pub key: &'v str,
    pub value: &'v str,
}

/// Returns these keys with their values in a match, or `None` if one of them has no value there.
#[tactic(auto, using(crate::proofs::ValuesOfKeys::one_more_value, crate::proofs::ValuesOfKeys::no_value_of_key))]
pub fn pairs_of_keys<'m>(
    alloc: Global,
    matches: MatchesRef<'m>,
    keys: &[&'m str],
) -> Result<Option<Vec<KeyValue<'m>>>, AllocError>
    ensures { IfOk result (λ pairs. option_map pairs_text pairs
        ≡ values_by (value_of (borrowed_keys matches.entry) (borrowed_captures matches.entry)) (names_of keys.now)) }
{
    let mut pairs = Vec::new(alloc);
    'keys: for key in keys {
        let key = *key;
        let Some(value) = matches.get(key) else {
            return Ok(None);
        };
        pairs.push(KeyValue { key, value })?;
    }
    Ok(Some(pairs))
}

fn write_member(writer: &mut Writer, pair: KeyValue<'_>) -> Result<(), AllocError>
    ensures member { OnOk result (writer.new.tokens ≡ writer.old.tokens
        ++ member_tokens (string_member (key_value pair.entry))) }
    ensures before { writer.new.before ≡ writer.old.before }
{
    writer.key(pair.key)?;
    writer.string(pair.value)
}

fn write_members(writer: &mut Writer, pairs: &[KeyValue<'_>]) -> Result<(), AllocError>
    ensures members { OnOk result (writer.new.tokens ≡ writer.old.tokens
        ++ flat_map member_tokens (map string_member (map key_value pairs.now))) }
    ensures before { writer.new.before ≡ writer.old.before }
{
    'pairs: for pair in pairs {
        write_member(writer, *pair)?;
    }
    Ok(())
}

#[tactic(auto, using(crate::proofs::TokensOfMembers::object_is))]
fn object_of(alloc: Global, pairs: &[KeyValue<'_>]) -> Result<Vec<u8>, AllocError>
    ensures { IfOk result (λ text. text.items ≡ list_object (map key_value pairs.now)) }
{
    let mut writer = Writer::new(Vec::new(alloc));
    writer.begin_object()?;
    write_members(&mut writer, pairs)?;
    writer.end_object()?;
    Ok(writer.into_inner())
}

fn values_of<'v>(alloc: Global, pairs: &[KeyValue<'v>]) -> Result<Vec<&'v [u8]>, AllocError>
    ensures { IfOk result (λ values. map (λ value. value.now) values.items
        ≡ map (λ pair. pair.1) (map key_value pairs.now)) }
{
    let mut values = Vec::new(alloc);
    'pairs: for pair in pairs {
        values.push(pair.value.as_bytes())?;
    }
    Ok(values)
}

fn record_of(alloc: Global, pairs: &[KeyValue<'_>]) -> Result<Vec<u8>, AllocError>
    ensures { IfOk result (λ text. text.items ≡ list_record (map key_value pairs.now)) }
{
    let values = values_of(alloc, pairs)?;
    let mut text = Vec::new(alloc);
    append_record(alloc, &mut text, &values)?;
    let end = text.len().saturating_sub(1);
    text.truncate(end);
    Ok(text)
}

fn bytes_of(
    alloc: Global,
    format: OutputFormat,
    pairs: &[KeyValue<'_>],
) -> Result<Vec<u8>, AllocError>
    ensures { IfOk result (λ text. text.items ≡ list_text format (map key_value pairs.now)) }
{
    match format {
        OutputFormat::Csv => record_of(alloc, pairs),
        OutputFormat::Json | OutputFormat::Pairs => object_of(alloc, pairs),
    }
}

/// Returns the text that stands for the values of several keys: a JSON object, or a record of
/// comma-separated values without its line feed.
pub fn list_text(
    alloc: Global,
    format: OutputFormat,
    pairs: &[KeyValue<'_>],
) -> Result<String, AllocError>
    ensures { IfOk result (λ text. string_bytes text ≡ list_text format (map key_value pairs.now)) }
{
    match String::from_utf8(bytes_of(alloc, format, pairs)?) {
        Ok(text) => Ok(text),
        // own error: keys and values are UTF-8, and so is what is written of them.
        Err(_) => Err(AllocError),
    }
}

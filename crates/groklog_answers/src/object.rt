//! Writes the JSON object of a line.
ghost use Rattle.std.specs.Prelude.{◌≡◌, ◌++◌, [], ◌∷◌, OnOk, IfOk, flat_map, map, None, true};
ghost use Rattle.json.specs.Json.{Json, string};
ghost use Rattle.json.specs.Tree.{json_tokens};
ghost use Rattle.grok.specs.Numeral.{numeral};
ghost use Rattle.groklog_answers.specs.Layouts.{added_pair};
ghost use Rattle.groklog_answers.specs.Objects.{member_tokens, field_members, added_members, failure_tag, fields_by, fields_of, answer_members, object_text};
ghost use Rattle.groklog_answers.specs.Views.{found_layout, found_text, answered_text};

use crate::answered_line::AnsweredLine;
use crate::found::Found;
use crate::layout::{Added, Addition};
use crate::planned::write_planned;
use json::Writer;
use std::alloc::{AllocError, Global};

#[tactic(auto, using(crate::proofs::NumeralsAreJson::numeral_is_decimal))]
fn write_decimal(writer: &mut Writer, number: u64) -> Result<(), AllocError>
    ensures value { OnOk result (writer.new.tokens ≡ writer.old.tokens
        ++ json_tokens (Json.number (numeral number))) }
    ensures before { writer.new.before ≡ writer.old.before }
{
    writer.u64(number)
}

pub(crate) fn write_string(writer: &mut Writer, key: &str, text: &str) -> Result<(), AllocError>
    ensures member { OnOk result (writer.new.tokens ≡ writer.old.tokens
        ++ flat_map member_tokens ((key.now, string text.now) ∷ [])) }
    ensures before { writer.new.before ≡ writer.old.before }
{
    writer.key(key)?;
    writer.string(text)
}

pub(crate) fn write_number(writer: &mut Writer, key: &str, number: u64) -> Result<(), AllocError>
    ensures member { OnOk result (writer.new.tokens ≡ writer.old.tokens
        ++ flat_map member_tokens ((key.now, Json.number (numeral number)) ∷ [])) }
    ensures before { writer.new.before ≡ writer.old.before }
{
    writer.key(key)?;
    write_decimal(writer, number)
}

/// Writes nothing if the line doesn't have what is added.
fn write_added(
    writer: &mut Writer,
    line: &AnsweredLine<'_>,
    added: &Added<'_>,
) -> Result<(), AllocError>
    ensures member { OnOk result (writer.new.tokens ≡ writer.old.tokens
        ++ flat_map member_tokens (added_members (answered_text line.now) (added_pair added.now))) }
    ensures before { writer.new.before ≡ writer.old.before }
{
    let Some(text) = line.added(added.what) else {
        return Ok(());
    };
    match added.what {
        Addition::Number => write_number(writer, added.key, line.line.number),
        Addition::File | Addition::Failed | Addition::Tag | Addition::Line => {
            write_string(writer, added.key, text)
        }
    }
}

#[tactic(auto, using(crate::proofs::TokensOfMembers::tokens_append))]
fn write_additions(
    writer: &mut Writer,
    line: &AnsweredLine<'_>,
    additions: &[Added<'_>],
) -> Result<(), AllocError>
    ensures members { OnOk result (writer.new.tokens ≡ writer.old.tokens ++ flat_map member_tokens
        (flat_map (added_members (answered_text line.now)) (map added_pair additions.now))) }
    ensures before { writer.new.before ≡ writer.old.before }
{
    'additions: for added in additions {
        write_added(writer, line, added)?;
    }
    Ok(())
}

fn write_pair(
    alloc: Global,
    writer: &mut Writer,
    found: &Found<'_>,
    key: &str,
    value: &str,
) -> Result<(), AllocError>
    ensures member { OnOk result (writer.new.tokens ≡ writer.old.tokens ++ flat_map member_tokens
        (field_members (found_layout found.now) (found_text found.now).extracts (key.now, value.now))) }
    ensures before { writer.new.before ≡ writer.old.before }
{
    if !found.layout.chooses(key) || (found.layout.drops_empty && value.is_empty()) {
        return Ok(());
    }
    writer.key(key)?;
    found.write_value(alloc, writer, key, value)
}

#[tactic(auto, using(crate::proofs::TokensOfMembers::tokens_append))]
fn write_pairs(alloc: Global, writer: &mut Writer, found: &Found<'_>) -> Result<(), AllocError>
    ensures members { OnOk result (writer.new.tokens ≡ writer.old.tokens
        ++ flat_map member_tokens (fields_by (found_layout found.now) (found_text found.now) None)) }
    ensures before { writer.new.before ≡ writer.old.before }
{
    'pairs: for (key, value) in found.matches.iter() {
        write_pair(alloc, writer, found, key, value)?;
    }
    Ok(())
}

fn write_found(alloc: Global, writer: &mut Writer, found: &Found<'_>) -> Result<(), AllocError>
    ensures members { OnOk result (writer.new.tokens ≡ writer.old.tokens ++ flat_map member_tokens
        (fields_by (found_layout found.now) (found_text found.now) (found_text found.now).plan)) }
    ensures before { writer.new.before ≡ writer.old.before }
{
    match found.named.plan {
        None => write_pairs(alloc, writer, found),
        Some(plan) => write_planned(alloc, writer, found, &plan.fields),
    }
}

#[tactic(auto, using(crate::proofs::TokensOfMembers::four_tokens))]
fn write_tag_of_failure(writer: &mut Writer) -> Result<(), AllocError>
    ensures member { OnOk result (writer.new.tokens ≡ writer.old.tokens
        ++ flat_map member_tokens (failure_tag true)) }
    ensures before { writer.new.before ≡ writer.old.before }
{
    writer.key("tags")?;
    writer.begin_array()?;
    writer.string("_grokparsefailure")?;
    writer.end_array()
}

fn write_failure_tag(writer: &mut Writer, tags_failures: bool) -> Result<(), AllocError>
    ensures member { OnOk result (writer.new.tokens ≡ writer.old.tokens
        ++ flat_map member_tokens (failure_tag tags_failures)) }
    ensures before { writer.new.before ≡ writer.old.before }
{
    if tags_failures {
        write_tag_of_failure(writer)
    } else {
        Ok(())
    }
}

fn write_fields(
    alloc: Global,
    writer: &mut Writer,
    line: &AnsweredLine<'_>,
) -> Result<(), AllocError>
    ensures members { OnOk result (writer.new.tokens ≡ writer.old.tokens ++ flat_map member_tokens
        (fields_of (answered_text line.now).layout (answered_text line.now).found)) }
    ensures before { writer.new.before ≡ writer.old.before }
{
    match &line.found {
        Ok(found) => {
            let found = Found {
                layout: line.layout,
                named: found.named,
                matches: found.matches,
            };
            write_found(alloc, writer, &found)
        }
        Err(_) => write_failure_tag(writer, line.layout.tags_failures),
    }
}

/// Appends the compact JSON object of a line, and returns the whole text.
#[tactic(auto, using(crate::proofs::TokensOfMembers::object_in_three_parts))]
pub fn write_answer(
    alloc: Global,
    text: Vec<u8>,
    line: &AnsweredLine<'_>,
) -> Result<Vec<u8>, AllocError>
    ensures { IfOk result (λ written. written.items
        ≡ text.items ++ object_text (answer_members (answered_text line.now))) }
{
    let mut writer = Writer::new(text);
    writer.begin_object()?;
    write_additions(&mut writer, line, line.layout.before)?;
    write_fields(alloc, &mut writer, line)?;
    write_additions(&mut writer, line, line.layout.after)?;
    writer.end_object()?;
    Ok(writer.into_inner())
}

//! Writes the value of a key in a JSON object.
ghost use Rattle.std.specs.Prelude.{◌≡◌, ◌++◌, OnOk, IfOk, option_map, string_bytes, if◌then◌else◌};
ghost use Rattle.std.specs.List.{list_any};
ghost use Rattle.json.specs.Json.{Json, number, string};
ghost use Rattle.json.specs.Tree.{json_tokens};
ghost use Rattle.groklog_answers.specs.Values.{is_json_number, is_json_integer, begins_fraction_or_exponent, begins_with_digit, begins_with_fraction, json_sign, begins_with_number, without_plus, without_sign, without_zeros, zero_if, parts_at_point, with_fraction, with_both_sides, number_form, asks_for_numbers, is_written_as_number, json_value};

use json::{Writer, is_number};
use std::alloc::{AllocError, Global};

#[tactic(auto, using(crate::proofs::NumbersAreJson::number_is_decided))]
fn is_json_number(text: &str) -> bool
    ensures { result ≡ is_json_number text.now }
{
    is_number(text)
}

fn has_fraction_or_exponent(text: &str) -> bool
    ensures { result ≡ list_any begins_fraction_or_exponent text.now }
{
    text.as_bytes()
        .iter()
        .any(|b| *b == b'.' || *b == b'e' || *b == b'E')
}

fn is_json_integer(text: &str) -> bool
    ensures { result ≡ is_json_integer text.now }
{
    is_json_number(text) && !has_fraction_or_exponent(text)
}

fn begins_with_digit(text: &str) -> bool
    ensures { result ≡ begins_with_digit text.now }
{
    match text.as_bytes() {
        [first, ..] => first.is_ascii_digit(),
        [] => false,
    }
}

fn begins_with_fraction(text: &str) -> bool
    ensures { result ≡ begins_with_fraction text.now }
{
    match text.strip_prefix('.') {
        Some(rest) => begins_with_digit(rest),
        None => false,
    }
}

fn begins_with_number(text: &str) -> bool
    ensures { result ≡ begins_with_number text.now }
{
    begins_with_digit(text) || begins_with_fraction(text)
}

fn without_plus(text: &str) -> &str
    ensures { result.now ≡ without_plus text.now }
{
    let Some(rest) = text.strip_prefix('+') else {
        return text;
    };
    if begins_with_number(rest) { rest } else { text }
}

fn split_sign(text: &str) -> (&'static str, &str)
    ensures sign { result.0.now ≡ json_sign text.now }
    ensures rest { result.1.now ≡ without_sign text.now }
{
    match text.strip_prefix('-') {
        Some(rest) => ("-", rest),
        None => ("", without_plus(text)),
    }
}

fn without_zeros(text: &str) -> &str
    ensures { result.now ≡ without_zeros text.now }
{
    let mut rest = text;
    'zeros: loop {
        let Some(after) = rest.strip_prefix('0') else {
            return rest;
        };
        if !begins_with_digit(after) {
            return rest;
        }
        rest = after;
    }
}

fn zero_if(is_missing: bool) -> &'static str
    ensures { result.now ≡ zero_if is_missing }
{
    if is_missing { "0" } else { "" }
}

fn parts_at_point(text: &str) -> Option<(&str, &str)>
    ensures { option_map (λ parts. (parts.0.now, parts.1.now)) result ≡ parts_at_point text.now }
{
    text.split_once('.')
}

/// Returns a text with a digit after its first point: `5.0e1` for `5.e1`.
fn with_fraction(alloc: Global, text: &str) -> Result<String, AllocError>
    ensures { IfOk result (λ form. string_bytes form ≡ with_fraction text.now) }
{
    let Some((whole, fraction)) = parts_at_point(text) else {
        return String::from_str(alloc, text);
    };
    let mut form = String::from_str(alloc, whole)?;
    form.push_str(".")?;
    form.push_str(zero_if(!begins_with_digit(fraction)))?;
    form.push_str(fraction)?;
    Ok(form)
}

fn other_form(alloc: Global, text: &str) -> Result<String, AllocError>
    ensures { IfOk result (λ form. string_bytes form
        ≡ json_sign text.now ++ with_both_sides (without_zeros (without_sign text.now))) }
{
    let (sign, unsigned) = split_sign(text);
    let digits = without_zeros(unsigned);
    let mut form = String::from_str(alloc, sign)?;
    form.push_str(zero_if(begins_with_fraction(digits)))?;
    let number = with_fraction(alloc, digits)?;
    form.push_str(number.as_str())?;
    Ok(form)
}

/// Returns whether an extract asks for values that are written as numbers where they are numbers: `int`
/// and `float` do.
pub fn asks_for_numbers(extract: &str) -> bool
    ensures { result ≡ asks_for_numbers extract.now }
{
    extract == "int" || extract == "float"
}

fn is_written_as_number(extract: &str, form: &str) -> bool
    ensures { result ≡ is_written_as_number (Some extract.now) form.now }
{
    (extract == "int" && is_json_integer(form)) || (extract == "float" && is_json_number(form))
}

#[tactic(auto, using(crate::proofs::NumbersAreJson::is_number, crate::proofs::NumbersAreJson::written_is_number))]
fn write_form(writer: &mut Writer, extract: &str, form: &str, text: &str) -> Result<(), AllocError>
    ensures value { OnOk result (writer.new.tokens ≡ writer.old.tokens
        ++ json_tokens (if is_written_as_number (Some extract.now) form.now then number form.now else string text.now)) }
    ensures before { writer.new.before ≡ writer.old.before }
{
    if is_written_as_number(extract, form) {
        writer.number(form)
    } else {
        writer.string(text)
    }
}

/// Writes a value: as a number in the form of JSON if the extract asks for one and the value is one,
/// and otherwise as a string.
pub fn write_value(
    alloc: Global,
    writer: &mut Writer,
    extract: Option<&str>,
    value: &str,
) -> Result<(), AllocError>
    ensures value { OnOk result (writer.new.tokens ≡ writer.old.tokens
        ++ json_tokens (json_value (option_map (λ extract. extract.now) extract.entry) value.now)) }
    ensures before { writer.new.before ≡ writer.old.before }
{
    let Some(extract) = extract else {
        return writer.string(value);
    };
    if is_json_number(value) {
        return write_form(writer, extract, value, value);
    }
    let form = other_form(alloc, value)?;
    write_form(writer, extract, form.as_str(), value)
}

//! Reads a placeholder such as `%{name}`, and finds out why one is malformed.
ghost use Rattle.std.specs.Prelude.{◌≡◌, drop, IfErr};
ghost use Rattle.std.specs.List.{prefix_len, position_or_len, take_while, before_first};
ghost use Rattle.grok_parser.specs.Views.{word_view, inside_view};
ghost use Rattle.grok_parser.specs.Pieces.{word_at, definition_at, close_at, extract_at, alias_at, placeholder_at, is_name_byte, is_alias_byte, is_word_byte, is_terminator, is_brace};
ghost use Rattle.grok_parser.specs.Grammar.{NameWord, AliasWord, ExtractWord, WordKind, is_legal};
ghost use Rattle.grok_parser.specs.Malformations.{fault_of, HasMalformedAt, IsWordMalformed, IsDefinitionMalformed, IsMalformedFrom, IsMalformedAt};
ghost use Rattle.grok_parser.specs.steps.Readings.{IsReadingOf, IsDefinitionUnread};

use crate::malformed::{GrokPatternError, Malformation, MalformedReason};

/// A word of a placeholder, the character that ends it, and the text after that.
#[derive(Clone, Copy)]
struct Word<'a> {
    word: &'a str,
    terminator: char,
    rest: &'a str,
}

/// The parts of a placeholder.
#[derive(Clone, Copy)]
pub struct Parts<'a> {
    pub name: &'a str,
    pub alias: &'a str,
    pub extract: &'a str,
    pub definition: &'a str,
}

/// The parts of a placeholder, and the text after it.
#[derive(Clone, Copy)]
pub(crate) struct Inside<'a> {
    pub parts: Parts<'a>,
    pub rest: &'a str,
}

pub(crate) fn is_name_byte(b: u8) -> bool
    ensures { result ≡ is_name_byte b }
{
    b.is_ascii_alphanumeric() || b == b'_'
}

fn is_alias_byte(b: u8) -> bool
    ensures { result ≡ is_alias_byte b }
{
    is_name_byte(b) || b == b'-' || b == b'[' || b == b']' || b == b'.'
}

fn is_word_byte(is_name: bool, b: u8) -> bool
    ensures { result ≡ is_word_byte is_name b }
{
    if is_name {
        is_name_byte(b)
    } else {
        is_alias_byte(b)
    }
}

fn word_len(text: &[u8], is_name: bool) -> usize
    ensures { result ≡ prefix_len (is_word_byte is_name) text.now }
{
    text.iter()
        .take_while(|b| is_word_byte(is_name, **b))
        .count()
}

fn brace_or_len(text: &[u8]) -> usize
    ensures { result ≡ position_or_len is_brace text.now }
{
    text.iter()
        .take_while(|b| **b != b'{' && **b != b'}')
        .count()
}

#[tactic(auto, using(crate::proofs::RunsEndAtBoundaries::boundaries))]
pub(crate) fn split_word<'a>(text: &'a str, is_name: bool) -> (&'a str, &'a str)
    ensures word { result.0.now ≡ take_while (is_word_byte is_name) text.now }
    ensures rest { result.1.now ≡ drop (prefix_len (is_word_byte is_name) text.now) text.now }
{
    text.split_at(word_len(text.as_bytes(), is_name))
}

fn is_terminator(c: char) -> bool
    ensures { result ≡ is_terminator c }
{
    c == '}' || c == '=' || c == ':'
}

#[tactic(auto, using(crate::proofs::WordEndsDecideFaults::word_ends), unfolding(crate::specs::Pieces::word_at))]
fn read_word<'a>(text: &'a str, is_name: bool) -> Result<Word<'a>, Malformation<'a>>
    ensures reading { IsReadingOf word_view result (word_at (is_word_byte is_name) text.now) }
    ensures malformed { IfErr result (λ found. (kind : WordKind) → is_legal kind ≡ is_word_byte is_name
        → IsWordMalformed kind text.now found.reason found.rest.now) }
{
    let (word, rest) = split_word(text, is_name);
    let mut characters = rest.chars();
    let Some(terminator) = characters.next() else {
        return Err(Malformation {
            reason: MalformedReason::Unclosed,
            rest,
        });
    };
    if !is_terminator(terminator) {
        return Err(Malformation {
            reason: MalformedReason::InvalidCharacter(terminator),
            rest,
        });
    }
    Ok(Word {
        word,
        terminator,
        rest: characters.as_str(),
    })
}

#[tactic(auto, using(crate::proofs::RunsEndAtBoundaries::boundaries))]
fn split_brace<'a>(text: &'a str) -> (&'a str, &'a str)
    ensures front { result.0.now ≡ before_first is_brace text.now }
    ensures rest { result.1.now ≡ drop (position_or_len is_brace text.now) text.now }
{
    text.split_at(brace_or_len(text.as_bytes()))
}

#[tactic(auto, using(crate::proofs::WordEndsDecideFaults::definition_ends), unfolding(crate::specs::Pieces::definition_at))]
fn read_definition<'a>(text: &'a str) -> Result<(&'a str, &'a str), Malformation<'a>>
    ensures reading { IsReadingOf (λ d. (d.0.now, d.1.now)) result (definition_at text.now) }
    ensures malformed { IfErr result (λ found. IsDefinitionMalformed text.now found.reason found.rest.now) }
{
    let (definition, rest) = split_brace(text);
    if rest.is_empty() {
        return Err(Malformation {
            reason: MalformedReason::UnclosedDefinition,
            rest,
        });
    }
    let Some(after) = rest.strip_prefix('}') else {
        return Err(Malformation {
            reason: MalformedReason::BraceInDefinition,
            rest,
        });
    };
    if definition.is_empty() {
        return Err(Malformation {
            reason: MalformedReason::NoDefinition,
            rest,
        });
    }
    Ok((definition, after))
}

#[tactic(auto, unfolding(crate::specs::Pieces::close_at))]
fn read_close<'a>(
    name: &'a str,
    alias: &'a str,
    extract: &'a str,
    last: Word<'a>,
) -> Result<Inside<'a>, Malformation<'a>>
    ensures reading { IsReadingOf inside_view result
        (close_at name.now alias.now extract.now last.entry.terminator last.entry.rest.now) }
    ensures malformed { IfErr result (λ found.
        IsDefinitionUnread last.entry found.reason found.rest.now) }
{
    let (definition, rest) = if last.terminator == '}' {
        ("", last.rest)
    } else {
        read_definition(last.rest)?
    };
    Ok(Inside {
        parts: Parts {
            name,
            alias,
            extract,
            definition,
        },
        rest,
    })
}

#[tactic(auto, unfolding(crate::specs::Pieces::extract_at))]
fn read_extract<'a>(
    name: &'a str,
    alias: &'a str,
    text: &'a str,
) -> Result<Inside<'a>, Malformation<'a>>
    ensures reading { IsReadingOf inside_view result (extract_at name.now alias.now text.now) }
    ensures malformed { IfErr result (λ found. IsMalformedFrom ExtractWord text.now found.reason found.rest.now) }
{
    let extract = read_word(text, false)?;
    if extract.word.is_empty() {
        return Err(Malformation {
            reason: MalformedReason::NoExtract,
            rest: text,
        });
    }
    if extract.terminator == ':' {
        read_word(extract.rest, false)?;
        return Err(Malformation {
            reason: MalformedReason::FourthWord,
            rest: extract.rest,
        });
    }
    read_close(name, alias, extract.word, extract)
}

#[tactic(auto, unfolding(crate::specs::Pieces::alias_at))]
fn read_alias<'a>(name: &'a str, text: &'a str) -> Result<Inside<'a>, Malformation<'a>>
    ensures reading { IsReadingOf inside_view result (alias_at name.now text.now) }
    ensures malformed { IfErr result (λ found. IsMalformedFrom AliasWord text.now found.reason found.rest.now) }
{
    let alias = read_word(text, false)?;
    if alias.terminator == ':' {
        return read_extract(name, alias.word, alias.rest);
    }
    if alias.word.is_empty() {
        return Err(Malformation {
            reason: MalformedReason::NoAlias,
            rest: text,
        });
    }
    read_close(name, alias.word, "", alias)
}

#[tactic(auto, unfolding(crate::specs::Pieces::placeholder_at))]
pub(crate) fn read_placeholder<'a>(text: &'a str) -> Result<Inside<'a>, Malformation<'a>>
    ensures reading { IsReadingOf inside_view result (placeholder_at text.now) }
    ensures malformed { IfErr result (λ found. IsMalformedFrom NameWord text.now found.reason found.rest.now) }
{
    let name = read_word(text, true)?;
    if name.word.is_empty() {
        return Err(Malformation {
            reason: MalformedReason::NoName,
            rest: text,
        });
    }
    if name.terminator == ':' {
        return read_alias(name.word, name.rest);
    }
    read_close(name.word, "", "", name)
}

/// Returns why the placeholder is malformed that begins at the byte `from` of the text, and the byte
/// from which on it is malformed.
pub fn malformation_at(text: &str, from: usize) -> (MalformedReason, usize)
    requires { (fault : GrokPatternError) × HasMalformedAt text.now from fault }
    ensures malformed { IsMalformedAt text.now from result.0 result.1 }
    ensures fault { (fault : GrokPatternError) → HasMalformedAt text.now from fault → fault_of result.0 ≡ fault }
{
    match read_placeholder(&text[from + 2..]) {
        Ok(_) => unreachable!(),
        Err(found) => (found.reason, text.len() - found.rest.len()),
    }
}

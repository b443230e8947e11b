//! The patterns of a run, as they are compiled, and the words by which reports refer to them.
ghost use Rattle.std.specs.Prelude.{◌≡◌, IfOk, map, string_bytes, true};
ghost use Rattle.groklog_definitions.specs.Texts.{ordinal_text, pattern_texts};

use std::alloc::{AllocError, Global};

/// A pattern of the command line.
#[derive(Drop)]
pub struct PatternText {
    /// The text that is compiled.
    pub text: String,
    /// The words by which reports refer to it: `the pattern`, or `the 2nd pattern` if there are
    /// several.
    pub words: String,
    /// Whether only placeholders with an alias capture.
    pub with_alias_only: bool,
}

/// Returns an ordinal number in digits, such as `2nd`.
pub fn ordinal(alloc: Global, number: usize) -> Result<String, AllocError>
    ensures { IfOk result (λ text. string_bytes text ≡ ordinal_text number) }
{
    let ending = match (number % 100, number % 10) {
        (11..=13, _) => "th",
        (_, 1) => "st",
        (_, 2) => "nd",
        (_, 3) => "rd",
        _ => "th",
    };
    format!(in alloc; "{number}{ending}")
}

/// Returns the words by which reports refer to the pattern with this number, counted from 1, of
/// `count` patterns.
pub fn words_for(alloc: Global, number: usize, count: usize) -> Result<String, AllocError> {
    if count == 1 {
        return String::from_str(alloc, "the pattern");
    }
    let nth = ordinal(alloc, number)?;
    format!(in alloc; "the {nth} pattern")
}

/// The words by which reports refer to the pattern of `--start`.
const START_WORDS: &str = "the pattern of --start";

/// Returns the pattern of `--start`, which has this text.
pub fn start_pattern(alloc: Global, text: &str) -> Result<PatternText, AllocError>
    ensures text { IfOk result (λ pattern. string_bytes pattern.text ≡ text.now) }
    ensures mode { IfOk result (λ pattern. pattern.with_alias_only ≡ true) }
{
    Ok(PatternText {
        text: String::from_str(alloc, text)?,
        words: String::from_str(alloc, START_WORDS)?,
        with_alias_only: true,
    })
}

/// Returns the patterns with these texts, in this mode.
pub fn patterns_of(
    alloc: Global,
    texts: &[&str],
    with_alias_only: bool,
) -> Result<Vec<PatternText>, AllocError>
    ensures { IfOk result (λ patterns. pattern_texts patterns.items ≡ map (λ text. (text.now, with_alias_only)) texts.now) }
{
    let mut patterns = Vec::new(alloc);
    'texts: for (index, text) in texts.iter().enumerate() {
        let words = words_for(alloc, index.saturating_add(1), texts.len())?;
        let text = String::from_str(alloc, text)?;
        patterns.push(PatternText {
            text,
            words,
            with_alias_only,
        })?;
    }
    Ok(patterns)
}

//! Reads a definition as users write it, in a line of a file or in a word after `-D`.
ghost use Rattle.std.specs.Prelude.{◌≡◌, drop, option_map};
ghost use Rattle.std.specs.List.{prefix_len};
ghost use Rattle.grok_parser.specs.Ascii.{equals_sign};
ghost use Rattle.grok.specs.Maps.{pair_texts};
ghost use Rattle.groklog_definitions.specs.DefinitionTexts.{is_blank, without_blanks, begins_with, definition_after_blanks, definition_after, definition_of, is_spaced, name_of_spaced};

use grok::parser::split_name;

fn is_blank(b: u8) -> bool
    ensures { result ≡ is_blank b }
{
    b == b' ' || b == b'\t'
}

fn blanks_len(text: &[u8]) -> usize
    ensures { result ≡ prefix_len is_blank text.now }
{
    text.iter().take_while(|b| is_blank(**b)).count()
}

/// Returns the text without its leading blanks, which are spaces and tabs.
#[tactic(auto, using(crate::proofs::BlanksEndAtBoundaries::run_ends))]
pub fn skip_blanks(text: &str) -> &str
    ensures { result.now ≡ without_blanks text.now }
{
    let (_, rest) = text.split_at(blanks_len(text.as_bytes()));
    rest
}

fn begins_with_equals(text: &str) -> bool
    ensures { result ≡ begins_with equals_sign text.now }
{
    text.starts_with('=')
}

fn definition_after_blanks(text: &str) -> Option<&str>
    ensures { option_map (λ definition. definition.now) result ≡ definition_after_blanks text.now }
{
    let definition = skip_blanks(text);
    if begins_with_equals(definition) {
        None
    } else {
        Some(definition)
    }
}

#[tactic(auto, using(crate::proofs::FirstCharacterDecides::texts_after_names))]
fn definition_after(text: &str) -> Option<&str>
    ensures { option_map (λ definition. definition.now) result ≡ definition_after text.now }
{
    let mut characters = text.chars();
    match characters.next()? {
        '=' => Some(characters.as_str()),
        ' ' | '\t' => definition_after_blanks(characters.as_str()),
        _ => None,
    }
}

/// Reads a definition of the form `NAME=DEF` or `NAME DEF`, and returns its name and its text.
/// Returns `None` if the text doesn't have this form. `NAME = DEF` isn't a definition: whoever
/// writes that hardly means one that begins with `=`.
pub fn read_definition(text: &str) -> Option<(&str, &str)>
    ensures { option_map pair_texts result ≡ definition_of text.now }
{
    let (name, rest) = split_name(text);
    if name.is_empty() {
        return None;
    }
    let definition = definition_after(rest)?;
    Some((name, definition))
}

fn is_spaced(text: &str) -> bool
    ensures { result ≡ is_spaced text.now }
{
    !begins_with_equals(text) && begins_with_equals(skip_blanks(text))
}

/// Returns the name in a text such as `NAME = DEF`, in which blanks come between the name and `=`.
/// Returns `None` if the text has another form.
pub fn name_of_spaced(text: &str) -> Option<&str>
    ensures { option_map (λ name. name.now) result ≡ name_of_spaced text.now }
{
    let (name, rest) = split_name(text);
    if !name.is_empty() && is_spaced(rest) {
        Some(name)
    } else {
        None
    }
}

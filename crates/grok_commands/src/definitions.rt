//! The definitions of a command line.
ghost use Rattle.std.specs.Prelude.{◌≡◌, true, IfOk};
ghost use Rattle.std.specs.List.{list_all};
ghost use Rattle.grok_commands.specs.Commands.{texts, has_equals, cut_word, definitions_of};
ghost use Rattle.grok_commands.specs.Library.{library_of};

use grok::Grok;
use std::alloc::{AllocError, Global};
use std::marker::Model;

/// Words of the form `NAME=DEF`: each of them has a `=`.
#[derive(Drop)]
pub struct Definitions<'a> {
    words: &'a [&'a str],
}

impl<'a> Model for Definitions<'a> {
    ghost use Rattle.std.specs.Prelude.{◌≡◌, ℕ, List, true};
    ghost use Rattle.std.specs.List.{list_all};
    ghost use Rattle.grok_commands.specs.Commands.{texts, has_equals, cut_words};

    ghost Value = { List (List ℕ × List ℕ) };

    ghost view = { λ d. cut_words (texts d.words.now) };

    ghost invariant = { λ d. list_all has_equals (texts d.words.now) ≡ true };
}

fn has_equals(word: &str) -> bool
    ensures { result ≡ has_equals word.now }
{
    word.as_bytes().iter().any(|b| *b == b'=')
}

fn each_has_equals(words: &[&str]) -> bool
    ensures { result ≡ list_all (λ word. has_equals word.now) words.now }
{
    words.iter().all(|word| has_equals(word))
}

fn cut<'a>(word: &'a str) -> (&'a str, &'a str)
    requires { has_equals word.now ≡ true }
    ensures { (result.0.now, result.1.now) ≡ cut_word word.now }
{
    word.split_once('=').unwrap()
}

impl<'a> Definitions<'a> {
    /// Takes the words as definitions, or returns `None` if one of them has no `=`.
    pub fn new(words: &'a [&'a str]) -> Option<Definitions<'a>>
        ensures { result ≡ definitions_of (texts words.now) }
    {
        if each_has_equals(words) {
            Some(Definitions { words })
        } else {
            None
        }
    }

    /// Returns a `Grok` with the default definitions, and then those of the words. A later
    /// definition of a name replaces an earlier one.
    pub fn library(&self, alloc: Global) -> Result<Grok, AllocError>
        ensures { IfOk result (λ grok. grok ≡ library_of self.now) }
    {
        let mut grok = Grok::with_default_patterns(alloc)?;
        let words = self.words;
        'words: for word in words {
            let (name, text) = cut(word);
            grok.add_pattern(name, text)?;
        }
        Ok(grok)
    }
}

//! An engine that reads only the names of the groups of a text.
ghost use Rattle.std.specs.Prelude.{◌≡◌, length, vec_len, map, string_bytes, option_map, IfOk, IfSome, OnOk};
ghost use Rattle.std.specs.List.{range_with_len};
ghost use Rattle.std.specs.Option.{ForSome};
ghost use Rattle.grok.specs.Captures.{name_texts, text_of, IsSliceOf};
ghost use Rattle.grok.specs.Locations.{IsLocationIn, AreLocationsIn, located_text, located_texts};
ghost use Rattle.grok_engines.specs.Wholes.{line_at, whole_at_odd};

use grok::{Engine, EngineMatcher, HasMatcher, Refusal};
use std::alloc::{AllocError, Global};

/// An engine that accepts every text. Its groups are named by what is between `(?<` and `>`, from left to right. It
/// matches each line: group 0 and each odd group capture the whole line, and the other groups capture nothing.
#[derive(Drop)]
pub struct Heads {
    text: String,
    names: Vec<Option<String>>,
}

impl Engine for Heads {
    ghost source_of = { λ engine. string_bytes engine.text };

    ghost group_names = { λ engine. name_texts engine.names.items };

    ghost finds = { λ engine. whole_at_odd (length engine.names.items) };

    ghost may_refuse = { λ _. ⊥ };

    fn build(alloc: Global, text: &str) -> Result<Heads, Refusal> {
        match read_heads(alloc, text) {
            Ok(engine) => Ok(engine),
            Err(_) => Err(Refusal::Memory),
        }
    }

    fn text(&self) -> &str {
        self.text.as_str()
    }

    fn names(&self) -> &[Option<String>] {
        self.names.as_slice()
    }

    fn captures<'t>(
        &self,
        alloc: Global,
        line: &'t str,
    ) -> Result<Option<Vec<Option<&'t str>>>, AllocError> {
        let mut captures = Vec::with_capacity(alloc, self.names.len())?;
        'all_groups: for group in 0..self.names.len() {
            let capture = whole_at(line, group);
            captures.push(capture)?;
        }
        Ok(Some(captures))
    }
}

#[tactic(auto, using(crate::proofs::WholeLines::whole))]
fn whole_at(line: &str, group: usize) -> Option<&str>
    ensures text { option_map text_of result ≡ line_at line.now group }
    ensures slice { IfSome (option_map text_of result) (IsSliceOf line.now) }
{
    if group == 0 || group % 2 == 1 {
        Some(line)
    } else {
        None
    }
}

#[tactic(auto, using(crate::proofs::WholeLines::whole_location, crate::proofs::WholeLines::whole_text))]
fn location_at(line: &str, group: usize) -> Option<(usize, usize)>
    ensures text { option_map (located_text line.now) result ≡ line_at line.now group }
    ensures inside { ForSome result (IsLocationIn line.now) }
{
    if group == 0 || group % 2 == 1 {
        Some((0, line.len()))
    } else {
        None
    }
}

fn write_locations(
    locations: &mut Vec<Option<(usize, usize)>>,
    line: &str,
    count: usize,
) -> Result<(), AllocError>
    ensures texts { OnOk result (located_texts line.now locations.new.items
        ≡ map (line_at line.now) (range_with_len 0 count)) }
    ensures count { OnOk result (vec_len locations.new ≡ count) }
    ensures inside { OnOk result (AreLocationsIn line.now locations.new.items) }
{
    locations.clear();
    'all_groups: for group in 0..count {
        locations.push(location_at(line, group))?;
    }
    Ok(())
}

/// Returns the text between the first `(?<` and the next `>`, and the text after that `>`.
fn split_head(text: &str) -> Option<(&str, &str)> {
    let (_, head) = text.split_once("(?<")?;
    split_close(head)
}

/// Returns the text before the first `>`, and the text after it.
fn split_close(head: &str) -> Option<(&str, &str)> {
    head.split_once(">")
}

fn read_heads(alloc: Global, text: &str) -> Result<Heads, AllocError>
    ensures { IfOk result (λ engine. string_bytes engine.text ≡ text.now) }
{
    let mut names = Vec::new(alloc);
    names.push(None)?;
    let mut rest = text;
    'names: for _ in 0..text.len() {
        let Some((name, tail)) = split_head(rest) else {
            break;
        };
        names.push(Some(String::from_str(alloc, name)?))?;
        rest = tail;
    }
    Ok(Heads {
        text: String::from_str(alloc, text)?,
        names,
    })
}

/// A matcher that asks its engine for each line.
#[derive(Drop)]
pub struct HeadsMatcher<'e> {
    engine: &'e Heads,
}

impl<'e> EngineMatcher for HeadsMatcher<'e> {
    ghost finds = { λ matcher. whole_at_odd (length matcher.engine.now.names.items) };

    ghost group_count = { λ matcher. length matcher.engine.now.names.items };

    fn captures_read(
        &mut self,
        locations: &mut Vec<Option<(usize, usize)>>,
        line: &str,
    ) -> Result<bool, AllocError> {
        write_locations(locations, line, self.engine.names.len())?;
        Ok(true)
    }
}

impl<'e> HasMatcher<'e> for Heads {
    type Matcher = HeadsMatcher<'e>;

    fn matcher(&'e self, _alloc: Global) -> Result<HeadsMatcher<'e>, AllocError> {
        Ok(HeadsMatcher { engine: self })
    }
}

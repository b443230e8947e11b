//! The search for one regex.
ghost use Rattle.std.specs.Prelude.{◌≡◌, ◌+◌, ◌-◌, ◌/◌, length, vec_len, string_bytes, option_map, IfOk, IfSome, OnOk, IsTrue, IsFalse, IsCharBoundary};
ghost use Rattle.regex.specs.Patterns.{find_str, span};
ghost use Rattle.regex.specs.Strings.{regex_source, regex_names};
ghost use Rattle.regex_meta.specs.Programs.{pattern_of, leftmost};
ghost use Rattle.regex_vm.specs.Found.{group_cells};
ghost use Rattle.regex_shared.specs.Texts.{texts_if, IsMatchIn, IsReadByDefault, captures_by};
ghost use Rattle.regex_shared.specs.steps.Searches.{IsTreeOf};

use crate::searcher::Searcher;
use crate::texts::write_texts;
use regex::Regex;
use regex_meta::Program;
use regex_syntax::{Config, Parsed};
use regex_vm::Declined;
use std::alloc::Global;

/// The bytes that the compiled program may take. `regex` has the same default.
const SIZE_LIMIT: usize = 10 << 20;

/// The search for one regex.
#[derive(Drop)]
pub(crate) struct RegexSearch {
    /// The text of the regex.
    source: String,
    searcher: Searcher,
    /// The cells of the groups of a match, which the next search overwrites.
    cells: Vec<usize>,
    ghost read: { ∥ IsTreeOf (string_bytes source) searcher.program.hir ∥₁ },
    ghost width: { vec_len cells ≡ searcher.program.dfa.nfa.slot_count - 2 },
}

impl RegexSearch {
    /// Returns `Declined` if the text is no regular expression, if the program would be too big, or if an
    /// allocation fails.
    pub(crate) fn build(alloc: Global, text: &str) -> Result<RegexSearch, Declined>
        ensures { IfOk result (λ search. string_bytes search.source ≡ text.now) }
    {
        let source = String::from_str(alloc, text)?;
        let program = program_of(alloc, text)?;
        let count = (program.dfa.nfa.slot_count as usize).saturating_sub(2);
        let cells = vec![in alloc; 0usize; count]?;
        let searcher = Searcher::new(alloc, program)?;
        Ok(RegexSearch {
            source,
            searcher,
            cells,
        })
    }

    /// Returns `Declined` if this is the search for another regex, if it gives up, or if an allocation
    /// fails.
    pub(crate) fn write_captures<'t>(
        &mut self,
        regex: &Regex,
        line: &'t str,
        texts: &mut Vec<Option<&'t str>>,
    ) -> Result<bool, Declined>
        requires { ∥ IsReadByDefault regex.now ∥₁ }
        ensures { IfOk result (λ is_match. IsMatchIn line.now (captures_by regex.now)
            (length (regex_names regex.now)) (texts_if is_match texts.new)) }
    {
        if !self.is_of(regex) {
            return Err(Declined);
        }
        match self.find(line)? {
            Some(whole) => {
                write_texts(line, whole, &self.cells, texts)?;
                Ok(true)
            }
            None => Ok(false),
        }
    }

    fn is_of(&self, regex: &Regex) -> bool
        ensures source { IsTrue result → string_bytes self.now.source ≡ regex_source regex.now }
        ensures groups { IsTrue result → vec_len self.now.cells / 2 + 1
            ≡ length (regex_names regex.now) }
    {
        self.cells.len() / 2 + 1 == regex.captures_len() && self.source.as_str() == regex.as_str()
    }

    fn find(&mut self, line: &str) -> Result<Option<(usize, usize)>, Declined>
        ensures span { IfOk result (λ found. found
            ≡ option_map span (find_str (pattern_of self.old.searcher.program) line.now 0)) }
        ensures cells { OnOk result (IfSome
            (find_str (pattern_of self.old.searcher.program) line.now 0)
            (λ m. self.new.cells.items ≡ group_cells m (vec_len self.old.cells))) }
        ensures width { vec_len self.new.cells ≡ vec_len self.old.cells }
    {
        let found = self.find_in_bytes(line.as_bytes())?;
        if starts_inside(line, found) {
            return Err(Declined);
        }
        Ok(found)
    }

    /// The match can start inside a character.
    fn find_in_bytes(&mut self, hay: &[u8]) -> Result<Option<(usize, usize)>, Declined>
        ensures span { IfOk result (λ found. found
            ≡ option_map span (leftmost self.old.searcher.program hay.now 0)) }
        ensures cells { OnOk result (IfSome (leftmost self.old.searcher.program hay.now 0)
            (λ m. self.new.cells.items ≡ group_cells m (vec_len self.old.cells))) }
        ensures width { vec_len self.new.cells ≡ vec_len self.old.cells }
    {
        let found = self.searcher.find(hay, &mut self.cells)?;
        Ok(found)
    }
}

fn program_of(alloc: Global, text: &str) -> Result<Program, Declined>
    ensures { IfOk result (λ program. ∥ IsTreeOf text.now program.hir ∥₁) }
{
    let Ok(Parsed { hir, names }) = regex_syntax::parse(alloc, text, &Config::default()) else {
        return Err(Declined);
    };
    let Ok(groups) = u32::try_from(names.len()) else {
        return Err(Declined);
    };
    let Ok(program) = Program::new(alloc, hir, groups, SIZE_LIMIT) else {
        return Err(Declined);
    };
    Ok(program)
}

fn starts_inside(line: &str, found: Option<(usize, usize)>) -> bool
    ensures { IsFalse result → IfSome found (λ s. IsCharBoundary line.now s.0) }
{
    match found {
        Some((start, _)) => !line.is_char_boundary(start),
        None => false,
    }
}

//! The beginnings of a regular expression.
ghost use Rattle.std.specs.Prelude.{◌≡◌, IfOk, MatchOption, ⊤, filter, slice_get, string_bytes};
ghost use Rattle.regex.specs.Strings.{regex_source};
ghost use Rattle.regex_beginnings.specs.Pieces.{ArePiecesOf, beginning_text, text_upto};
ghost use Rattle.regex_beginnings.specs.Finds.{IsAnswer, IsFirstMatchIn};
ghost use Rattle.regex_beginnings.specs.Beginnings.{pieces_of, groups_of, is_around, groups_around, IsLongestIn};

use crate::compiled::{Compiled, Found, compile};
use crate::pieces::{Group, Piece, Pieces, cut};
use std::alloc::{AllocError, Global};
use std::collections::BTreeMap;

/// The beginnings of a regular expression. The beginning of `count` pieces is the text up to the end
/// of the last of them, with a `)` for each group that is still open there. The beginning of no piece
/// is empty.
#[derive(Drop)]
pub struct Beginnings<'a> {
    alloc: Global,
    pieces: Vec<Piece<'a>>,
    groups: Vec<Group>,
    /// Compiled beginnings, by their number of pieces. For each step of the search for the longest
    /// beginning, only the one that was compiled last is kept. So of N beginnings at most about log2(N)
    /// take memory, and if lines stop at the same piece one after another, none is compiled again.
    compiled: BTreeMap<usize, Compiled>,
    /// For each step of a search, the number of pieces of the beginning that is kept for it.
    kept: BTreeMap<usize, usize>,
}

impl Piece<'_> {
    fn closed_text(&self, alloc: Global) -> Result<String, AllocError>
        ensures { IfOk result (λ text. string_bytes text ≡ text_upto self.now) }
    {
        let mut text = String::from_str(alloc, self.upto)?;
        let brackets = ")".repeat(alloc, self.depth)?;
        text.push_str(brackets.as_str())?;
        Ok(text)
    }
}

fn groups_around(
    alloc: Global,
    groups: &[Group],
    piece: &Piece<'_>,
) -> Result<Vec<Group>, AllocError>
    ensures { IfOk result (λ around. around.items ≡ filter (is_around piece.now) groups.now) }
{
    let mut around = Vec::new(alloc);
    'groups: for group in groups {
        if group.start < piece.start && piece.upto.len() <= group.end {
            around.push(*group)?;
        }
    }
    Ok(around)
}

impl<'a> Beginnings<'a> {
    /// Cuts the text of a regular expression that `regex` takes.
    pub fn new(alloc: Global, text: &'a str) -> Result<Beginnings<'a>, AllocError>
        ensures { IfOk result (λ beginnings. ArePiecesOf text.now (pieces_of beginnings)) }
    {
        let Pieces { pieces, groups } = cut(alloc, text)?;
        Ok(Beginnings {
            alloc,
            pieces,
            groups,
            compiled: BTreeMap::new(alloc),
            kept: BTreeMap::new(alloc),
        })
    }

    /// Returns the pieces, in their order.
    pub fn pieces(&self) -> &[Piece<'a>]
        ensures { result.now ≡ pieces_of self.now }
    {
        self.pieces.as_slice()
    }

    /// Returns the groups around the piece at this index, outermost first.
    pub fn groups_around(&self, index: usize) -> Result<Vec<Group>, AllocError>
        ensures { IfOk result (λ around. around.items ≡ groups_around (groups_of self.now) (slice_get (pieces_of self.now) index)) }
    {
        match self.pieces.as_slice().get(index) {
            Some(piece) => groups_around(self.alloc, &self.groups, piece),
            None => Ok(Vec::new(self.alloc)),
        }
    }

    fn text_of(&self, count: usize) -> Result<String, AllocError>
        ensures { IfOk result (λ text. string_bytes text ≡ beginning_text (pieces_of self.now) count) }
    {
        if count == 0 {
            return Ok(String::new(self.alloc));
        }
        match self.pieces.as_slice().get(count - 1) {
            Some(piece) => piece.closed_text(self.alloc),
            None => Ok(String::new(self.alloc)),
        }
    }

    fn known(&self, count: usize, text: &str) -> Option<&Compiled>
        ensures { MatchOption result ⊤ (λ known. regex_source known.now.regex ≡ text.now) }
    {
        match self.compiled.get(&count) {
            Some(known) if known.regex.as_str() == text => Some(known),
            _ => None,
        }
    }

    /// Keeps a compiled beginning of `count` pieces. It replaces the one that this step of a search needed
    /// before.
    fn keep(&mut self, step: usize, count: usize, compiled: Compiled) -> Result<(), AllocError>
        ensures { pieces_of self.new ≡ pieces_of self.old }
    {
        if let Some(before) = self.kept.insert(step, count)? {
            self.compiled.remove(&before);
        }
        self.compiled.insert(count, compiled)?;
        Ok(())
    }

    /// `step` is the step of the search for the longest beginning that needs this one.
    fn finds(&mut self, step: usize, count: usize, line: &str) -> Result<bool, AllocError>
        ensures answer { IfOk result (IsAnswer (beginning_text (pieces_of self.old) count) line.now) }
        ensures same { pieces_of self.new ≡ pieces_of self.old }
    {
        let text = self.text_of(count)?;
        if let Some(known) = self.known(count, text.as_str()) {
            return Ok(known.is_found(self.alloc, line)?);
        }
        let Some(compiled) = compile(self.alloc, text.as_str())? else {
            return Ok(false);
        };
        let finds = compiled.is_found(self.alloc, line)?;
        self.keep(step, count, compiled)?;
        Ok(finds)
    }

    /// Returns the first match of the beginning of `count` pieces in the line, or `None` if it finds
    /// nothing.
    pub fn find(&self, count: usize, line: &str) -> Result<Option<Found>, AllocError>
        ensures { IfOk result (IsFirstMatchIn (beginning_text (pieces_of self.now) count) line.now) }
    {
        let text = self.text_of(count)?;
        if let Some(known) = self.known(count, text.as_str()) {
            return Ok(known.find(self.alloc, line)?);
        }
        match compile(self.alloc, text.as_str())? {
            Some(compiled) => Ok(compiled.find(self.alloc, line)?),
            None => Ok(None),
        }
    }

    /// Returns how many pieces the longest beginning has that finds something in the line. The beginning
    /// with one more piece finds nothing.
    pub fn longest(&mut self, line: &str) -> Result<usize, AllocError>
        ensures longest { IfOk result (IsLongestIn line.now (pieces_of self.old)) }
        ensures same { pieces_of self.new ≡ pieces_of self.old }
    {
        let mut count = 0;
        let mut too_many = self.pieces.len() + 1;
        let mut step = 0usize;
        'halves: while too_many - count > 1 {
            let middle = count + (too_many - count) / 2;
            step = step.saturating_add(1);
            if self.finds(step, middle, line)? {
                count = middle;
            } else {
                too_many = middle;
            }
        }
        Ok(count)
    }
}

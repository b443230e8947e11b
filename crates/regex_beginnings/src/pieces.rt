//! Cuts the text of a regular expression into pieces.
ghost use Rattle.std.specs.Prelude.{◌≡◌, ◌≤◌, ◌⊎◌, length, take, IfOk};
ghost use Rattle.std.specs.List.{All};
ghost use Rattle.std.specs.List.Sorted.{IsNonDecreasingBy};
ghost use Rattle.regex_beginnings.specs.Pieces.{ArePiecesOf, IsPieceOf, end_of};

use crate::scan::{Opening, after, atom_len, is_literal, quantifiers_len, read_opening};
use std::alloc::{AllocError, Global};

/// A group that consists of pieces: it has no quantifier, and no alternatives of its own.
#[derive(Clone, Copy, Debug)]
pub struct Group {
    /// The byte position of its `(`.
    pub start: usize,
    /// The byte position after its `)`.
    pub end: usize,
    /// The number of the group, if it captures. Groups that capture are counted from 1.
    pub number: Option<usize>,
}

/// A piece: a character, a class, an escape, or a group, each with its quantifiers, or a setting of
/// flags. A group is a piece if it has a quantifier or alternatives, or if it is empty.
#[derive(Clone, Copy, Debug)]
pub struct Piece<'a> {
    /// The byte position where it begins.
    pub start: usize,
    /// The text of the regular expression up to its end.
    pub upto: &'a str,
    /// Whether it is a single character that stands for itself.
    pub is_literal: bool,
    /// How many groups are around it.
    pub depth: usize,
}

/// The pieces of a regular expression, and the groups around them.
#[derive(Drop)]
pub(crate) struct Pieces<'a> {
    pub pieces: Vec<Piece<'a>>,
    pub groups: Vec<Group>,
}

/// A group that isn't closed yet.
#[derive(Clone, Copy)]
struct Open {
    group: usize,
    /// How many pieces come before it.
    pieces_before: usize,
    has_alternatives: bool,
}

/// Cuts a text, from left to right.
#[derive(Drop)]
struct Cutter<'a> {
    text: &'a str,
    /// How many bytes are cut.
    at: usize,
    pieces: Vec<Piece<'a>>,
    groups: Vec<Group>,
    /// The groups that aren't closed yet, outermost first.
    open: Vec<Open>,
    /// How many groups that capture have begun.
    captures: usize,
    /// Whether the text has alternatives outside all groups.
    has_alternatives: bool,
    ghost parts: { All (IsPieceOf text.now) pieces.items },
    ghost ordered: { IsNonDecreasingBy end_of pieces.items },
    ghost cut: { All (λ piece. end_of piece ≤ at) pieces.items },
}

fn before(text: &str, end: usize) -> &str
    ensures beginning { take (length result.now) text.now ≡ result.now }
    ensures long { (end ≤ length result.now) ⊎ (result.now ≡ text.now) }
{
    match text.get(..end) {
        Some(beginning) => beginning,
        None => text,
    }
}

impl<'a> Cutter<'a> {
    fn new(alloc: Global, text: &'a str) -> Cutter<'a>
        ensures { result.text.now ≡ text.now }
    {
        Cutter {
            text,
            at: 0,
            pieces: Vec::new(alloc),
            groups: Vec::new(alloc),
            open: Vec::new(alloc),
            captures: 0,
            has_alternatives: false,
        }
    }

    /// Adds a piece that begins at `start` and ends at `end`, or after all that is cut, if that is
    /// later. Continues after it. If no character ends there, the piece is the rest of the text.
    fn add_piece(&mut self, start: usize, end: usize, is_literal: bool) -> Result<(), AllocError>
        ensures { self.new.text.now ≡ self.old.text.now }
    {
        let upto = before(self.text, end.max(self.at));
        let piece = Piece {
            start: start.min(upto.len()),
            upto,
            is_literal,
            depth: self.open.len(),
        };
        self.at = upto.len();
        self.pieces.push(piece)?;
        Ok(())
    }

    /// Cuts a character, a class or an escape with its quantifiers.
    fn cut_atom(&mut self) -> Result<(), AllocError>
        ensures { self.new.text.now ≡ self.old.text.now }
    {
        let start = self.at;
        let rest = after(self.text, start);
        let len = atom_len(rest);
        let quantifiers = quantifiers_len(after(rest, len));
        let is_literal = is_literal(rest) && quantifiers == 0;
        let end = start.saturating_add(len).saturating_add(quantifiers);
        self.add_piece(start, end, is_literal)
    }

    /// Makes one piece of all that follows, together with the outermost group that isn't closed.
    fn take_rest(&mut self) -> Result<(), AllocError>
        ensures { self.new.text.now ≡ self.old.text.now }
    {
        let mut start = self.at;
        if let Some(outermost) = self.open.as_slice().first()
            && let Some(group) = self.groups.as_slice().get(outermost.group)
        {
            start = group.start;
            self.pieces.truncate(outermost.pieces_before);
        }
        self.open.clear();
        self.add_piece(start, self.text.len(), false)
    }

    /// Begins a group at a `(`, or cuts a setting of flags.
    fn begin_group(&mut self) -> Result<(), AllocError>
        ensures { self.new.text.now ≡ self.old.text.now }
    {
        let start = self.at;
        match read_opening(after(self.text, start)) {
            Opening::Setting(len) => self.add_piece(start, start.saturating_add(len), false),
            Opening::Verbose => self.take_rest(),
            Opening::Group { len, is_capturing } => {
                self.captures = self.captures.saturating_add(usize::from(is_capturing));
                let number = if is_capturing {
                    Some(self.captures)
                } else {
                    None
                };
                let open = Open {
                    group: self.groups.len(),
                    pieces_before: self.pieces.len(),
                    has_alternatives: false,
                };
                self.groups.push(Group {
                    start,
                    end: self.text.len(),
                    number,
                })?;
                self.open.push(open)?;
                self.at = start.saturating_add(len);
                Ok(())
            }
        }
    }

    /// Ends a group at its `)`. It becomes a piece of its own if it has quantifiers or
    /// alternatives, or if it is empty.
    fn end_group(&mut self) -> Result<(), AllocError>
        ensures { self.new.text.now ≡ self.old.text.now }
    {
        let inside_end = self.at.saturating_add(1);
        let quantifiers = quantifiers_len(after(self.text, inside_end));
        let end = inside_end.saturating_add(quantifiers);
        self.at = end;
        let Some(open) = self.open.pop() else {
            return Ok(());
        };
        let Some(group) = self.groups.as_mut_slice().get_mut(open.group) else {
            return Ok(());
        };
        group.end = end;
        let start = group.start;
        let is_empty = self.pieces.len() == open.pieces_before;
        if is_empty || open.has_alternatives || quantifiers > 0 {
            self.pieces.truncate(open.pieces_before);
            self.add_piece(start, end, false)?;
        }
        Ok(())
    }

    /// Notes at a `|` that the innermost open group has alternatives, or the whole text.
    fn note_alternatives(&mut self)
        ensures { self.new.text.now ≡ self.old.text.now }
    {
        self.at = self.at.saturating_add(1);
        match self.open.as_mut_slice().last_mut() {
            Some(open) => open.has_alternatives = true,
            None => self.has_alternatives = true,
        }
    }

    fn cut_next(&mut self) -> Result<(), AllocError>
        ensures { self.new.text.now ≡ self.old.text.now }
    {
        let rest = after(self.text, self.at);
        if rest.starts_with('(') {
            self.begin_group()
        } else if rest.starts_with(')') {
            self.end_group()
        } else if rest.starts_with('|') {
            self.note_alternatives();
            Ok(())
        } else {
            self.cut_atom()
        }
    }
}

/// Cuts the text of a regular expression that `regex` takes into pieces. If the text has
/// alternatives outside all groups, it is one piece. If it sets the flag `x`, the part from there on
/// is one piece, together with the outermost group that is open there.
pub(crate) fn cut<'a>(alloc: Global, text: &'a str) -> Result<Pieces<'a>, AllocError>
    ensures { IfOk result (λ cut. ArePiecesOf text.now cut.pieces.items) }
{
    let mut cutter = Cutter::new(alloc, text);
    // Each step takes a byte at least.
    'steps: for _ in 0..text.len() {
        if cutter.at >= text.len() {
            break;
        }
        cutter.cut_next()?;
    }
    if cutter.has_alternatives {
        cutter.pieces.clear();
        cutter.open.clear();
        cutter.add_piece(0, text.len(), false)?;
    }
    let Cutter { pieces, groups, .. } = cutter;
    Ok(Pieces { pieces, groups })
}

//! A search that owns its program and its lazy automata, and keeps them from line to line.
ghost use Rattle.std.specs.Prelude.{◌≡◌, ◌≤◌, true, Some, None, length, option_map, IfOk, IfSome, OnOk, IsTrue};
ghost use Rattle.regex_dfa.specs.Search.{IsForwardFor, IsReverseFor};
ghost use Rattle.regex_extract.specs.Bounds.{IsAnchored};
ghost use Rattle.regex_extract.specs.Needles.{ContainsNeedle};
ghost use Rattle.regex_meta.specs.Programs.{pattern_of, leftmost};
ghost use Rattle.regex_meta.specs.Located.{EndsAt};
ghost use Rattle.regex_tagged.specs.Valid.{IsFor};
ghost use Rattle.regex_vm.specs.Found.{group_cells, span};
ghost use Rattle.regex_shared.specs.steps.Searches.{IsFirstEnd, IsSameSearch};

use crate::literals::{lacks, required_literals};
use regex_dfa::{End, Forward, Reverse, Start};
use regex_literal::Prefilter;
use regex_meta::Program;
use regex_tagged::Tagged;
use regex_vm::{Backtracker, Declined};
use std::alloc::Global;

/// A program and its lazy automata, whose caches fill from line to line.
///
/// A search writes the groups of a match to `cells`: from group 1 on, a start and an end for each
/// group. A cell has a position plus one, or 0 if the group took no part in the match.
#[derive(Drop)]
pub(crate) struct Searcher {
    pub(crate) program: Program,
    /// Whether each match starts where the line starts.
    at_start: bool,
    /// The literals that are rarest in a match. Each match contains one of them.
    rarest: Option<Prefilter>,
    /// The literals that are rarest elsewhere in a match. Each match contains one of them too.
    others: Option<Prefilter>,
    /// Finds the groups of a match.
    tagged: Tagged,
    /// Finds the end of the first match.
    forward: Forward,
    /// Finds the start of a match from its end.
    reverse: Reverse,
    /// Searches a line if an automaton gives up.
    backtracker: Backtracker,
    ghost starts: { ∥ (at_start ≡ true → IsAnchored true (pattern_of program)) ∥₁ },
    ghost contains: { ∥ IfSome rarest (ContainsNeedle (pattern_of program)) ∥₁ },
    ghost contains_others: { ∥ IfSome others (ContainsNeedle (pattern_of program)) ∥₁ },
    ghost tagged_runs: { IsFor tagged program.dfa },
    ghost forward_runs: { IsForwardFor forward program.dfa },
    ghost reverse_runs: { IsReverseFor reverse program.dfa },
}

impl Searcher {
    pub(crate) fn new(alloc: Global, program: Program) -> Result<Searcher, Declined>
        ensures { IfOk result (λ s. s.program ≡ program) }
    {
        let (tagged, forward, reverse) = automata_of(alloc, &program)?;
        let at_start = starts_lines(&program);
        let (rarest, others) = required_literals(alloc, &program)?;
        Ok(Searcher {
            program,
            at_start,
            rarest,
            others,
            tagged,
            forward,
            reverse,
            backtracker: Backtracker::new(alloc),
        })
    }

    /// Returns `Declined` if an automaton gives up and the line is too long for backtracking, or if an
    /// allocation fails.
    pub(crate) fn find(
        &mut self,
        hay: &[u8],
        cells: &mut [usize],
    ) -> Result<Option<(usize, usize)>, Declined>
        ensures span { IfOk result (λ found. found
            ≡ option_map span (leftmost self.old.program hay.now 0)) }
        ensures cells { OnOk result (IfSome (leftmost self.old.program hay.now 0)
            (λ m. cells.new ≡ group_cells m (length cells.old))) }
        ensures same { IsSameSearch self.new.program self.old.program }
    {
        if let Ok(found) = self.by_automata(hay, cells) {
            return Ok(found);
        }
        let found = by_backtracking(&mut self.backtracker, &self.program, hay, cells)?;
        Ok(found)
    }

    /// The tagged automaton is the slowest one, and so it reads only the span of the match. If each match
    /// starts where the line starts, it reads the line instead of the other two. Returns `Declined` if an
    /// automaton gives up.
    fn by_automata(
        &mut self,
        hay: &[u8],
        cells: &mut [usize],
    ) -> Result<Option<(usize, usize)>, Declined>
        ensures span { IfOk result (λ found. found
            ≡ option_map span (leftmost self.old.program hay.now 0)) }
        ensures cells { OnOk result (IfSome (leftmost self.old.program hay.now 0)
            (λ m. cells.new ≡ group_cells m (length cells.old))) }
        ensures same { IsSameSearch self.new.program self.old.program }
    {
        if self.at_start {
            return Ok(self.match_at_start(hay, cells)?);
        }
        match self.span(hay)? {
            Some(whole) => Ok(self.groups_within(hay, whole, cells)?),
            None => Ok(None),
        }
    }

    fn match_at_start(
        &mut self,
        hay: &[u8],
        cells: &mut [usize],
    ) -> Result<Option<(usize, usize)>, Declined>
        requires at_start { self.old.at_start ≡ true }
        ensures span { IfOk result (λ found. found
            ≡ option_map span (leftmost self.old.program hay.now 0)) }
        ensures cells { OnOk result (IfSome (leftmost self.old.program hay.now 0)
            (λ m. cells.new ≡ group_cells m (length cells.old))) }
        ensures same { IsSameSearch self.new.program self.old.program }
    {
        let found = self
            .tagged
            .find_at(&self.program.dfa, hay, 0, hay.len(), cells)?;
        Ok(found)
    }

    fn span(&mut self, hay: &[u8]) -> Result<Option<(usize, usize)>, Declined>
        ensures span { IfOk result (λ found. found
            ≡ option_map span (leftmost self.old.program hay.now 0)) }
        ensures same { IsSameSearch self.new.program self.old.program }
    {
        if self.program.at_end {
            return Ok(self.span_at_end(hay)?);
        }
        if self.lacks_literal(hay) {
            return Ok(None);
        }
        match self.first_end(hay)? {
            Some(end) => Ok(Some(self.span_to(hay, end)?)),
            None => Ok(None),
        }
    }

    fn lacks_literal(&self, hay: &[u8]) -> bool
        ensures { IsTrue result → leftmost self.now.program hay.now 0 ≡ None }
    {
        lacks(&self.rarest, &self.program, hay) || lacks(&self.others, &self.program, hay)
    }

    /// If the pattern has no groups, it searches no further.
    fn groups_within(
        &mut self,
        hay: &[u8],
        whole: (usize, usize),
        cells: &mut [usize],
    ) -> Result<Option<(usize, usize)>, Declined>
        requires whole { Some whole ≡ option_map span (leftmost self.old.program hay.now 0) }
        ensures span { IfOk result (λ found. found
            ≡ option_map span (leftmost self.old.program hay.now 0)) }
        ensures cells { OnOk result (IfSome (leftmost self.old.program hay.now 0)
            (λ m. cells.new ≡ group_cells m (length cells.old))) }
        ensures same { IsSameSearch self.new.program self.old.program }
    {
        if cells.is_empty() {
            return Ok(Some(whole));
        }
        let found = self
            .tagged
            .find_at(&self.program.dfa, hay, whole.0, whole.1, cells)?;
        Ok(found)
    }

    fn first_end(&mut self, hay: &[u8]) -> Result<Option<usize>, Declined>
        ensures end { IfOk result (λ found. IsFirstEnd self.old.program hay.now found) }
        ensures same { IsSameSearch self.new.program self.old.program }
    {
        match self
            .forward
            .find_end(&self.program.dfa, hay, 0, hay.len(), false, false)
        {
            End::At(end) => Ok(Some(end)),
            End::NoMatch => Ok(None),
            End::Idle(_) | End::GaveUp => Err(Declined),
        }
    }

    fn span_at_end(&mut self, hay: &[u8]) -> Result<Option<(usize, usize)>, Declined>
        requires ends { self.old.program.at_end ≡ true }
        ensures span { IfOk result (λ found. found
            ≡ option_map span (leftmost self.old.program hay.now 0)) }
        ensures same { IsSameSearch self.new.program self.old.program }
    {
        match self
            .reverse
            .find_start(&self.program.dfa, hay, 0, hay.len())
        {
            Start::At(from) => Ok(Some((from, hay.len()))),
            Start::NoMatch => Ok(None),
            Start::GaveUp => Err(Declined),
        }
    }

    fn span_to(&mut self, hay: &[u8], end: usize) -> Result<(usize, usize), Declined>
        requires ends { EndsAt (pattern_of self.old.program) hay.now 0 0 end }
        ensures span { IfOk result (λ whole. Some whole
            ≡ option_map span (leftmost self.old.program hay.now 0)) }
        ensures same { IsSameSearch self.new.program self.old.program }
    {
        match self.reverse.find_start(&self.program.dfa, hay, 0, end) {
            Start::At(from) => Ok((from, end)),
            Start::NoMatch | Start::GaveUp => Err(Declined),
        }
    }
}

fn automata_of(alloc: Global, program: &Program) -> Result<(Tagged, Forward, Reverse), Declined>
    ensures own { IfOk result (λ automata. IsFor automata.0 program.now.dfa) }
    ensures ahead { IfOk result (λ automata. IsForwardFor automata.1 program.now.dfa) }
    ensures back { IfOk result (λ automata. IsReverseFor automata.2 program.now.dfa) }
{
    let tagged = Tagged::new(alloc, &program.dfa)?;
    let forward = Forward::new(alloc, &program.dfa, false)?;
    let reverse = Reverse::new(alloc, &program.dfa)?;
    Ok((tagged, forward, reverse))
}

fn starts_lines(program: &Program) -> bool
    ensures { ∥ (result ≡ true → IsAnchored true (pattern_of program.now)) ∥₁ }
{
    regex_extract::is_anchored_start(&program.hir)
}

/// Needs no caches. Returns `Declined` if the line is too long for backtracking, or if an allocation
/// fails.
fn by_backtracking(
    backtracker: &mut Backtracker,
    program: &Program,
    hay: &[u8],
    cells: &mut [usize],
) -> Result<Option<(usize, usize)>, Declined>
    ensures span { IfOk result (λ found. found
        ≡ option_map span (leftmost program.now hay.now 0)) }
    ensures cells { OnOk result (IfSome (leftmost program.now hay.now 0)
        (λ m. cells.new ≡ group_cells m (length cells.old))) }
{
    let found = backtracker.find(&program.dfa.nfa, hay, 0, hay.len(), hay.len(), cells)?;
    Ok(found)
}

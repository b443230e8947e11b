//! The literals of which each match of a pattern contains one.
ghost use Rattle.std.specs.Prelude.{◌≡◌, None, IfOk, IfSome, IsTrue};
ghost use Rattle.regex_extract.specs.Frames.{IsInner};
ghost use Rattle.regex_extract.specs.Needles.{ContainsNeedle};
ghost use Rattle.regex_meta.specs.Programs.{pattern_of, leftmost};

use regex_extract::{Frames, Inner};
use regex_literal::{Bounded, Prefilter};
use regex_meta::Program;
use regex_vm::Declined;
use std::alloc::Global;

/// Two sets of literals: the one that is rarest in a match, and the one that is rarest elsewhere in the
/// match. If there is a set, each match contains one of its literals.
pub(crate) type Literals = (Option<Prefilter>, Option<Prefilter>);

/// Returns `None` if there is no fast search for the literals.
fn search_for(
    alloc: Global,
    program: &Program,
    inner: Option<Inner>,
) -> Result<Option<Prefilter>, Declined>
    requires { IfSome inner (IsInner (pattern_of program.now)) }
    ensures { IfOk result (λ found. ∥ IfSome found (ContainsNeedle (pattern_of program.now)) ∥₁) }
{
    match inner {
        Some(Inner { found, head: _head }) => Ok(Prefilter::new(alloc, found.needles)?),
        None => Ok(None),
    }
}

/// Returns no literals if each match starts where the line starts: then one automaton decides as fast.
pub(crate) fn required_literals(alloc: Global, program: &Program) -> Result<Literals, Declined>
    ensures rarest { IfOk result (λ found. ∥ IfSome found.0 (ContainsNeedle (pattern_of program.now)) ∥₁) }
    ensures others { IfOk result (λ found. ∥ IfSome found.1 (ContainsNeedle (pattern_of program.now)) ∥₁) }
{
    if regex_extract::is_anchored_start(&program.hir) {
        return Ok((None, None));
    }
    let Frames {
        first: _first,
        best,
        second,
    } = regex_extract::framed_needles(alloc, &program.hir)?;
    let rarest = search_for(alloc, program, best)?;
    let others = search_for(alloc, program, second)?;
    Ok((rarest, others))
}

pub(crate) fn lacks(literals: &Option<Prefilter>, program: &Program, hay: &[u8]) -> bool
    requires { ∥ IfSome literals.now (ContainsNeedle (pattern_of program.now)) ∥₁ }
    ensures { IsTrue result → leftmost program.now hay.now 0 ≡ None }
{
    let Some(literals) = literals else {
        return false;
    };
    match literals.find_bounded(hay, 0) {
        Bounded::Missing => true,
        Bounded::Found(_, _) | Bounded::Tired(_) => false,
    }
}

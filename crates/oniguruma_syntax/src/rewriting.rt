//! Rewrites a text that was made for Oniguruma.
ghost use Rattle.std.specs.Prelude.{IfOk};
ghost use Rattle.oniguruma_syntax.specs.Outcomes.{IsOutcomeOf, IsPartOf};

use crate::reader::read;
use crate::refusal::{RefusedPart, Stop};
use crate::structure::find_structure;
use crate::token::{Node, Token};
use crate::writer::{Inline, RewriteOptions, Rewritten, Source, write};
use std::alloc::{AllocError, Global};
use std::ops::Range;

/// What rewriting a text returns.
#[derive(Drop)]
pub enum Outcome {
    /// `regex` takes the text as it is: no part of it is written in another form.
    Kept,
    /// Another text, for `regex`.
    Rewritten(Rewritten),
    /// A part of the text has no form for `regex`.
    Refused(RefusedPart),
}

/// Rewrites a text. `inlines` has the rewritten inline definitions of its placeholders.
fn rewrite_text(
    alloc: Global,
    text: &str,
    nodes: &[Node<'_>],
    inlines: &[Inline],
    rewrite_options: RewriteOptions,
) -> Result<Rewritten, Stop> {
    let structure = find_structure(alloc, nodes)?;
    let source = Source {
        text,
        nodes,
        structure: &structure,
        inlines,
    };
    write(alloc, source, rewrite_options)
}

/// Returns the byte range of an inline definition in the text of its placeholder's token.
fn inline_range(node: &Node<'_>, definition: &str) -> Range<usize> {
    // The definition ends before the `}`.
    let end = node.end.saturating_sub(1);
    end.saturating_sub(definition.len())..end
}

/// Moves a refusal of an inline definition to the text that it stands in.
fn moved(stop: Stop, start: usize) -> Stop {
    match stop {
        // own error: an allocation failed while the inline definition was rewritten.
        Stop::Memory => Stop::Memory,
        Stop::Refused(RefusedPart { reason, range }) => {
            let range = start.saturating_add(range.start)..start.saturating_add(range.end);
            Stop::Refused(RefusedPart { reason, range })
        }
    }
}

/// Rewrites an inline definition, which has no placeholders.
fn rewrite_inline(
    alloc: Global,
    definition: &str,
    rewrite_options: RewriteOptions,
) -> Result<Rewritten, Stop> {
    let nodes = read(alloc, definition)?;
    let is_whole = false;
    rewrite_text(
        alloc,
        definition,
        &nodes,
        &[],
        RewriteOptions {
            is_whole,
            ..rewrite_options
        },
    )
}

fn rewrite_inlines(
    alloc: Global,
    nodes: &[Node<'_>],
    rewrite_options: RewriteOptions,
) -> Result<Vec<Inline>, Stop> {
    let mut inlines = Vec::new(alloc);
    for (index, node) in nodes.iter().enumerate() {
        if let Token::Placeholder(placeholder) = node.token
            && !placeholder.definition.is_empty()
        {
            let range = inline_range(node, placeholder.definition);
            match rewrite_inline(alloc, placeholder.definition, rewrite_options) {
                Ok(rewritten) => inlines.push(Inline { index, rewritten })?,
                Err(stop) => return Err(moved(stop, range.start)),
            }
        }
    }
    Ok(inlines)
}

/// Rewrites a text, or returns `None` if it has a malformed placeholder.
fn rewrite_all(
    alloc: Global,
    text: &str,
    rewrite_options: RewriteOptions,
) -> Result<Option<Rewritten>, Stop> {
    let nodes = read(alloc, text)?;
    if nodes
        .iter()
        .any(|node| matches!(node.token, Token::Malformed(_)))
    {
        return Ok(None);
    }
    let inlines = rewrite_inlines(alloc, &nodes, rewrite_options)?;
    Ok(Some(rewrite_text(alloc, text, &nodes, &inlines, rewrite_options)?))
}

/// Returns this byte range of a text, or the empty range at its end if the given range doesn't begin and end
/// between characters.
#[tactic(auto, using(crate::proofs::EndsOfTexts::end_of_text))]
fn range_in(text: &str, range: Range<usize>) -> Range<usize>
    ensures { IsPartOf text.now result.start result.end }
{
    let Range { start, end } = range;
    if start <= end && text.is_char_boundary(start) && text.is_char_boundary(end) {
        start..end
    } else {
        text.len()..text.len()
    }
}

/// Rewrites a text of Oniguruma's syntax, with Ruby's options, for `regex`. Its placeholders stay,
/// and their inline definitions are rewritten too. The new text means the same in each text without
/// a line feed, except for the changes that are returned with it. A text of which nothing has to be written
/// in another form is kept, and so is one with a malformed placeholder: whoever reads its placeholders
/// reports that.
pub fn rewrite(
    alloc: Global,
    text: &str,
    rewrite_options: RewriteOptions,
) -> Result<Outcome, AllocError>
    ensures { IfOk result (IsOutcomeOf text.now) }
{
    match rewrite_all(alloc, text, rewrite_options) {
        Ok(Some(rewritten)) => Ok(if rewritten.text.as_str() == text {
            Outcome::Kept
        } else {
            Outcome::Rewritten(rewritten)
        }),
        Ok(None) => Ok(Outcome::Kept),
        Err(Stop::Refused(RefusedPart { reason, range })) => {
            let range = range_in(text, range);
            Ok(Outcome::Refused(RefusedPart { reason, range }))
        }
        // own error: an allocation failed, which `Stop::Memory` reports.
        Err(Stop::Memory) => Err(AllocError),
    }
}

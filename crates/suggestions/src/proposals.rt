//! Proposes patterns for lines.
ghost use Rattle.std.specs.Prelude.{◌≡◌, ◌+◌, ◌<◌, ◌≤◌, All, IfOk, IfSome, OnOk, vec_len};

use crate::align::{Row, Template, align};
use crate::counts::{commonest, count_line};
use crate::heads::{LineView, longest_head};
use crate::text::{RestForm, pattern_text};
use crate::values::{template_of_named, template_of_values};
use groklog_definitions::Library;
use log_samples::{Candidate, Cutter, Fit, Kind, Recognizer, separator_of};
use std::alloc::{AllocError, Global};

/// How many patterns are proposed at most.
const MOST_PATTERNS: usize = 3;

/// For how many forms of lines a pattern is sought at most. Not each of them has one.
const MOST_FORMS: usize = 6;

/// How many lines are aligned at most, the first ones. The patterns that are made from them are tried on
/// all lines.
const MOST_ALIGNED: usize = 1000;

/// One line in this many may be left out, because it differs from the others.
const LINES_FOR_ONE_SPARE: usize = 20;

/// If the patterns leave out at most one line in this many, no further pattern is proposed.
const LINES_FOR_ONE_LEFT: usize = 10;

/// A pattern for some lines.
#[derive(Drop)]
pub(crate) struct Proposal {
    pub text: String,
    /// How it fits the lines that the proposals before it don't fit.
    pub fit: Fit,
}

/// Compiles the pattern of a template, with the rest in this form. Returns `None` if it can't be compiled, or fits no
/// line.
fn compile_candidate(
    library: &Library<'_>,
    view: &LineView<'_>,
    template: &Template<'_>,
    form: RestForm,
    lines: &[&str],
) -> Result<Option<Candidate>, AllocError>
    ensures { IfOk result (λ found. IfSome found (λ candidate. 0 < candidate.fit.lines)) }
{
    let alloc = view.alloc;
    let text = pattern_text(alloc, &library.grok, template, form, &view.frame)?;
    Candidate::new(alloc, library, text, lines)
}

/// Returns the candidate of a template that fits most lines: the first of them, if there are several.
fn best_candidate(
    library: &Library<'_>,
    view: &LineView<'_>,
    template: &Template<'_>,
    lines: &[&str],
) -> Result<Option<Candidate>, AllocError>
    ensures { IfOk result (λ found. IfSome found (λ candidate. 0 < candidate.fit.lines)) }
{
    let mut best = compile_candidate(library, view, template, RestForm::AfterBlanks, lines)?;
    if !template.has_rest {
        return Ok(best);
    }
    'forms: for form in [RestForm::Optional, RestForm::Joined] {
        let next = compile_candidate(library, view, template, form, lines)?;
        let so_far = match &best {
            Some(best) => best.fit.lines,
            None => 0,
        };
        if let Some(next) = next
            && next.fit.lines > so_far
        {
            best = Some(next);
        }
    }
    Ok(best)
}

/// Cuts the aligned part of each line into tokens.
fn rows_of<'l>(
    view: &LineView<'_>,
    cutter: &mut Cutter<'_>,
    lines: &[&'l str],
) -> Result<Vec<Row<'l>>, AllocError> {
    let mut rows = Vec::new(view.alloc);
    for line in &view.aligned(lines)? {
        rows.push(Row::new(cutter.cut(line)?))?;
    }
    Ok(rows)
}

/// Aligns lines, of which a few may be left out. If they have columns with names, or are values between separators, each
/// value is a column.
fn template_of<'l>(
    view: &LineView<'l>,
    cutter: &mut Cutter<'_>,
    lines: &[&'l str],
) -> Result<Template<'l>, AllocError> {
    if let Some(header) = view.header {
        return template_of_named(view.alloc, cutter, lines, header);
    }
    if view.frame.head.is_none()
        && let Some(separator) = separator_of(lines)
    {
        return template_of_values(view.alloc, cutter, lines, separator);
    }
    let rows = rows_of(view, cutter, lines)?;
    align(view.alloc, rows, lines.len() / LINES_FOR_ONE_SPARE)
}

/// Returns the kind of token with which most lines begin: the first of them, if there are several.
fn commonest_head(alloc: Global, rows: &[Row<'_>]) -> Result<Option<Kind>, AllocError> {
    let mut counts = Vec::new(alloc);
    for row in rows {
        count_line(&mut counts, row.head())?;
    }
    Ok(commonest(&counts).and_then(|count| count.what))
}

/// Returns the lines that begin with the kind of token with which most lines begin.
fn commonest_lines<'l>(
    view: &LineView<'_>,
    cutter: &mut Cutter<'_>,
    lines: &[&'l str],
) -> Result<Vec<&'l str>, AllocError> {
    let rows = rows_of(view, cutter, lines)?;
    let head = commonest_head(view.alloc, &rows)?;
    let mut chosen = Vec::new(view.alloc);
    for (line, row) in lines.iter().zip(&rows) {
        if row.head() == head {
            chosen.push(*line)?;
        }
    }
    Ok(chosen)
}

/// Returns the shape that most of the lines have: the first of them, if there are several.
fn commonest_shape(alloc: Global, shapes: &[String]) -> Result<Option<&str>, AllocError> {
    let mut counts = Vec::new(alloc);
    for shape in shapes {
        count_line(&mut counts, shape.as_str())?;
    }
    Ok(commonest(&counts).map(|count| count.what))
}

/// Lines, by their shapes.
#[derive(Drop)]
struct ByShape<'l> {
    /// Those of the shape that most of them have.
    commonest: Vec<&'l str>,
    others: Vec<&'l str>,
}

/// Finds the lines of the shape that most of the lines have.
fn by_shape<'l>(
    view: &LineView<'_>,
    cutter: &mut Cutter<'_>,
    lines: &[&'l str],
) -> Result<ByShape<'l>, AllocError> {
    let alloc = view.alloc;
    let mut shapes = Vec::new(alloc);
    for row in &rows_of(view, cutter, lines)? {
        shapes.push(row.shape(alloc)?)?;
    }
    let shape = commonest_shape(alloc, &shapes)?;
    let mut found = ByShape {
        commonest: Vec::new(alloc),
        others: Vec::new(alloc),
    };
    for (line, own) in lines.iter().zip(&shapes) {
        if shape == Some(own.as_str()) {
            found.commonest.push(*line)?;
        } else {
            found.others.push(*line)?;
        }
    }
    Ok(found)
}

/// Returns the lines without those that `next_candidate` found no pattern for.
fn set_aside<'l>(
    view: &LineView<'_>,
    cutter: &mut Cutter<'_>,
    lines: &[&'l str],
) -> Result<Vec<&'l str>, AllocError> {
    let aligned = aligned_of(lines);
    let ByShape { mut others, .. } = by_shape(view, cutter, aligned)?;
    let further = lines.get(aligned.len()..).unwrap_or(&[]);
    others.extend_from_slice(further)?;
    Ok(others)
}

pub(crate) fn aligned_of<'s, 'l>(lines: &'s [&'l str]) -> &'s [&'l str] {
    lines.get(..MOST_ALIGNED).unwrap_or(lines)
}

/// Returns the best candidate for all of these lines, for the lines that begin alike, or for the lines of one
/// shape.
fn next_candidate<'l>(
    library: &Library<'_>,
    view: &LineView<'l>,
    cutter: &mut Cutter<'_>,
    lines: &[&'l str],
) -> Result<Option<Candidate>, AllocError>
    ensures { IfOk result (λ found. IfSome found (λ candidate. 0 < candidate.fit.lines)) }
{
    let aligned = aligned_of(lines);
    let template = template_of(view, cutter, aligned)?;
    if template.is_telling() {
        return best_candidate(library, view, &template, lines);
    }
    let alike = commonest_lines(view, cutter, aligned)?;
    let template = template_of(view, cutter, &alike)?;
    if template.is_telling() {
        return best_candidate(library, view, &template, lines);
    }
    let ByShape { commonest, .. } = by_shape(view, cutter, aligned)?;
    let template = template_of(view, cutter, &commonest)?;
    best_candidate(library, view, &template, lines)
}

/// Returns the best candidate for the first of `MOST_FORMS` forms that has one, and sets the lines of those before it aside.
fn first_candidate<'l>(
    library: &Library<'_>,
    view: &LineView<'l>,
    cutter: &mut Cutter<'_>,
    left: &mut Vec<&'l str>,
) -> Result<Option<Candidate>, AllocError>
    ensures { IfOk result (λ found. IfSome found (λ candidate. 0 < candidate.fit.lines)) }
{
    for _ in 0..MOST_FORMS {
        if left.is_empty() {
            break;
        }
        let next = next_candidate(library, view, cutter, left)?;
        if let Some(candidate) = next {
            return Ok(Some(candidate));
        }
        *left = set_aside(view, cutter, left)?;
    }
    Ok(None)
}

fn push_fitting(proposals: &mut Vec<Proposal>, proposal: Proposal) -> Result<(), AllocError>
    requires { 0 < proposal.fit.lines }
    ensures len { OnOk result (vec_len proposals.new ≡ vec_len proposals.old + 1) }
    ensures each { OnOk result (All (λ proposal. 0 < proposal.fit.lines) proposals.old.items
        → All (λ proposal. 0 < proposal.fit.lines) proposals.new.items) }
{
    Ok(proposals.push(proposal)?)
}

/// Proposes patterns for lines, or for events of several lines, in this view. Each is for those that the patterns before
/// it don't fit. There are none if the lines have nothing in common.
pub(crate) fn propose<'l>(
    recognizer: &Recognizer<'_, '_>,
    view: &LineView<'l>,
    lines: &[&'l str],
) -> Result<Vec<Proposal>, AllocError>
    ensures most { IfOk result (λ proposals. vec_len proposals ≤ 3) }
    ensures each { IfOk result (λ proposals. All (λ proposal. 0 < proposal.fit.lines) proposals.items) }
{
    let alloc = view.alloc;
    let mut cutter = Cutter::new(alloc, recognizer.search(alloc)?);
    let mut proposals = Vec::new(alloc);
    let mut left = Vec::from_slice(alloc, lines)?;
    'patterns: while proposals.len() < MOST_PATTERNS
        && left.len() > lines.len() / LINES_FOR_ONE_LEFT
    {
        let next = first_candidate(recognizer.library, view, &mut cutter, &mut left)?;
        let Some(candidate) = next else {
            break;
        };
        left = candidate.unfit_lines(alloc, &left)?;
        let Candidate { text, fit, .. } = candidate;
        push_fitting(&mut proposals, Proposal { text, fit })?;
    }
    Ok(proposals)
}

/// Proposes a pattern for what the lines of a view have after a definition.
fn propose_in<'l>(
    recognizer: &Recognizer<'_, '_>,
    view: &LineView<'l>,
    lines: &[&'l str],
) -> Result<Option<Candidate>, AllocError>
    ensures { IfOk result (λ found. IfSome found (λ candidate. 0 < candidate.fit.lines)) }
{
    let begun = view.begun(aligned_of(lines))?;
    let mut cutter = Cutter::new(view.alloc, recognizer.search(view.alloc)?);
    let template = template_of(view, &mut cutter, &begun)?;
    best_candidate(recognizer.library, view, &template, lines)
}

/// Proposes patterns for the lines that begin with this definition, each with what comes after it.
pub(crate) fn propose_each_after(
    alloc: Global,
    recognizer: &Recognizer<'_, '_>,
    name: &str,
    lines: &[&str],
) -> Result<Vec<Proposal>, AllocError> {
    let found = longest_head(alloc, recognizer.library, &[name], aligned_of(lines))?;
    let Some(head) = found else {
        return Ok(Vec::new(alloc));
    };
    let view = LineView::after(alloc, lines, head)?;
    let begun = view.begun(lines)?;
    propose(recognizer, &view, &begun)
}

/// Proposes a pattern for lines that begin with one of these definitions and continue in one form. It uses
/// the definition that takes most of the lines. Returns `None` if nine lines of ten don't begin with one of
/// them. The definition and the form are found in the first lines, and the pattern is tried on all.
pub(crate) fn propose_after(
    alloc: Global,
    recognizer: &Recognizer<'_, '_>,
    names: &[&str],
    lines: &[&str],
) -> Result<Option<Candidate>, AllocError>
    ensures { IfOk result (λ found. IfSome found (λ candidate. 0 < candidate.fit.lines)) }
{
    let found = longest_head(alloc, recognizer.library, names, aligned_of(lines))?;
    let Some(head) = found else {
        return Ok(None);
    };
    let view = LineView::after(alloc, lines, head)?;
    propose_in(recognizer, &view, lines)
}

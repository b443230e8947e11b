//! Answers each line with the match of the first pattern that matches it.
ghost use Rattle.std.specs.Prelude.{◌≡◌, IfOk, map};
ghost use Rattle.groklog_answers.specs.Layouts.{layout_value};
ghost use Rattle.groklog_answers.specs.LogAnswers.{log_answers_from};
ghost use Rattle.groklog_answers.specs.Views.{pattern_text, patterns_of, layout_of, next_number_of};

use crate::answer_writer::AnswerWriter;
use crate::layout::Layout;
use crate::searched_lines::SearchedLines;
use crate::searches::{NamedPattern, Searches};
use grok_lines::LineAnswers;
use std::alloc::{AllocError, Global};

/// Answers each line with the match of the first of its patterns that matches it, and counts the lines.
pub type LogAnswers<'p> = SearchedLines<'p, AnswerWriter<'p>>;

impl<'p> LogAnswers<'p> {
    /// Makes a `LogAnswers` that tries these patterns on each line, in their order. The first line has
    /// the number 1.
    pub fn new(
        alloc: Global,
        patterns: &'p [NamedPattern<'p>],
        layout: Layout<'p>,
    ) -> Result<LogAnswers<'p>, AllocError>
        ensures patterns { IfOk result (λ answers. patterns_of answers ≡ map pattern_text patterns.now) }
        ensures layout { IfOk result (λ answers. layout_of answers ≡ layout_value layout.entry) }
        ensures number { IfOk result (λ answers. next_number_of answers ≡ 1) }
        ensures answers { IfOk result (λ answers. ⟦<SearchedLines<'p, AnswerWriter<'p>> as LineAnswers>⟧.answer answers
            ≡ log_answers_from (layout_of answers) (patterns_of answers) (next_number_of answers)) }
    {
        let writer = AnswerWriter::new(alloc, layout);
        Ok(SearchedLines::with_task(alloc, Searches::new(alloc, patterns)?, writer))
    }
}

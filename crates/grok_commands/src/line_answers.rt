//! The answers of `match` and of `json` to a line.
ghost use Rattle.std.specs.Prelude.{◌≡◌, ◌++◌, OnOk, OnErr, flat_map};
ghost use Rattle.grok_lines.specs.Pairs.{pair_line};
ghost use Rattle.grok_commands.specs.LineTexts.{not_utf8_text, no_match_text, match_text};
ghost use Rattle.grok.specs.Answers.{walk};
ghost use Rattle.grok.specs.BorrowedMatches.{borrowed_keys, borrowed_captures};

use crate::json_object::object_line;
use grok::{HasMatcher, MatcherOf, MatchesRef};
use grok_lines::{LineAnswers, append_pair};
use std::alloc::{AllocError, Global};

/// How the answer to a line is written.
#[derive(Clone, Copy)]
pub enum LineFormat {
    /// As lines `KEY=VALUE` and an empty line, for `match`.
    Pairs,
    /// As a JSON object, for `json`.
    Object,
}

fn write_pairs(text: &mut Vec<u8>, matches: MatchesRef<'_>) -> Result<(), AllocError>
    ensures { OnOk result (text.new.items ≡ text.old.items
        ++ flat_map pair_line (walk (borrowed_keys matches.entry) (borrowed_captures matches.entry))) }
{
    'pairs: for (key, value) in matches.iter() {
        append_pair(text, key, value)?;
    }
    Ok(())
}

impl LineFormat {
    fn not_utf8(self) -> &'static [u8]
        ensures { result.now ≡ not_utf8_text self }
    {
        match self {
            LineFormat::Pairs => b"not UTF-8\n\n",
            LineFormat::Object => b"false\n",
        }
    }

    #[inline(always)]
    fn no_match(self) -> &'static [u8]
        ensures { result.now ≡ no_match_text self }
    {
        match self {
            LineFormat::Pairs => b"no match\n\n",
            LineFormat::Object => b"null\n",
        }
    }

    /// `pairs` is a buffer, and its old contents are lost.
    fn write_match(
        self,
        alloc: Global,
        text: &mut Vec<u8>,
        pairs: &mut Vec<u8>,
        matches: MatchesRef<'_>,
    ) -> Result<(), AllocError>
        ensures text { OnOk result (text.new.items ≡ text.old.items
            ++ match_text self (walk (borrowed_keys matches.entry) (borrowed_captures matches.entry))) }
        ensures memory { OnErr result (text.new.items ≡ text.old.items) }
    {
        match self {
            LineFormat::Pairs => {
                pairs.clear();
                write_pairs(pairs, matches)?;
                pairs.push(b'\n')?;
                text.extend_from_slice(pairs)
            }
            LineFormat::Object => text.extend_from_slice(&object_line(alloc, matches)?),
        }
    }
}

/// Answers lines with a matcher.
#[derive(Drop)]
pub struct MatchAnswers<'p, E: HasMatcher<'p>> {
    pub alloc: Global,
    pub format: LineFormat,
    pub matcher: MatcherOf<'p, E>,
    /// The buffer for the pairs of one match.
    pub pairs: Vec<u8>,
}

impl<'p, E: HasMatcher<'p>> LineAnswers for MatchAnswers<'p, E> {
    ghost use Rattle.grok_commands.specs.LineTexts.{line_answer};

    ghost answer = { λ answers n. line_answer answers.format
        (E.finds answers.matcher.engine) answers.matcher.keys };

    // This is inlined into the loop over lines, together with what it calls for a line that doesn't
    // match. That is faster.
    #[inline(always)]
    fn answer_str(&mut self, text: &mut Vec<u8>, line: &str) -> Result<(), AllocError> {
        let Some(matches) = self.matcher.find(line)? else {
            return text.extend_from_slice(self.format.no_match());
        };
        self.format
            .write_match(self.alloc, text, &mut self.pairs, matches)
    }

    fn answer_broken(&mut self, text: &mut Vec<u8>, _line: &[u8]) -> Result<(), AllocError> {
        text.extend_from_slice(self.format.not_utf8())
    }
}

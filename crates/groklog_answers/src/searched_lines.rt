//! Searches each line of a log, and gives what was found to a task.
ghost use Rattle.std.specs.Prelude.{◌≡◌, ℕ, ◌+◌, ◌++◌, Ok, Err, IfOk, OnOk, OnErr, string_bytes, if◌then◌else◌};
ghost use Rattle.std.specs.Result.{ForOk, is_ok};
ghost use Rattle.std.specs.Str.Lossy.{utf8_lossy};
ghost use Rattle.grok.specs.{borrowed_line};
ghost use Rattle.groklog_answers.specs.Missed.{missed_with};
ghost use Rattle.groklog_answers.specs.Searches.{patterns_in, next_number_in, matched_in, unmatched_in, broken_in};
ghost use Rattle.groklog_answers.specs.SearchedLines.{found_in};

use crate::layout::Failure;
use crate::missed::Missed;
use crate::searches::{LineMatch, Searches};
use grok_lines::{LineAnswers, SkipLines};
use std::alloc::{AllocError, Global};

/// Whether a task wants more lines.
#[derive(Clone, Copy, PartialEq, Eq)]
pub enum Flow {
    More,
    Enough,
}

/// A line that was searched.
#[derive(Clone, Copy)]
pub struct FoundLine<'l> {
    pub number: u64,
    /// The match of the first pattern that matches the line, or why it has none.
    pub found: Result<LineMatch<'l>, Failure>,
    /// The line. Each part of it that isn't UTF-8 is U+FFFD.
    pub text: &'l str,
    ghost of_line: { ForOk found (λ found. borrowed_line found.matches ≡ text.now) },
}

/// What is done with each line of a log.
pub trait LineTask<'p> {
    ghost use Rattle.std.specs.Prelude.{◌≡◌, ⊤, ℕ, List, ◌++◌, Bool, false, Result, Err, IfOk, OnOk, OnErr};
    ghost use Rattle.groklog_answers.specs.Patterns.{MatchText};
    ghost use Rattle.groklog_answers.specs.Views.{outcome_of};
    ghost use Rattle.groklog_answers.specs.declared.layout.Failure.{Failure};
    ghost use Rattle.groklog_answers.specs.declared.layout.Failure.TheVariants.{NotUtf8};

    // `answer self found n line` is what is written for the line with the number `n` in which this is found.
    ghost answer: { Self → Result MatchText Failure → ℕ → List ℕ → List ℕ };

    // `takes self found n line later` says that the task is `later` after it took this line.
    ghost takes: { Self → Result MatchText Failure → ℕ → List ℕ → Self → Type 0 } = { λ _ _ _ _ _. ⊤ };

    // `begins self name later` says that the task is `later` after it was told that the next lines are of this file.
    ghost begins: { Self → List ℕ → Self → Type 0 } = { λ _ _ _. ⊤ };

    /// Says that the next lines are those of the file with this name.
    fn begin_file(&mut self, name: &'p str)
        ensures { begins self.old name.now self.new };

    /// Returns whether the task needs the text of a line that isn't UTF-8.
    fn needs_broken(&self) -> bool
        ensures { result ≡ false → (n : ℕ) (a b : List ℕ)
            → answer self.now (Err NotUtf8) n a ≡ answer self.now (Err NotUtf8) n b };

    /// Takes the next line, and appends to `out` what is written for it: nothing if the task has enough lines then, or
    /// if an allocation fails.
    fn take(&mut self, line: FoundLine<'_>, out: &mut Vec<u8>) -> Result<Flow, AllocError>
        ensures ok { OnOk result (out.new.items ≡ out.old.items
            ++ answer self.old (outcome_of line.entry.found) line.entry.number line.entry.text.now) }
        ensures enough { IfOk result (λ flow. flow ≡ Flow.Enough → out.new.items ≡ out.old.items) }
        ensures memory { OnErr result (out.new.items ≡ out.old.items) }
        ensures taken { OnOk result (takes self.old (outcome_of line.entry.found) line.entry.number
            line.entry.text.now self.new) }
        ensures same { answer self.new ≡ answer self.old };
}

/// Numbers, counts and searches the lines of a log, and gives each to a task.
///
/// It counts on from one input to the next, so that no two lines have the same number.
#[derive(Drop)]
pub struct SearchedLines<'p, T> {
    alloc: Global,
    /// Finds the matches, and counts the lines.
    pub searches: Searches<'p>,
    /// What the lines of this file showed that no pattern matches.
    pub missed: Missed,
    pub task: T,
    /// Whether the task wants more lines. If it has enough, the line that it took last isn't answered, so that no more
    /// lines are read.
    pub flow: Flow,
}

impl<'p, T: LineTask<'p>> SearchedLines<'p, T> {
    ghost use Rattle.groklog_answers.specs.Searches.{HasCounted, first_index};
    ghost use Rattle.groklog_answers.specs.declared.layout.Failure.TheVariants.{NotUtf8};

    /// Gives each line to this task.
    pub fn with_task(alloc: Global, searches: Searches<'p>, task: T) -> SearchedLines<'p, T>
        ensures searches { result.searches ≡ searches.entry }
        ensures task { result.task ≡ task }
        ensures flow { result.flow ≡ Flow.More }
    {
        SearchedLines {
            alloc,
            searches,
            missed: Missed::none(),
            task,
            flow: Flow::More,
        }
    }

    /// Says that the next lines are those of the file with this name.
    pub fn begin_file(&mut self, name: &'p str)
        ensures begun { T.begins self.old.task name.now self.new.task }
        ensures searches { self.new.searches ≡ self.old.searches }
        ensures returns { self.new.missed.returns ≡ 0 }
        ensures escapes { self.new.missed.escapes ≡ 0 }
        ensures flow { self.new.flow ≡ self.old.flow }
    {
        self.missed = Missed::none();
        self.task.begin_file(name);
    }

    /// Searches the next line, and gives it to the task, which appends to `out` what is written for it.
    #[inline(always)]
    pub fn take_line(&mut self, out: &mut Vec<u8>, line: &str) -> Result<Flow, AllocError>
        ensures ok { OnOk result (out.new.items ≡ out.old.items ++ T.answer self.old.task
            (found_in (patterns_in self.old.searches) line.now) (next_number_in self.old.searches) line.now) }
        ensures enough { IfOk result (λ flow. flow ≡ Flow.Enough → out.new.items ≡ out.old.items) }
        ensures memory { OnErr result (out.new.items ≡ out.old.items) }
        ensures taken { OnOk result (T.takes self.old.task (found_in (patterns_in self.old.searches) line.now)
            (next_number_in self.old.searches) line.now self.new.task) }
        ensures counted { OnOk result (HasCounted self.old.searches self.new.searches
            (first_index (patterns_in self.old.searches) line.now)) }
        ensures number { OnOk result (next_number_in self.new.searches ≡ next_number_in self.old.searches + 1) }
        ensures patterns { patterns_in self.new.searches ≡ patterns_in self.old.searches }
        ensures missed { OnOk result (self.new.missed ≡ (if is_ok (found_in (patterns_in self.old.searches) line.now)
            then self.old.missed else missed_with self.old.missed line.now)) }
        ensures same { T.answer self.new.task ≡ T.answer self.old.task }
    {
        let number = self.searches.next_number;
        let text = line;
        match self.searches.find(line)? {
            Some(found) => {
                let found = Ok(found);
                let searched = FoundLine {
                    number,
                    found,
                    text,
                };
                self.task.take(searched, out)
            }
            None => {
                self.missed = self.missed.with(text);
                let found = Err(Failure::NoMatch);
                let searched = FoundLine {
                    number,
                    found,
                    text,
                };
                self.task.take(searched, out)
            }
        }
    }

    /// Returns the text of a line that isn't UTF-8, with U+FFFD for each wrong part. If the task doesn't
    /// need it, returns the empty text: a large file that isn't text takes little time then.
    fn lossy_text(&self, line: &[u8]) -> Result<String, AllocError>
        ensures { IfOk result (λ text. (n : ℕ) → T.answer self.now.task (Err NotUtf8) n (string_bytes text)
            ≡ T.answer self.now.task (Err NotUtf8) n (utf8_lossy line.now)) }
    {
        if self.task.needs_broken() {
            String::from_utf8_lossy(self.alloc, line)
        } else {
            Ok(String::new(self.alloc))
        }
    }

    /// Numbers and counts a line that isn't UTF-8, and gives it to the task.
    fn take_broken(&mut self, out: &mut Vec<u8>, line: &[u8]) -> Result<Flow, AllocError>
        ensures ok { OnOk result (out.new.items ≡ out.old.items ++ T.answer self.old.task (Err NotUtf8)
            (next_number_in self.old.searches) (utf8_lossy line.now)) }
        ensures enough { IfOk result (λ flow. flow ≡ Flow.Enough → out.new.items ≡ out.old.items) }
        ensures memory { OnErr result (out.new.items ≡ out.old.items) }
        ensures broken { OnOk result (broken_in self.new.searches ≡ broken_in self.old.searches + 1) }
        ensures matched { OnOk result (matched_in self.new.searches ≡ matched_in self.old.searches) }
        ensures unmatched { OnOk result (unmatched_in self.new.searches ≡ unmatched_in self.old.searches) }
        ensures number { OnOk result (next_number_in self.new.searches ≡ next_number_in self.old.searches + 1) }
        ensures patterns { patterns_in self.new.searches ≡ patterns_in self.old.searches }
        ensures same { T.answer self.new.task ≡ T.answer self.old.task }
    {
        let number = self.searches.next_number;
        let lossy = self.lossy_text(line)?;
        self.searches.note_broken()?;
        let line = FoundLine {
            number,
            found: Err(Failure::NotUtf8),
            text: lossy.as_str(),
        };
        self.task.take(line, out)
    }

    /// Ends the line with this number, which the task took with this result. If that failed, or the task has
    /// enough, the next line has the same number.
    #[inline(always)]
    fn end_line(&mut self, number: u64, taken: Result<Flow, AllocError>) -> Result<(), AllocError>
        ensures ok { OnOk result ((taken ≡ Ok Flow.More) × (self.new ≡ self.old)) }
        ensures err { OnErr result (next_number_in self.new.searches ≡ number) }
        ensures stopped { OnErr result (taken ≡ Ok Flow.More → ⊥) }
        ensures enough { taken ≡ Ok Flow.Enough → self.new.flow ≡ Flow.Enough }
        ensures patterns { patterns_in self.new.searches ≡ patterns_in self.old.searches }
        ensures same { self.new.task ≡ self.old.task }
    {
        if let Ok(Flow::More) = taken {
            return Ok(());
        }
        self.searches.next_number = number;
        if let Ok(flow) = taken {
            self.flow = flow;
        }
        // own error: an allocation failed, or there are enough lines, as `flow` says, and no more are read.
        Err(AllocError)
    }
}

impl<'p, T: LineTask<'p>> LineAnswers for SearchedLines<'p, T> {
    ghost use Rattle.groklog_answers.specs.Searches.{patterns_in, next_number_in};
    ghost use Rattle.groklog_answers.specs.SearchedLines.{searched_answers_from};

    ghost answer = { λ lines. searched_answers_from (T.answer lines.task) (patterns_in lines.searches)
        (next_number_in lines.searches) };

    #[inline(always)]
    #[tactic(auto, using(crate::proofs::LinesAreNumbered::counts_on))]
    fn answer_str(&mut self, text: &mut Vec<u8>, line: &str) -> Result<(), AllocError> {
        let number = self.searches.next_number;
        let taken = self.take_line(text, line);
        self.end_line(number, taken)
    }

    #[inline(never)]
    #[tactic(auto, using(crate::proofs::LinesAreNumbered::counts_on))]
    fn answer_broken(&mut self, text: &mut Vec<u8>, line: &[u8]) -> Result<(), AllocError> {
        let number = self.searches.next_number;
        let taken = self.take_broken(text, line);
        self.end_line(number, taken)
    }
}

impl<'p, T: LineTask<'p>> SkipLines for SearchedLines<'p, T> {
    #[tactic(auto, using(crate::proofs::LinesAreNumbered::counts_on))]
    fn skip_lines(&mut self, count: u64) -> Result<(), AllocError> {
        self.searches.skip_lines(count)
    }
}

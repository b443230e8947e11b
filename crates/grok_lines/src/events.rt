//! Answers events of several lines, where a test decides which lines begin an event.
ghost use Rattle.std.specs.Prelude.{◌≡◌, ◌≤◌, ◌<◌, ◌+◌, ◌∷◌, ◌++◌, [], ℕ, List, true, false, OnOk, OnErr, IfOk};
ghost use Rattle.grok_lines.specs.Lines.{line_feed};
ghost use Rattle.grok_lines.specs.Streams.{AreAnswersAfter};

use crate::handler::LineHandler;
use crate::line_answers::LineAnswers;
use std::alloc::{AllocError, Global};
use std::mem;
use std::num::NonZeroU64;

/// Decides which lines are starts, that is, begin an event. A line that isn't UTF-8 is none.
pub trait EventStarts {
    ghost use Rattle.std.specs.Prelude.{ℕ, List, Bool};

    // `starts self line` says whether this line is a start.
    ghost starts: { Self → List ℕ → Bool };

    /// Returns whether the line is a start.
    fn is_start(&mut self, line: &str) -> Result<bool, AllocError>
        ensures ok { IfOk result (λ is_start. is_start ≡ starts self.old line.now) }
        ensures same { starts self.new ≡ starts self.old };
}

/// Answers to lines, of which the next ones can be skipped: they are counted, and nothing is written for
/// them.
pub trait SkipLines: LineAnswers {
    /// Leaves out the answers to the next `count` lines. Does nothing if that fails.
    ///
    /// # Errors
    ///
    /// If the lines have no numbers any more.
    fn skip_lines(&mut self, count: u64) -> Result<(), AllocError>
        ensures next { OnOk result (AreAnswersAfter count (Self.answer self.old) (Self.answer self.new)) }
        ensures same { OnErr result (Self.answer self.new ≡ Self.answer self.old) };
}

/// Reads lines as events, and has `answers` answer each event as one line: its lines, joined by line feeds. The number
/// of an event is that of its first line.
///
/// An event begins at each line that `start` decides to be a start. Other lines belong to the event before them. An
/// event ends as well if it has as many lines as an event may have, and at the end of the input. It is answered once it
/// has ended.
#[derive(Drop)]
pub struct EventAnswers<A, S> {
    /// Answers the events.
    pub answers: A,
    start: S,
    /// How many lines an event has at most.
    most: u64,
    /// The lines of the event so far, joined by line feeds.
    event: Vec<u8>,
    /// How many lines the event has so far. If that is 0, no event has begun.
    line_count: u64,
    /// How many lines after its first line the last answered event had. `answers` has yet to skip them.
    passed: u64,
    /// The buffer for the first line of the next event.
    next: Vec<u8>,
    ghost room: { line_count < most },
}

/// Before the call, `passed` is how many lines the event before this one had after its first line. After
/// it, `passed` is how many lines this event has after its first line.
fn answer_event<A: SkipLines>(
    answers: &mut A,
    passed: &mut u64,
    text: &mut Vec<u8>,
    event: &[u8],
    line_count: u64,
) -> Result<(), AllocError>
    requires { 1 ≤ line_count }
    ensures ok { OnOk result (text.new.items ≡ text.old.items ++ A.answer answers.old passed.old event.now) }
    ensures memory { OnErr result (text.new.items ≡ text.old.items) }
    ensures next { OnOk result ((n : ℕ) → A.answer answers.new (passed.new + n)
        ≡ A.answer answers.old (passed.old + (line_count + n))) }
    ensures same { OnErr result ((n : ℕ) → A.answer answers.new (passed.new + n)
        ≡ A.answer answers.old (passed.old + n)) }
{
    answers.skip_lines(*passed)?;
    *passed = 0;
    answers.answer_line(text, event)?;
    *passed = line_count - 1;
    Ok(())
}

fn join(event: &mut Vec<u8>, line: &[u8]) -> Result<(), AllocError>
    ensures ok { OnOk result (event.new.items ≡ event.old.items ++ line_feed ∷ line.now) }
    ensures memory { OnErr result (event.new.items ≡ event.old.items) }
{
    let size = event.len();
    event.push(b'\n')?;
    if let Err(error) = event.extend_from_slice(line) {
        event.truncate(size);
        return Err(error);
    }
    Ok(())
}

impl<A: SkipLines, S: EventStarts> EventAnswers<A, S> {
    ghost use Rattle.std.specs.Str.{is_utf8};
    ghost use Rattle.std.specs.Int.NonZero.{non_zero_u64_get};
    ghost use Rattle.grok_lines.specs.Events.{line_starts, AnswersEvents};
    ghost use Rattle.grok_lines.specs.EventViews.{event_state};
    ghost use Rattle.grok_lines.specs.EventStates.{begins_event, answer_so_far, answer_if_full, after_begin, after_more, ended_if_full};

    /// Makes an `EventAnswers` of events that have `most` lines at most.
    pub fn new(alloc: Global, answers: A, start: S, most: NonZeroU64) -> EventAnswers<A, S>
        ensures answers { result.answers ≡ answers }
        ensures events { AnswersEvents (A.answer answers) (line_starts (S.starts start)) (non_zero_u64_get most)
            (⟦<EventAnswers<A, S> as LineHandler>⟧.answers result)
            (⟦<EventAnswers<A, S> as LineHandler>⟧.first_answers result) }
    {
        EventAnswers {
            answers,
            start,
            most: most.get(),
            event: Vec::new(alloc),
            line_count: 0,
            passed: 0,
            next: Vec::new(alloc),
        }
    }

    fn begins(&mut self, line: &str) -> Result<bool, AllocError>
        requires { is_utf8 line.now ≡ true }
        ensures ok { IfOk result (λ begins. begins
            ≡ begins_event (event_state A.answer S.starts self.old) line.now) }
        ensures more { IfOk result (λ begins. begins ≡ false → 1 ≤ self.new.line_count) }
        ensures same { event_state A.answer S.starts self.new ≡ event_state A.answer S.starts self.old }
    {
        if self.line_count == 0 {
            return Ok(true);
        }
        self.start.is_start(line)
    }

    fn begin_event(&mut self, text: &mut Vec<u8>, line: &[u8]) -> Result<(), AllocError>
        ensures ok { OnOk result (text.new.items ≡ text.old.items
            ++ (answer_so_far (event_state A.answer S.starts self.old)
            ++ answer_if_full (after_begin line.now (event_state A.answer S.starts self.old)))) }
        ensures memory { OnErr result (text.new.items ≡ text.old.items) }
        ensures next { OnOk result (event_state A.answer S.starts self.new
            ≡ ended_if_full (after_begin line.now (event_state A.answer S.starts self.old))) }
        ensures same { OnErr result (event_state A.answer S.starts self.new ≡ event_state A.answer S.starts self.old) }
    {
        if self.most == 1 {
            return answer_event(&mut self.answers, &mut self.passed, text, line, 1);
        }
        self.next.clear();
        self.next.extend_from_slice(line)?;
        if self.line_count > 0 {
            let (event, line_count) = (&self.event, self.line_count);
            answer_event(&mut self.answers, &mut self.passed, text, event, line_count)?;
        }
        mem::swap(&mut self.event, &mut self.next);
        self.line_count = 1;
        Ok(())
    }

    fn add_line(&mut self, text: &mut Vec<u8>, line: &[u8]) -> Result<(), AllocError>
        requires { 1 ≤ self.old.line_count }
        ensures ok { OnOk result (text.new.items ≡ text.old.items
            ++ answer_if_full (after_more line.now (event_state A.answer S.starts self.old))) }
        ensures memory { OnErr result (text.new.items ≡ text.old.items) }
        ensures next { OnOk result (event_state A.answer S.starts self.new
            ≡ ended_if_full (after_more line.now (event_state A.answer S.starts self.old))) }
        ensures same { OnErr result (event_state A.answer S.starts self.new ≡ event_state A.answer S.starts self.old) }
    {
        let size = self.event.len();
        join(&mut self.event, line)?;
        let line_count = self.line_count + 1;
        if line_count < self.most {
            self.line_count = line_count;
            return Ok(());
        }
        let event = &self.event;
        if let Err(error) = answer_event(
            &mut self.answers,
            &mut self.passed,
            text,
            event,
            line_count,
        ) {
            self.event.truncate(size);
            return Err(error);
        }
        self.line_count = 0;
        Ok(())
    }
}

impl<A, S: Drop> EventAnswers<A, S> {
    /// Returns what answered the events.
    pub fn into_answers(self) -> A
        ensures { result ≡ self.answers }
    {
        self.answers
    }
}

impl<A: SkipLines, S: EventStarts> LineHandler for EventAnswers<A, S> {
    ghost use Rattle.std.proofs.Common.{refl};
    ghost use Rattle.grok_lines.specs.EventViews.{event_state};
    ghost use Rattle.grok_lines.specs.EventStates.{answer_so_far, answers_after, IsNextState};

    ghost answers = { λ events. answers_after answer_so_far (event_state A.answer S.starts events) };

    ghost first_answers = { λ events. answers_after (λ state. []) (event_state A.answer S.starts events) };

    ghost is_next = { λ events lines later. IsNextState (event_state A.answer S.starts events) lines
        (event_state A.answer S.starts later) };

    fn handle_str(&mut self, text: &mut Vec<u8>, line: &str) -> Result<(), AllocError> {
        if self.begins(line)? {
            return self.begin_event(text, line.as_bytes());
        }
        self.add_line(text, line.as_bytes())
    }

    fn handle_broken(&mut self, text: &mut Vec<u8>, line: &[u8]) -> Result<(), AllocError> {
        if self.line_count == 0 {
            return self.begin_event(text, line);
        }
        self.add_line(text, line)
    }

    fn end_input(&mut self, text: &mut Vec<u8>) -> Result<(), AllocError> {
        if self.line_count > 0 {
            let (event, line_count) = (&self.event, self.line_count);
            answer_event(&mut self.answers, &mut self.passed, text, event, line_count)?;
            self.line_count = 0;
        }
        Ok(())
    }

    ghost none_first = { λ events. refl };
}

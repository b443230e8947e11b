//! Lines that are answered, and what is added to the fields of their answers.
ghost use Rattle.std.specs.Prelude.{◌≡◌, option_map};
ghost use Rattle.grok.specs.Numeral.{numeral};

use crate::layout::{Addition, Failure, Layout, Lines};
use crate::searches::LineMatch;

/// A line with its number.
#[derive(Clone, Copy)]
pub struct NumberedLine<'l> {
    pub number: u64,
    pub text: &'l str,
}

/// A line that is answered: how, and with which match or why it has no fields.
#[derive(Clone, Copy)]
pub struct AnsweredLine<'l> {
    pub layout: &'l Layout<'l>,
    pub found: Result<LineMatch<'l>, Failure>,
    pub line: NumberedLine<'l>,
    /// The number of the line in decimal.
    pub digits: &'l str,
    ghost digits_are: { digits.now ≡ numeral line.number },
}

impl AnsweredLine<'_> {
    ghost use Rattle.grok.specs.Captures.{text_of};
    ghost use Rattle.groklog_answers.specs.AnsweredTexts.{added_text};
    ghost use Rattle.groklog_answers.specs.LogAnswers.{is_answered};
    ghost use Rattle.groklog_answers.specs.Views.{answered_text};

    /// Returns the text that is added to the answer, or `None` if the line doesn't have it.
    pub fn added(&self, what: Addition) -> Option<&str>
        ensures { option_map text_of result ≡ added_text (answered_text self.now) what }
    {
        match what {
            Addition::Number => Some(self.digits),
            Addition::File => Some(self.layout.file_name),
            Addition::Failed => match &self.found {
                Ok(_) => None,
                Err(why) => Some(why.words()),
            },
            Addition::Tag => match &self.found {
                Ok(found) => Some(found.named.tag),
                Err(_) => None,
            },
            Addition::Line => Some(self.line.text),
        }
    }

    /// Returns whether the line is among those that are answered.
    pub fn is_answered(&self) -> bool
        ensures { result ≡ is_answered self.now.layout.now.lines (answered_text self.now).found }
    {
        match self.layout.lines {
            Lines::All => true,
            Lines::Matched => matches!(self.found, Ok(_)),
            Lines::Unmatched => matches!(self.found, Err(_)),
        }
    }
}

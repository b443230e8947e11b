//! Matches that are written.
ghost use Rattle.std.specs.Prelude.{◌≡◌, ◌++◌, OnOk};
ghost use Rattle.json.specs.Tree.{json_tokens};
ghost use Rattle.groklog_answers.specs.Values.{json_value};

use crate::layout::Layout;
use crate::searches::NamedPattern;
use crate::values::write_value;
use grok::MatchesRef;
use json::Writer;
use std::alloc::{AllocError, Global};

/// A match of a pattern, with the layout of its answer.
#[derive(Clone, Copy)]
pub struct Found<'m> {
    pub layout: &'m Layout<'m>,
    pub named: NamedPattern<'m>,
    pub matches: MatchesRef<'m>,
}

impl Found<'_> {
    ghost use Rattle.groklog_answers.specs.PlannedFields.{extract_for};
    ghost use Rattle.groklog_answers.specs.Views.{found_layout, found_text};

    /// Writes a value of this key. If the layout is typed, the extract of the key decides whether it is
    /// written as a number.
    pub fn write_value(
        &self,
        alloc: Global,
        writer: &mut Writer,
        key: &str,
        value: &str,
    ) -> Result<(), AllocError>
        ensures value { OnOk result (writer.new.tokens ≡ writer.old.tokens ++ json_tokens (json_value
            (extract_for (found_layout self.now).typed (found_text self.now).extracts key.now) value.now)) }
        ensures before { writer.new.before ≡ writer.old.before }
    {
        let extract = if self.layout.typed {
            self.named.pattern.get_extract(key)
        } else {
            None
        };
        write_value(alloc, writer, extract, value)
    }
}

//! A definition with its pieces.
ghost use Rattle.std.specs.Prelude.{◌≡◌, IfOk};
ghost use Rattle.grok.specs.steps.Spans.{AreSpansOf};

use crate::defs::spans::{Span, spans_of};
use std::alloc::{AllocError, Global};
use std::fmt;
use std::marker::Model;

/// A text with its pieces, which are kept as byte ranges of it, so that it is split only once.
#[derive(Drop)]
pub(crate) struct Definition {
    text: String,
    spans: Vec<Span>,
}

impl Model for Definition {
    ghost use Rattle.std.specs.Prelude.{List, ℕ};
    ghost use Rattle.std.specs.String.{string_bytes};
    ghost use Rattle.grok.specs.steps.Spans.{AreSpansOf};

    ghost Value = { List ℕ };

    ghost view = { λ s. string_bytes s.text };

    ghost invariant = { λ s. AreSpansOf (string_bytes s.text) s.spans.items };
}

impl Definition {
    pub fn new(alloc: Global, text: &str) -> Result<Definition, AllocError>
        ensures { IfOk result (λ definition. definition ≡ text.now) }
    {
        Ok(Definition {
            text: String::from_str(alloc, text)?,
            spans: spans_of(alloc, text)?,
        })
    }

    pub fn text(&self) -> &str
        ensures { result.now ≡ self.now }
    {
        self.text.as_str()
    }

    pub fn spans(&self) -> &[Span]
        ensures { AreSpansOf self.now result.now }
    {
        self.spans.as_slice()
    }
}

impl fmt::Debug for Definition {
    ghost use Rattle.std.specs.Fmt.{debug_str};

    ghost debug_output = { debug_str };

    fn fmt<W: fmt::Write>(&self, f: &mut fmt::Formatter<W>) -> fmt::Result {
        fmt::Debug::fmt(self.text(), f)
    }
}

impl Clone for Definition {
    ghost is_clone = { λ s t. t ≡ s };

    fn clone(&self) -> Result<Definition, AllocError> {
        Ok(Definition {
            text: self.text.clone()?,
            spans: self.spans.clone()?,
        })
    }
}

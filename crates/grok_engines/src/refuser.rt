//! An engine that refuses every text.
use crate::bare::Bare;
use grok::{Engine, Refusal};
use std::alloc::{AllocError, Global};

/// An engine that refuses every text, so that no value of this type is ever made. Its methods are those of `Bare`.
#[derive(Drop)]
pub struct Refuser {
    bare: Bare,
}

impl Engine for Refuser {
    ghost source_of = { λ engine. ⟦<Bare as Engine>⟧.source_of engine.bare };

    ghost group_names = { λ engine. ⟦<Bare as Engine>⟧.group_names engine.bare };

    ghost finds = { λ engine. ⟦<Bare as Engine>⟧.finds engine.bare };

    ghost may_refuse = { λ _. Unit {0} };

    fn build(_alloc: Global, _text: &str) -> Result<Refuser, Refusal> {
        Err(Refusal::Refused)
    }

    fn text(&self) -> &str {
        self.bare.text()
    }

    fn names(&self) -> &[Option<String>] {
        self.bare.names()
    }

    fn captures<'t>(
        &self,
        alloc: Global,
        line: &'t str,
    ) -> Result<Option<Vec<Option<&'t str>>>, AllocError> {
        self.bare.captures(alloc, line)
    }
}

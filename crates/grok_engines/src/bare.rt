//! An engine that has only group 0.
ghost use Rattle.std.specs.Prelude.{◌≡◌, length, string_bytes};
ghost use Rattle.grok.specs.Captures.{name_texts};
ghost use Rattle.grok_engines.specs.Wholes.{whole_line};

use grok::{Engine, Refusal};
use std::alloc::{AllocError, Global};

/// An engine that accepts every text, has only group 0, and matches each line as a whole. Its `build` keeps the text
/// and makes one allocation.
#[derive(Drop)]
pub struct Bare {
    text: String,
    names: [Option<String>; 1],
    ghost one: { length names ≡ 1 },
}

impl Engine for Bare {
    ghost source_of = { λ engine. string_bytes engine.text };

    ghost group_names = { λ engine. name_texts engine.names };

    ghost finds = { λ _. whole_line };

    ghost may_refuse = { λ _. ⊥ };

    fn build(alloc: Global, text: &str) -> Result<Bare, Refusal> {
        match String::from_str(alloc, text) {
            Ok(text) => Ok(Bare {
                text,
                names: [None],
            }),
            Err(_) => Err(Refusal::Memory),
        }
    }

    fn text(&self) -> &str {
        self.text.as_str()
    }

    fn names(&self) -> &[Option<String>] {
        self.names.as_slice()
    }

    #[tactic(auto, using(crate::proofs::WholeLines::whole))]
    fn captures<'t>(
        &self,
        alloc: Global,
        line: &'t str,
    ) -> Result<Option<Vec<Option<&'t str>>>, AllocError> {
        let mut captures = Vec::new(alloc);
        captures.push(Some(line))?;
        Ok(Some(captures))
    }
}

//! An example of an engine of one's own. It knows no regular expressions: it matches lines that
//! begin with its text.
ghost use Rattle.std.specs.Prelude.{◌≡◌, length, string_bytes};
ghost use Rattle.grok.specs.{name_texts};
ghost use Rattle.grok_uses.specs.Uses.{prefix_answer};

use grok::{Engine, Refusal};
use std::alloc::{AllocError, Global};

/// An engine that matches a line if the line begins with its text. It has only group 0.
#[derive(Drop)]
pub(crate) struct Prefix {
    text: String,
    names: [Option<String>; 1],
    ghost one: { length names ≡ 1 },
}

impl Engine for Prefix {
    ghost source_of = { λ engine. string_bytes engine.text };

    ghost group_names = { λ engine. name_texts engine.names };

    ghost finds = { λ engine. prefix_answer (string_bytes engine.text) };

    ghost may_refuse = { λ _. ⊥ };

    fn build(alloc: Global, text: &str) -> Result<Prefix, Refusal> {
        match String::from_str(alloc, text) {
            Ok(text) => Ok(Prefix {
                text,
                names: [None],
            }),
            Err(_) => Err(Refusal::Memory),
        }
    }

    fn text(&self) -> &str {
        self.text.as_str()
    }

    fn names(&self) -> &[Option<String>] {
        self.names.as_slice()
    }

    #[tactic(auto, using(crate::proofs::Slices::whole_line))]
    fn captures<'t>(
        &self,
        alloc: Global,
        line: &'t str,
    ) -> Result<Option<Vec<Option<&'t str>>>, AllocError> {
        if !line.as_bytes().starts_with(self.text.as_bytes()) {
            return Ok(None);
        }
        let mut captures = Vec::new(alloc);
        captures.push(Some(line))?;
        Ok(Some(captures))
    }
}

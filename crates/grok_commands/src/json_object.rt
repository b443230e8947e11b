//! The pairs of a match as a JSON object, which `serde_json` writes.
ghost use Rattle.std.specs.Prelude.{◌≡◌, ◌++◌, ◌∷◌, [], IfOk};
ghost use Rattle.grok_commands.specs.JsonEvents.{SendsObject};
ghost use Rattle.grok_commands.specs.JsonObjects.{object_text, ReadsBack};
ghost use Rattle.grok.specs.Answers.{walk};
ghost use Rattle.grok.specs.BorrowedMatches.{borrowed_keys, borrowed_captures};

use grok::MatchesRef;
use serde::{Described, Serialize, Serializer};
use std::alloc::{AllocError, Global};

/// The JSON object of a match. Each pair is a member, and its value is a string.
#[derive(Clone, Copy)]
struct MatchObject<'m>(MatchesRef<'m>);

impl<'m> Described for MatchObject<'m> {
    ghost writes = { λ object. SendsObject (walk (borrowed_keys object.0) (borrowed_captures object.0)) };
}

impl<'m> Serialize for MatchObject<'m> {
    fn serialize<S: Serializer>(&self, out: &mut S) -> Result<(), S::Error> {
        out.begin_map(None)?;
        'pairs: for (key, value) in self.0.iter() {
            out.key(key)?;
            out.str(value)?;
        }
        out.end_map()
    }
}

/// Returns the pairs of a match as a JSON object, with no spaces between keys and values, and a line
/// feed.
pub fn object_line(alloc: Global, matches: MatchesRef<'_>) -> Result<Vec<u8>, AllocError>
    ensures object { IfOk result (λ line. line.items
        ≡ object_text (walk (borrowed_keys matches.entry) (borrowed_captures matches.entry)) ++ 10 ∷ []) }
    ensures reads_back { IfOk result (λ _. ReadsBack (walk (borrowed_keys matches.entry)
        (borrowed_captures matches.entry))
        (object_text (walk (borrowed_keys matches.entry) (borrowed_captures matches.entry)))) }
{
    // Serializing fails only if an allocation fails.
    let Ok(mut line) = serde_json::to_vec(alloc, &MatchObject(matches)) else {
        // own error: `serde_json` reported an error. Writing a map of texts into memory fails only
        // if an allocation does.
        return Err(AllocError);
    };
    line.push(b'\n')?;
    Ok(line)
}

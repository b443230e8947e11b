//! Laws of the definitions that the contracts of the splitter use. The function does nothing: the
//! laws are its contract, and that is proved.
ghost use Rattle.std.specs.Prelude.{◌≡◌, ℕ, ◌++◌, List, [], ◌∷◌, length};
ghost use Rattle.grok_parser.specs.Grammar.{NonePass};
ghost use Rattle.grok_parser.specs.Joined.{joined_pieces, AreWellFormed, AreRegular};
ghost use Rattle.grok_parser.specs.Pieces.{Piece, Parts, Placeholder, Malformed, pieces, is_brace};
ghost use Rattle.grok_parser.specs.Tiles.{Tile};

use crate::parser::GrokPatternError;

/// Laws of the pieces of a text.
///
/// The ranges of the pieces follow each other without a gap, from the start of the text to its end
/// or to a fault. A fault is always the last piece, so there is at most one. If there is none, the
/// pieces together are the whole text. A text without braces has regular pieces only, and the
/// definition in a placeholder is such a text. If the text of a placeholder is split by itself, its
/// one piece is that placeholder.
#[tactic(auto, using(crate::proofs::PieceLaws::laws))]
pub fn pieces()
    ensures tile { (text : List ℕ) → Tile text 0 (pieces text) }
    ensures last { (text : List ℕ) (before after : List Piece) (fault : GrokPatternError)
        → pieces text ≡ before ++ Malformed fault ∷ after → after ≡ [] }
    ensures join { (text : List ℕ) → AreWellFormed (pieces text) → joined_pieces (pieces text) ≡ text }
    ensures regular { (text : List ℕ) → NonePass is_brace text → AreRegular (pieces text)
        × (joined_pieces (pieces text) ≡ text) }
    ensures inline { (text : List ℕ) (before after : List Piece) (from to : ℕ) (pattern : List ℕ)
        (parts : Parts) →
        pieces text ≡ before ++ Placeholder from to pattern parts ∷ after
        → NonePass is_brace parts.definition }
    ensures alone { (text : List ℕ) (before after : List Piece) (from to : ℕ) (pattern : List ℕ)
        (parts : Parts) →
        pieces text ≡ before ++ Placeholder from to pattern parts ∷ after → pieces pattern
        ≡ Placeholder 0 (length pattern) pattern parts ∷ [] }
{}

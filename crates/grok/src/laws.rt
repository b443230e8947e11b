//! Laws of the definitions that the contracts use. Each function does nothing: the law is its
//! contract, and that is proved.
ghost use Rattle.std.specs.Prelude.{◌≡◌, ◌≢◌, ◌++◌, List, ℕ, ◌∷◌, Some, None};
ghost use Rattle.std.specs.FinMap as finite;
ghost use Rattle.grok.specs.Maps.{Texts, set_all};
ghost use Rattle.grok.specs.Named.{NoneNames};

pub mod answers;
pub mod keys;
pub mod tree;

pub use grok_parser::laws::pieces;

/// Laws of the definitions of a library.
///
/// The empty library has no text for any name. If a text is set for a name, that name has it, and
/// every other name keeps what it had. If pairs are set one after another, the last pair of a name
/// counts.
#[tactic(auto, using(crate::proofs::Texts::SettingOneName::sets))]
pub fn definitions()
    ensures none { (name : List ℕ) → finite.get (let texts : Texts = finite.empty in texts) name
        ≡ None }
    ensures set { (texts : Texts) (name text : List ℕ) → finite.get
        (finite.insert texts name text) name ≡ Some text }
    ensures kept { (texts : Texts) (name text other : List ℕ) → other ≢ name
        → finite.get (finite.insert texts name text) other ≡ finite.get texts other }
    ensures last { (texts : Texts) (before after : List (List ℕ × List ℕ)) (name text : List ℕ)
        → NoneNames after name → finite.get (set_all texts (before ++ (name, text) ∷ after)) name
        ≡ Some text }
    ensures others { (texts : Texts) (pairs : List (List ℕ × List ℕ)) (name : List ℕ)
        → NoneNames pairs name → finite.get (set_all texts pairs) name ≡ finite.get texts name }
{}

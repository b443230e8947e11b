//! Laws of all key tables and of all matches.
ghost use Rattle.grok.specs.AnswerLaws.{WalksHaveTheAnsweredKeys, AnswersAreThoseOfTheWalk, GeneratedNamesMeanTheirKeys, OtherNamesMeanThemselves, GroupsAreTheGreatest};

/// `iter` has exactly the keys of `capture_names` for which `get` returns a text, in the same order.
/// `get` returns a text exactly if `iter` has a pair of that key and text.
#[tactic(auto, using(crate::proofs::KeyTables::WalksHaveAnsweredKeys::walks_have_the_answered_keys))]
pub fn answers_and_walks_agree()
    ensures keys { WalksHaveTheAnsweredKeys }
    ensures pairs { AnswersAreThoseOfTheWalk }
{}

/// A generated name means the key of its number, and any other name means itself. The group of a
/// key is the greatest whose name means it.
#[tactic(auto, using(crate::proofs::KeyTables::WalksHaveAnsweredKeys::generated_names_mean_their_keys, crate::proofs::KeyTables::WalksHaveAnsweredKeys::other_names_mean_themselves, crate::proofs::KeyTables::GroupIsGreatest::groups_are_the_greatest))]
pub fn names_mean_keys()
    ensures generated { GeneratedNamesMeanTheirKeys }
    ensures other { OtherNamesMeanThemselves }
    ensures greatest { GroupsAreTheGreatest }
{}

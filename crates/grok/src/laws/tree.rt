//! Laws of what placeholders stand for, and of the first structural fault. Each function does
//! nothing: the laws are its contract, and that is proved.
ghost use Rattle.grok.specs.TreeLaws.{OwnDefinitionHolds, EarlierDefinitionHolds, StoredDefinitionHolds, UnusedDefinitionsDoNotMatter, ModesFaultAlike, HeadsAloneDiffer};

/// An inline definition holds from its placeholder to the next one that defines the same name, or
/// to the end of its text. It holds in no other text.
#[tactic(auto, using(crate::proofs::Trees::TreeLawsHold::tree_laws))]
pub fn laws_of_definitions()
    ensures own { OwnDefinitionHolds }
    ensures earlier { EarlierDefinitionHolds }
    ensures stored { StoredDefinitionHolds }
{}

/// A fault in a definition that isn't reached is never reported. Both modes have the same first
/// structural fault, and the same text except for the heads of its groups.
#[tactic(auto, using(crate::proofs::Trees::TreeLawsHold::tree_laws))]
pub fn laws_of_faults()
    ensures unused { UnusedDefinitionsDoNotMatter }
    ensures modes { ModesFaultAlike }
    ensures heads { HeadsAloneDiffer }
{}

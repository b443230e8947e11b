//! Laws of the definitions that the contract of `run` uses. The function does nothing: the laws are
//! its contract, and that is proved.
ghost use Rattle.grok_commands.specs.CommandLaws.{CommandsAreTheirWords, OtherWordsAreNoCommand};

/// Laws of the words of a command line: which words are read as which command.
///
/// Words are read as one of the five commands exactly if they have the form of that command. Words
/// that have none of the five forms are read as no command.
#[tactic(auto, using(crate::proofs::CommandLaws::commands_are_their_words, crate::proofs::CommandLaws::other_words_are_no_command))]
pub fn commands()
    ensures both { CommandsAreTheirWords }
    ensures other { OtherWordsAreNoCommand }
{}

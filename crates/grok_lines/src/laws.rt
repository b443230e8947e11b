//! Laws of the definition of lines, of the answers to them, and of events. The functions do nothing: the laws
//! are their contracts, and that is proved.
ghost use Rattle.grok_lines.specs.LineLaws.{AnswersByLinesAlone, AnswersGoOn, InputsAreTheirLines, NoLineHoldsALineFeed, OnlyTheLastMayLackItsLineFeed, NoOtherLinesMakeUpAnInput, NoOtherEvents};
ghost use Rattle.grok_lines.specs.EventStates.{StatesAnswerEvents};

/// Laws of the lines of an input.
///
/// The lines, joined with their line feeds, are the input. No line has a line feed in it. Only the
/// last line may lack its line feed, and then it isn't empty. No other lines make up the input.
#[tactic(auto, using(crate::proofs::LineLaws::inputs_are_their_lines, crate::proofs::LineLaws::no_line_holds_a_line_feed, crate::proofs::LineLaws::only_the_last_may_lack_its_line_feed, crate::proofs::LineLaws::no_other_lines_make_up_an_input))]
pub fn lines()
    ensures join { InputsAreTheirLines }
    ensures free { NoLineHoldsALineFeed }
    ensures last { OnlyTheLastMayLackItsLineFeed }
    ensures only { NoOtherLinesMakeUpAnInput }
{}

/// Laws of the answers to lines.
///
/// If an answer doesn't depend on how many lines came before, the answers to some lines are the answers to each of
/// them by itself, one after another. If the numbers of a second list of lines go on after those of a first one, the
/// answers to the first and then to the second are the answers to both as one list.
#[tactic(auto, using(crate::proofs::AnswersAreNumberedOn::answers_by_lines_alone, crate::proofs::AnswersAreNumberedOn::answers_go_on))]
pub fn answers()
    ensures alone { AnswersByLinesAlone }
    ensures more { AnswersGoOn }
{}

/// Laws of events.
///
/// What `EventAnswers` writes, if it has no event yet, are the answers to the events of the lines of the input. No other
/// events have these lines.
#[tactic(auto, using(crate::proofs::EventsAreAnswered::states_answer_events, crate::proofs::EventsAreAnswered::no_other_events))]
pub fn events()
    ensures answered { StatesAnswerEvents }
    ensures only { NoOtherEvents }
{}

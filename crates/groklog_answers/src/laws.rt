//! Laws of the answers. The functions do nothing: each states a law in its contract, which is
//! proved.
ghost use Rattle.groklog_answers.specs.AnswerLaws.{FirstThatMatchesAnswers, NoneThatMatchesIsNoMatch, EachLineIsAnswered, EachAnswerIsOfOneKind, EachLineHasItsNumber, WithoutNumbersLinesStandAlone, EachValueIsAtItsPlace, AnswersReadBack, ObjectsAreLines};

/// States that the match of the first pattern that matches a line is the one that is written, and
/// that there is no match if no pattern matches.
#[tactic(auto, using(crate::proofs::AnswerLaws::first_that_matches_answers, crate::proofs::AnswerLaws::none_that_matches_is_no_match))]
pub fn patterns()
    ensures first { FirstThatMatchesAnswers }
    ensures none { NoneThatMatchesIsNoMatch }
{}

/// States that with `Lines::All` each line has an answer. For each line, one of `Lines::Matched`
/// and `Lines::Unmatched` gives the same answer, and the other one gives an empty answer.
#[tactic(auto, using(crate::proofs::AnswerLaws::each_line_is_answered, crate::proofs::AnswerLaws::each_answer_is_of_one_kind))]
pub fn lines()
    ensures all { EachLineIsAnswered }
    ensures one { EachAnswerIsOfOneKind }
{}

/// States that the number of a line is how many lines came before it, plus 1. If no number is
/// written, an answer depends on its line alone.
#[tactic(auto, using(crate::proofs::LinesAreNumbered::each_line_has_its_number, crate::proofs::LinesAreNumbered::without_numbers_lines_stand_alone))]
pub fn numbers()
    ensures each { EachLineHasItsNumber }
    ensures none { WithoutNumbersLinesStandAlone }
{}

/// States that nested members have the values of the plan's fields at their places, in the order of the
/// plan, and no other values.
#[tactic(auto, using(crate::proofs::ValuesAreInPlace::each_value_is_at_its_place))]
pub fn plans()
    ensures { EachValueIsAtItsPlace }
{}

/// States that a JSON answer is one line, unless it is empty. Read as JSON, the object of a line
/// has the members that were written, in the same order. The plans are those of `Plan`, whose
/// objects are nested no deeper than readers of JSON take them.
#[tactic(auto, using(crate::proofs::ObjectsReadBack::answers_read_back, crate::proofs::ObjectsAreLines::objects_are_lines))]
pub fn objects()
    ensures read_back { AnswersReadBack }
    ensures lines { ObjectsAreLines }
{}

//! Laws over the definitions: each is the contract of a function that does nothing.
ghost use Rattle.ira_pred.specs.QuestionLaws.{EachQuestionHasOneText, NoTextIsTwoQuestions, NoQuestionTextHasFaults, NoTextHasTwoFaults, NoTextIsOutOfMemory, EachTextHasAnAnswer, TextsAreAsDeepAsClauses};

/// Each question has exactly one text, if that isn't too long.
pub fn each_question_has_one_text()
    ensures { EachQuestionHasOneText }
{}

/// A text is the text of one question at the most.
pub fn no_text_is_two_questions()
    ensures { NoTextIsTwoQuestions }
{}

/// The parentheses of a clause's text are nested too deep exactly where the clause is.
pub fn texts_are_as_deep_as_clauses()
    ensures { TextsAreAsDeepAsClauses }
{}

/// A text has one answer: it is a question's, or it has one fault, which isn't that memory ran out.
pub fn a_question_text_has_one_answer()
    ensures answer { EachTextHasAnAnswer }
    ensures question_or_fault { NoQuestionTextHasFaults }
    ensures one_fault { NoTextHasTwoFaults }
    ensures memory { NoTextIsOutOfMemory }
{}

//! Laws over the definitions: each is the contract of a function that does nothing.
ghost use Rattle.ira_ask.specs.Laws.{QuestionsMeanTheirSentences, QuestionsHaveTexts, NoTextIsTwoSentences};

/// A cut meets a case of a sentence's question exactly where the sentence holds of it.
pub fn questions_mean_their_sentences()
    ensures { QuestionsMeanTheirSentences }
{}

/// The question of a sentence has a text.
pub fn questions_have_texts()
    ensures { QuestionsHaveTexts }
{}

/// A text is of one sentence at the most.
pub fn no_text_is_two_sentences()
    ensures { NoTextIsTwoSentences }
{}

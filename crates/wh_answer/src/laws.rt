//! Laws of answers. Each is the contract of a function that does nothing.
ghost use Rattle.wh_answer.specs.Laws.{AnswerIsUnique, AnswersAreReadable, ValidShows};

/// A problem and a limit have one status that answers it, and one text, unless a list is to be straightened.
pub fn unique_answers()
    ensures { AnswerIsUnique }
{}

/// What is answered to a problem that was read is a certificate whose text isn't too long, where it can be checked.
pub fn readable_answers()
    ensures { AnswersAreReadable }
{}

/// What a valid certificate shows, whoever wrote it.
pub fn valid_certificates()
    ensures { ValidShows }
{}

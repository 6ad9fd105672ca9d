//! What holds of the server over any requests, as the contract of a function that does nothing.
ghost use Rattle.rosa_box.specs.Laws.{AnswersAreOne, IdsStayApart, KeptStay, TakenAreKept};

/// What is kept stays with the same bytes, no two documents come to be kept under one id, a request has one answer at
/// most, and where the answer is 201 the document is kept.
pub fn submissions_stay()
    ensures kept { KeptStay }
    ensures ids { IdsStayApart }
    ensures answers { AnswersAreOne }
    ensures taken { TakenAreKept }
{}

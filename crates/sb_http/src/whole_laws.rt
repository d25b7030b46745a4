// What holds of all whole responses.
ghost use Rattle.sb_http.specs.WholeResponses.{AreOneResponse};
ghost use Rattle.sb_http.specs.WorkedResponses.{WorkedResponses};

/// Bytes are one whole response at most.
pub fn one_response()
    ensures { AreOneResponse }
{}

/// The definitions say of whole responses what was worked out by hand.
pub fn worked_responses()
    ensures { WorkedResponses }
{}

// What holds of all streams of requests, and of all responses.
ghost use Rattle.sb_http.specs.Streams.{AreTheRequests, BeginsWithOne};
ghost use Rattle.sb_http.specs.Responses.{ResponsesAreRead};
ghost use Rattle.sb_http.specs.Worked.{Worked};

/// A stream has no other requests than those that were read of it, however it was cut.
pub fn no_other_requests()
    ensures { AreTheRequests }
{}

/// Bytes begin with at most one request, whatever follows them.
pub fn one_request()
    ensures { BeginsWithOne }
{}

/// What is written of a response is read as that response.
pub fn responses_are_read()
    ensures { ResponsesAreRead }
{}

/// The definitions say of streams and responses what was worked out by hand.
pub fn worked_streams()
    ensures { Worked }
{}

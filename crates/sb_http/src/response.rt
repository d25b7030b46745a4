// Responses.
ghost use Rattle.std.specs.Prelude.{◌≡◌};
ghost use Rattle.sb_http.specs.Responses.{code_of, phrase_of};

/// The status of a response (RFC 9110, section 15): the final ones that this broker answers.
#[derive(Clone, Copy, PartialEq, Eq)]
pub enum Status {
    Ok,
    Created,
    NoContent,
    BadRequest,
    Unauthorized,
    Forbidden,
    NotFound,
    MethodNotAllowed,
    Conflict,
    Gone,
    PayloadTooLarge,
    HeaderFieldsTooLarge,
    InternalServerError,
    ServiceUnavailable,
}

/// A header of a response. It is written as it stands, so its name is to be a token, and its value
/// without control bytes.
#[derive(Drop)]
pub struct Header {
    pub name: Vec<u8>,
    pub value: Vec<u8>,
}

/// A response. Content-Length and Connection are written beside the headers, so they are not among
/// them; at `NoContent` the body is to be empty.
#[derive(Drop)]
pub struct Response {
    pub status: Status,
    /// The headers in the order in which they are written.
    pub headers: Vec<Header>,
    pub body: Vec<u8>,
    /// Whether the connection ends with it.
    pub closes: bool,
}

impl Status {
    /// The three digits.
    pub fn code(self) -> u16
        ensures { result ≡ code_of self }
    {
        match self {
            Status::Ok => 200,
            Status::Created => 201,
            Status::NoContent => 204,
            Status::BadRequest => 400,
            Status::Unauthorized => 401,
            Status::Forbidden => 403,
            Status::NotFound => 404,
            Status::MethodNotAllowed => 405,
            Status::Conflict => 409,
            Status::Gone => 410,
            Status::PayloadTooLarge => 413,
            Status::HeaderFieldsTooLarge => 431,
            Status::InternalServerError => 500,
            Status::ServiceUnavailable => 503,
        }
    }

    /// The phrase behind them.
    pub fn phrase(self) -> &'static [u8]
        ensures { result.now ≡ phrase_of self }
    {
        match self {
            Status::Ok => b"OK",
            Status::Created => b"Created",
            Status::NoContent => b"No Content",
            Status::BadRequest => b"Bad Request",
            Status::Unauthorized => b"Unauthorized",
            Status::Forbidden => b"Forbidden",
            Status::NotFound => b"Not Found",
            Status::MethodNotAllowed => b"Method Not Allowed",
            Status::Conflict => b"Conflict",
            Status::Gone => b"Gone",
            Status::PayloadTooLarge => b"Payload Too Large",
            Status::HeaderFieldsTooLarge => b"Request Header Fields Too Large",
            Status::InternalServerError => b"Internal Server Error",
            Status::ServiceUnavailable => b"Service Unavailable",
        }
    }
}

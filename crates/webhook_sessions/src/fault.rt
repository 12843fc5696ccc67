use http::Method;
use wf_value::Refusal;

/// Why no command is submitted for a request.
#[derive(Drop)]
pub enum Fault {
    /// The bytes begin with no head of at most 8,192 bytes and 64 fields: 400, 70.
    BadHead,
    /// The body comes in a transfer coding, or an event states no length: 411, 71.
    NoLength,
    /// `Content-Length` is repeated, or is not one to nine digits: 400, 71.
    BadLength,
    /// The body is over 65,536 bytes: 413, 24.
    TooLong,
    /// The delivery id or the event name is missing, repeated or malformed: 400, 74.
    EventHeader,
    /// The target names nothing: 404, 72.
    NoPath,
    /// The path has another method, this one: 405, 73.
    WrongMethod(Method),
    /// The body cannot be admitted: 422, with its first fault.
    Unprocessable(Refusal),
}

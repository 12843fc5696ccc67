ghost use Rattle.std.specs.Prelude.{◌≡◌};
ghost use Rattle.view_sessions.specs.Faults.{fault_content, fault_ends, fault_status};

use http::StatusCode;

/// Why a request gets an error.
#[derive(Clone, Copy, PartialEq, Eq)]
pub enum ViewFault {
    /// The bytes begin with no head of at most 8,192 bytes and 64 fields.
    BadRequest,
    /// The request has a body.
    BodyNotAllowed,
    UnknownPath,
    MethodNotAllowed,
    UnknownParameter,
    BadParameter,
    UnknownRun,
    /// The cursor is not known any more.
    UnknownCursor,
    /// The device has failed, and the service ends.
    DeviceFailed,
    /// The text of the table does not fit an area of the file.
    AreaFull,
    NoMemory,
}

impl ViewFault {
    pub fn status(self) -> StatusCode
        ensures { result ≡ fault_status self }
    {
        match self {
            ViewFault::BadRequest | ViewFault::BodyNotAllowed => StatusCode::BAD_REQUEST,
            ViewFault::UnknownParameter | ViewFault::BadParameter => StatusCode::BAD_REQUEST,
            ViewFault::UnknownPath | ViewFault::UnknownRun => StatusCode::NOT_FOUND,
            ViewFault::MethodNotAllowed => StatusCode::METHOD_NOT_ALLOWED,
            ViewFault::UnknownCursor => StatusCode::GONE,
            ViewFault::DeviceFailed | ViewFault::AreaFull => StatusCode::SERVICE_UNAVAILABLE,
            ViewFault::NoMemory => StatusCode::SERVICE_UNAVAILABLE,
        }
    }

    /// Whether the session ends with the error.
    pub fn ends(self) -> bool
        ensures { result ≡ fault_ends self }
    {
        match self {
            ViewFault::BadRequest | ViewFault::BodyNotAllowed => true,
            ViewFault::DeviceFailed | ViewFault::NoMemory => true,
            ViewFault::UnknownPath | ViewFault::MethodNotAllowed => false,
            ViewFault::UnknownParameter | ViewFault::BadParameter => false,
            ViewFault::UnknownRun | ViewFault::UnknownCursor | ViewFault::AreaFull => false,
        }
    }

    /// The content of the answer: a code and a sentence, as JSON.
    pub fn content(self) -> &'static str
        ensures { result.now ≡ fault_content self }
    {
        match self {
            ViewFault::BadRequest => {
                "{\"code\":\"bad_request\",\"message\":\"These bytes are no head of an HTTP/1.1 request of at most 8192 bytes and 64 fields.\"}\n"
            }
            ViewFault::BodyNotAllowed => {
                "{\"code\":\"body_not_allowed\",\"message\":\"A request to this port has no body.\"}\n"
            }
            ViewFault::UnknownPath => {
                "{\"code\":\"unknown_path\",\"message\":\"There is nothing at this path.\"}\n"
            }
            ViewFault::MethodNotAllowed => {
                "{\"code\":\"method_not_allowed\",\"message\":\"Only GET and HEAD are allowed here.\"}\n"
            }
            ViewFault::UnknownParameter => {
                "{\"code\":\"unknown_parameter\",\"message\":\"This path has no parameter of this name.\"}\n"
            }
            ViewFault::BadParameter => {
                "{\"code\":\"bad_parameter\",\"message\":\"A parameter has no value, occurs twice, or has a value of another form.\"}\n"
            }
            ViewFault::UnknownRun => {
                "{\"code\":\"unknown_run\",\"message\":\"There is no run with this id.\"}\n"
            }
            ViewFault::UnknownCursor => {
                "{\"code\":\"unknown_cursor\",\"message\":\"The changes after this cursor are not known any more: list again.\"}\n"
            }
            ViewFault::DeviceFailed => {
                "{\"code\":\"device_failed\",\"message\":\"The disk has failed, and the service ends.\"}\n"
            }
            ViewFault::AreaFull => {
                "{\"code\":\"area_full\",\"message\":\"The table does not fit an area of the file: make a store with larger areas.\"}\n"
            }
            ViewFault::NoMemory => {
                "{\"code\":\"no_memory\",\"message\":\"The service has run out of memory.\"}\n"
            }
        }
    }
}

//! The lengths of the parts of an area and of a record, in bytes.

/// The length of a gate.
pub const GATE: u64 = 1;

/// The length of an area's version.
pub const VERSION: u64 = 1;

/// The length of an area's generation.
pub const GENERATION: u64 = 8;

/// The length of the number that says how long an area's text is.
pub const TEXT_LENGTH: u64 = 8;

/// The length of what stands between an area's gate and its text: the version, the generation and the length of the text.
pub const HEAD: u64 = VERSION + GENERATION + TEXT_LENGTH;

/// The length of the number that says how long a record's body is. It stands before the body.
pub const LENGTH: u64 = 4;

/// The length of a record beside its body: the number before the body, and the gate after it.
pub const FRAME: u64 = LENGTH + GATE;

/// The length of an area's beginning up to and with its generation.
pub const PREFIX_LEN: u64 = GATE + VERSION + GENERATION;

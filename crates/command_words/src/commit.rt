//! The commit from which the program is built. `make build` writes its name here, in a copy of the sources.

/// The version of the program, and its commit.
pub const VERSION: &str = "0.1.0 (no commit named)";

//! Texts of the tests that are too long to write out.

use std::alloc::Global;
use wf_value::Refusal;

/// The concatenated pieces, each repeated the given number of times.
pub fn repeated(alloc: Global, pieces: &[(&str, usize)]) -> Result<String, Refusal> {
    let mut text = String::new(alloc);
    for (piece, times) in pieces {
        for _ in 0..*times {
            text.push_str(piece)?;
        }
    }
    Ok(text)
}

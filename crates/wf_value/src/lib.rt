//! The values that all parts of the service share: texts, scalars, combinations, conditions, results and refusals.
#![tactic(auto)]

mod chars;
mod code;
mod combo;
mod condition;
mod matrix;
mod outcome;
mod refusal;
mod same;
mod scalar;
mod sequence;
mod try_copy;

pub use chars::Chars;
pub use code::Code;
pub use combo::Combo;
pub use condition::Condition;
pub use matrix::{Matrix, Variable};
pub use outcome::{JobResult, Outcome};
pub use refusal::Refusal;
pub use same::{Same, same_items};
pub use scalar::Scalar;
pub use sequence::Sequence;
pub use try_copy::{TryCopy, copy_items};

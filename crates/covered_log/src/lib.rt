//! The changes of a service as lines: its covered entries, and the runs and legs that these have changed. The last lines are kept.
#![tactic(auto)]

mod displaced;
mod kept;
mod log;
mod looking;
mod moved;
mod page;
mod standings;
mod told;

pub use kept::KEPT;
pub use log::CoveredLog;
pub use looking::Look;
pub use page::{PAGE, Page};
pub use standings::Standings;

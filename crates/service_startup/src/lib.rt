//! What a service does before its first client, and the lines that it prints.
#![tactic(auto)]

mod opened;
mod reports;
mod upgrade;

pub use opened::Opened;
pub use reports::{tell_ready, tell_settled};
pub use upgrade::brought_up;

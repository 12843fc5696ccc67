//! What a table keeps of the runs that it has forgotten, so that ids and numbers go on and a delivery makes no second run.
#![tactic(auto)]

mod delivery_indexes;
mod forgotten;
mod kept_deliveries;
mod parts;
mod workflow_counts;

pub use delivery_indexes::{DeliveryIndexes, string_of};
pub use forgotten::ForgottenRuns;
pub use parts::ForgottenParts;
pub use workflow_counts::WorkflowCount;

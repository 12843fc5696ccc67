//! Concurrency groups and their names. GitHub Docs, "Control the concurrency of workflows and jobs".
#![tactic(auto)]

mod bound_group;
mod bound_pieces;
mod group_key;
mod key_room;
mod keys;
pub mod laws;

pub use bound_group::BoundGroup;
pub use bound_pieces::same_pieces;
pub use group_key::GroupKey;
pub use key_room::KeyRoom;

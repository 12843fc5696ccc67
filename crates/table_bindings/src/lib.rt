//! What a run and its legs ask of concurrency groups and of runners: their contexts, and the templates bound in them when an attempt
//! begins.
#![tactic(auto)]

mod bindings;
mod flags;
mod github_context;
mod group_keys;
mod groups;
pub mod label_numbers;
mod leg_context;
mod leg_needs;
mod leg_view;
mod plain_labels;
pub mod resolved_labels;
mod run_context;
mod run_identity;
mod same;
mod shared;

pub use bindings::{JobBindings, RunBindings};
pub use group_keys::{GroupKeys, HolderKey, KnownGroup};
pub use groups::{BoundFlag, GroupRequest};
pub use label_numbers::ListNumbers;
pub use leg_view::LegView;
pub use resolved_labels::ResolvedLabels;
pub use shared::Shared;

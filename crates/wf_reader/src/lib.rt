//! Reads the bytes of a body as an event or a workflow: an event's envelope with its contexts, and a workflow with its jobs. The
//! faults of a body form a list in a fixed order, and the refusal is the first of them.
#![tactic(auto)]

mod body;
mod concurrency;
mod condition;
mod contexts;
mod event;
mod fields;
mod flag;
mod job;
mod job_id;
mod jobs;
mod labels;
mod matrix;
mod needs;
mod patterns;
mod scalars;
mod strategy;
mod templates;
mod values;
mod workflow;

pub use body::{MAX_BODY, read_body};
pub use concurrency::{Concurrency, is_concurrency, read_group};
pub use condition::{condition_in, conditions_are_their_encodings};
pub use contexts::Contexts;
pub use event::{Event, read_event};
pub use flag::{Flag, flag_of};
pub use job::Job;
pub use job_id::{MAX_ID, is_job_id};
pub use jobs::Jobs;
pub use labels::read_label;
pub use matrix::is_variable_name;
pub use scalars::scalar_of;
pub use strategy::{MAX_PARALLEL, Strategy, has_strategy_names, max_parallel_in};
pub use workflow::{MAX_JOBS, Workflow, read_workflow};

//! The plan of a workflow, and the commands and replies of the service.
#![tactic(auto)]

mod boxed_lease;
mod checking;
mod combo_text;
mod command;
mod decimal;
mod form;
mod job_graph;
mod job_legs;
mod labels;
mod last_command;
mod number;
mod planned;
mod planned_workflow;
mod planning;
mod prepared;
mod reply;
mod same_templates;
mod shared_body;
mod small_text;
mod utf8;

pub use boxed_lease::BoxedLease;
pub use checking::check_plan;
pub use combo_text::text_of_combo;
pub use command::{Attempt, Beat, Claim, Command, Done};
pub use decimal::decimal_of;
pub use form::{DeliveryForm, EventForm, Form, LabelForm, RunnerForm};
pub use job_graph::graph_of;
pub use job_legs::JobLegs;
pub use labels::{Labels, MAX_LABELS};
pub use last_command::{ClaimReply, KeptLease, LastCommand};
pub use number::{LAST_NUMBER, Number};
pub use planned::{Plan, PlannedJob, PlannedLeg};
pub use planning::plan;
pub use prepared::{Prepared, prepare, prepare_beside};
pub use reply::{Lease, Reply};
pub use shared_body::SharedBody;
pub use small_text::{DeliveryId, EventName, Label, MAX_TEXT_BYTES, RunnerName, SmallText};

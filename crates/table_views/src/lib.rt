//! What an operator sees of a table: the lines of its runs, its runners and its queue, as text or as JSON, and pages of long lists as JSON.
#![tactic(auto)]

mod bodies;
mod change_lines;
mod claim;
mod form;
mod group_filter;
mod group_holders;
mod groups;
mod known_runners;
mod lease_names;
mod leg_counts;
mod members;
mod metric_lines;
mod named_counts;
mod newest_runs;
mod one_run;
mod pages;
mod queue;
mod ready_counts;
mod ready_legs;
mod run_counts;
mod run_filter;
mod run_legs;
mod run_rows;
mod runners;
mod runs;
mod sites;
mod table_metrics;
mod texts;
mod told_legs;
mod waiting;

pub use bodies::run_body;
pub use change_lines::{
    attempt_line, entry_line, forgotten_line, leg_change_line, run_change_line,
};
pub use form::Form;
pub use group_filter::GroupFilter;
pub use group_holders::holder_page;
pub use known_runners::{index_after, runner_page};
pub use lease_names::LeaseNames;
pub use metric_lines::{one_more, push_head, push_metric, push_value};
pub use newest_runs::runs_page;
pub use one_run::run_view;
pub use queue::queue_text;
pub use ready_legs::ready_page;
pub use run_filter::RunFilter;
pub use runners::runners_text;
pub use runs::run_line;
pub use table_metrics::push_table_metrics;
pub use told_legs::{LegNews, leg_news};

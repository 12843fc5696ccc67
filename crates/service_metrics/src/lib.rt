//! The metrics of a service: what it has done since it began, how it stands, and the numbers of its table, in Prometheus' text format.
#![tactic(auto)]

mod commit_times;
mod counters;
mod gauges;
mod metrics;
mod refusal_counts;

pub use counters::Counters;
pub use gauges::Gauges;
pub use metrics::metrics_text;

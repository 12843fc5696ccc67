//! What a service has done since it began.

ghost use Rattle.std.specs.Prelude.{◌≡◌, ◌++◌, OnOk, string_bytes};
ghost use Rattle.std.specs.Duration.{as_nanos};
ghost use Rattle.table_views.specs.MetricLines.{capped};
ghost use Rattle.service_metrics.specs.Counters.{Done, count_lines, counters_of, nothing_done, with_entry, with_commit};

use crate::commit_times::{BOUNDS, Bucket, add_commit, longer, nanos_of, no_commits, push_commits};
use crate::refusal_counts::{NUMBERS, RefusalCount, add_reply, no_refusals, push_refusals};
use run_plan::Reply;
use std::alloc::{AllocError, Global};
use std::marker::Model;
use std::time::Duration;
use table_views::{one_more, push_metric};

/// Counts since a service began.
#[derive(Drop)]
pub struct Counters {
    entries: u64,
    refusals: [RefusalCount; NUMBERS],
    buckets: [Bucket; BOUNDS],
    commits: u64,
    /// How many nanoseconds the commits took together.
    nanos: u64,
}

impl Model for Counters {
    ghost use Rattle.service_metrics.specs.Counters.{CountersState};

    ghost Value = { CountersState };

    ghost view = { λ c. record { entries = c.entries; refusals = c.refusals; buckets = c.buckets; commits = c.commits; nanos = c.nanos } };
}

impl Counters {
    /// The counts of a service that begins now.
    /// Promise (Views of a service): What the service has done is counted exactly: each entry once, each refusal at its number, and each commit
    ///   in each bucket whose bound it does not exceed
    /// By: `service_metrics::Counters::{new, entered, committed}` (`counters_of`)
    pub fn new() -> Counters
        ensures { result ≡ counters_of nothing_done }
    {
        Counters {
            entries: 0,
            refusals: no_refusals(),
            buckets: no_commits(),
            commits: 0,
            nanos: 0,
        }
    }

    /// An entry with this reply was made durable.
    pub fn entered(&mut self, reply: &Reply)
        ensures { (done : Done) → self.old ≡ counters_of done → self.new ≡ counters_of (with_entry done reply.now) }
    {
        one_more(&mut self.entries);
        add_reply(self.refusals.as_mut_slice(), reply);
    }

    /// A commit took so long.
    pub fn committed(&mut self, took: Duration)
        ensures { (done : Done) → self.old ≡ counters_of done → self.new ≡ counters_of (with_commit done (capped (as_nanos took))) }
    {
        let nanos = nanos_of(took);
        add_commit(self.buckets.as_mut_slice(), nanos);
        one_more(&mut self.commits);
        self.nanos = longer(self.nanos, nanos);
    }

    /// Appends the lines of the entries, of the refusals and of the commits.
    pub(crate) fn push(&self, alloc: Global, text: &mut String) -> Result<(), AllocError>
        ensures { OnOk result (string_bytes text.new ≡ string_bytes text.old ++ count_lines self.now) }
    {
        push_metric(
            alloc,
            text,
            "acts_entries_total",
            "counter",
            "Entries of the history since the service began.",
            self.entries,
        )?;
        push_refusals(alloc, text, self.refusals.as_slice())?;
        push_commits(
            alloc,
            text,
            self.buckets.as_slice(),
            self.commits,
            self.nanos,
        )
    }
}

//! How long commits took, as a histogram.

ghost use Rattle.std.specs.Prelude.{◌≡◌, ◌+◌, ◌++◌, OnOk, flat_map, map, string_bytes};
ghost use Rattle.std.specs.Duration.{as_nanos};
ghost use Rattle.table_views.specs.MetricLines.{capped};
ghost use Rattle.service_metrics.specs.CommitTimes.{bounds, bucket_line, commit_lines, empty, line_of, seconds_text, sum_line, with_commit};

use std::alloc::{AllocError, Global};
use std::time::Duration;
use table_views::{one_more, push_head, push_value};

/// How many buckets there are.
pub(crate) const BOUNDS: usize = 14;

/// How many commits took at most so many nanoseconds.
#[derive(Drop)]
pub struct Bucket {
    pub nanos: u64,
    pub count: u64,
}

impl Bucket {
    /// A commit took so many nanoseconds.
    fn add(&mut self, nanos: u64)
        ensures { self.new ≡ with_commit nanos self.old }
    {
        if nanos <= self.nanos {
            one_more(&mut self.count);
        }
    }
}

/// No commit.
fn empty(nanos: u64) -> Bucket
    ensures { result ≡ empty nanos }
{
    Bucket { nanos, count: 0 }
}

/// Buckets without a commit.
pub(crate) fn no_commits() -> [Bucket; BOUNDS]
    ensures { result ≡ map empty bounds }
{
    [
        empty(100_000),
        empty(250_000),
        empty(500_000),
        empty(1_000_000),
        empty(2_500_000),
        empty(5_000_000),
        empty(10_000_000),
        empty(25_000_000),
        empty(50_000_000),
        empty(100_000_000),
        empty(250_000_000),
        empty(500_000_000),
        empty(1_000_000_000),
        empty(2_500_000_000),
    ]
}

/// A bound in seconds, as it is printed.
fn seconds_text(nanos: u64) -> &'static str
    ensures { result.now ≡ seconds_text nanos }
{
    match nanos {
        100_000 => "0.0001",
        250_000 => "0.00025",
        500_000 => "0.0005",
        1_000_000 => "0.001",
        2_500_000 => "0.0025",
        5_000_000 => "0.005",
        10_000_000 => "0.01",
        25_000_000 => "0.025",
        50_000_000 => "0.05",
        100_000_000 => "0.1",
        250_000_000 => "0.25",
        500_000_000 => "0.5",
        1_000_000_000 => "1",
        2_500_000_000 => "2.5",
        _ => "+Inf",
    }
}

/// A duration in nanoseconds.
pub(crate) fn nanos_of(took: Duration) -> u64
    ensures { result ≡ capped (as_nanos took) }
{
    match u64::try_from(took.as_nanos()) {
        Ok(nanos) => nanos,
        Err(_) => u64::MAX,
    }
}

/// How long commits took together.
pub(crate) fn longer(nanos: u64, took: u64) -> u64
    ensures { result ≡ capped (nanos + took) }
{
    nanos.saturating_add(took)
}

/// A commit took so many nanoseconds.
pub(crate) fn add_commit(buckets: &mut [Bucket], nanos: u64)
    ensures { buckets.new ≡ map (with_commit nanos) buckets.old }
{
    for bucket in buckets.iter_mut() {
        bucket.add(nanos);
    }
}

fn push_bucket(alloc: Global, text: &mut String, bound: &str, count: u64) -> Result<(), AllocError>
    ensures { OnOk result (string_bytes text.new ≡ string_bytes text.old ++ bucket_line bound.now count) }
{
    let labels = format!(in alloc; "{{le=\"{bound}\"}}")?;
    push_value(
        alloc,
        text,
        "acts_commit_seconds_bucket",
        labels.as_str(),
        count,
    )
}

fn push_buckets(alloc: Global, text: &mut String, buckets: &[Bucket]) -> Result<(), AllocError>
    ensures { OnOk result (string_bytes text.new ≡ string_bytes text.old ++ flat_map line_of buckets.now) }
{
    for bucket in buckets {
        push_bucket(alloc, text, seconds_text(bucket.nanos), bucket.count)?;
    }
    Ok(())
}

fn push_sum(alloc: Global, text: &mut String, nanos: u64) -> Result<(), AllocError>
    ensures { OnOk result (string_bytes text.new ≡ string_bytes text.old ++ sum_line nanos) }
{
    let line = format!(in alloc; "acts_commit_seconds_sum {nanos}e-9\n")?;
    text.push_str(line.as_str())
}

/// Appends the lines of the histogram: `commits` is how many there were, and `nanos` how long they took together.
pub(crate) fn push_commits(
    alloc: Global,
    text: &mut String,
    buckets: &[Bucket],
    commits: u64,
    nanos: u64,
) -> Result<(), AllocError>
    ensures { OnOk result (string_bytes text.new ≡ string_bytes text.old ++ commit_lines buckets.now commits nanos) }
{
    push_head(
        alloc,
        text,
        "acts_commit_seconds",
        "histogram",
        "How long commits took.",
    )?;
    push_buckets(alloc, text, buckets)?;
    push_bucket(alloc, text, "+Inf", commits)?;
    push_sum(alloc, text, nanos)?;
    push_value(alloc, text, "acts_commit_seconds_count", "", commits)
}

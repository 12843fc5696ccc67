//! How a service stands: its program, its clients and its file.

ghost use Rattle.std.specs.Prelude.{◌≡◌, ◌++◌, OnOk, string_bytes};
ghost use Rattle.service_metrics.specs.Gauges.{build_lines, client_lines, file_lines, program_lines, silence_lines, standing_lines, version_line};

use std::alloc::{AllocError, Global};
use table_views::{push_head, push_metric, push_value};

/// How a service stands: the version of its program, the seconds since it began, how many clients each port has, for how many seconds the
/// runner with a lease that is silent for longest was not heard, and for how many the first run has been the first, the length of an area and
/// its room, its generation, and how many checkpoints were finished.
#[derive(Clone, Copy)]
pub struct Gauges<'a> {
    pub version: &'a str,
    pub uptime: u64,
    pub hooks: u64,
    pub runners: u64,
    pub views: u64,
    pub silence: u64,
    pub standing: u64,
    pub area: u64,
    pub room: u64,
    pub generation: u64,
    pub checkpoints: u64,
}

fn push_version(alloc: Global, text: &mut String, version: &str) -> Result<(), AllocError>
    ensures { OnOk result (string_bytes text.new ≡ string_bytes text.old ++ version_line version.now) }
{
    let labels = format!(in alloc; "{{version=\"{version}\"}}")?;
    push_value(alloc, text, "acts_build_info", labels.as_str(), 1)
}

/// Appends the lines of the program's version.
fn push_build(alloc: Global, text: &mut String, version: &str) -> Result<(), AllocError>
    ensures { OnOk result (string_bytes text.new ≡ string_bytes text.old ++ build_lines version.now) }
{
    push_head(alloc, text, "acts_build_info", "gauge", "The program.")?;
    push_version(alloc, text, version)
}

/// Appends the lines of the program.
pub(crate) fn push_program(
    alloc: Global,
    text: &mut String,
    version: &str,
    uptime: u64,
) -> Result<(), AllocError>
    ensures { OnOk result (string_bytes text.new ≡ string_bytes text.old ++ program_lines version.now uptime) }
{
    push_build(alloc, text, version)?;
    push_metric(
        alloc,
        text,
        "acts_uptime_seconds",
        "gauge",
        "Seconds since the service began.",
        uptime,
    )
}

/// Appends the lines of the clients of the three ports.
pub(crate) fn push_clients(
    alloc: Global,
    text: &mut String,
    hooks: u64,
    runners: u64,
    views: u64,
) -> Result<(), AllocError>
    ensures { OnOk result (string_bytes text.new ≡ string_bytes text.old ++ client_lines hooks runners views) }
{
    push_head(
        alloc,
        text,
        "acts_clients",
        "gauge",
        "Connected clients by port.",
    )?;
    push_value(alloc, text, "acts_clients", "{port=\"hook\"}", hooks)?;
    push_value(alloc, text, "acts_clients", "{port=\"runner\"}", runners)?;
    push_value(alloc, text, "acts_clients", "{port=\"view\"}", views)
}

/// Appends the lines of the longest silence of a runner with a lease.
pub(crate) fn push_silence(alloc: Global, text: &mut String, silence: u64) -> Result<(), AllocError>
    ensures { OnOk result (string_bytes text.new ≡ string_bytes text.old ++ silence_lines silence) }
{
    push_metric(
        alloc,
        text,
        "acts_longest_silence_seconds",
        "gauge",
        "Seconds since the runner with a lease that is silent for longest was heard.",
        silence,
    )
}

/// Appends the lines of the time for which the first run that is not forgotten has been the first.
pub(crate) fn push_standing(
    alloc: Global,
    text: &mut String,
    standing: u64,
) -> Result<(), AllocError>
    ensures { OnOk result (string_bytes text.new ≡ string_bytes text.old ++ standing_lines standing) }
{
    push_metric(
        alloc,
        text,
        "acts_first_run_seconds",
        "gauge",
        "Seconds since the run after the forgotten ones became the first, or since the service began.",
        standing,
    )
}

/// Appends the lines of the file.
pub(crate) fn push_file(
    alloc: Global,
    text: &mut String,
    gauges: &Gauges<'_>,
) -> Result<(), AllocError>
    ensures { OnOk result (string_bytes text.new ≡ string_bytes text.old ++ file_lines gauges.now.area gauges.now.room gauges.now.generation gauges.now.checkpoints) }
{
    push_metric(
        alloc,
        text,
        "acts_area_bytes",
        "gauge",
        "The length of an area of the file.",
        gauges.area,
    )?;
    push_metric(
        alloc,
        text,
        "acts_area_room_bytes",
        "gauge",
        "What is left for records in the active area.",
        gauges.room,
    )?;
    push_metric(
        alloc,
        text,
        "acts_store_generation",
        "gauge",
        "The generation of the active area.",
        gauges.generation,
    )?;
    push_metric(
        alloc,
        text,
        "acts_checkpoints_total",
        "counter",
        "Checkpoints that were finished.",
        gauges.checkpoints,
    )
}

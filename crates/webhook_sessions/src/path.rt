ghost use Rattle.std.specs.Prelude.{◌≡◌, ◌==◌, Ok, Some, None, option_map, position};
ghost use Rattle.wf_value.specs.Gives.{Gives};
ghost use Rattle.webhook_sessions.specs.Paths.{after_prefix, at_slash, before_end, method_of, part_of_run, path_of, run_path, runner_path};

use http::Method;
use run_plan::{Attempt, Number, RunnerName};
use std::alloc::Global;
use wf_value::Refusal;

/// What the target of a request names.
#[derive(Drop)]
pub enum Path {
    /// `/events`
    Events,
    /// `/runs/RUN`
    Run(Number),
    /// `/runs/RUN/body`
    Body(Number),
    /// `/runs/RUN/cancel`
    Cancel(Number),
    /// `/runs/RUN/attempts/ATTEMPT`
    Attempt(Attempt),
    /// `/runs/RUN/forget`
    Forget(Number),
    /// `/runners/NAME/lost`
    Lost(RunnerName),
    /// `/runners/NAME/forget`
    Discharge(RunnerName),
}

impl Path {
    /// The path of a target, or `None` if it names nothing.
    pub fn of(alloc: Global, target: &[u8]) -> Result<Option<Path>, Refusal>
        ensures { Gives (λ p. p) result (Ok (path_of target.now)) }
    {
        if target == b"/events".as_slice() {
            return Ok(Some(Path::Events));
        }
        if let Some(rest) = after_prefix(b"/runs/", target) {
            return Ok(run_path(rest));
        }
        match after_prefix(b"/runners/", target) {
            Some(rest) => runner_path(alloc, rest),
            None => Ok(None),
        }
    }

    /// The method of the path.
    pub fn method(&self) -> Method
        ensures { result ≡ method_of self.now }
    {
        match self {
            Path::Run(_) | Path::Body(_) => Method::GET,
            Path::Events
            | Path::Cancel(_)
            | Path::Attempt(_)
            | Path::Forget(_)
            | Path::Lost(_)
            | Path::Discharge(_) => Method::POST,
        }
    }
}

/// The bytes after a prefix, if they begin with it.
fn after_prefix<'a>(prefix: &[u8], bytes: &'a [u8]) -> Option<&'a [u8]>
    ensures { option_map (λ rest. rest.now) result ≡ after_prefix prefix.now bytes.now }
{
    bytes.strip_prefix(prefix)
}

/// The bytes before a suffix, if they end with it.
fn before_end<'a>(end: &[u8], bytes: &'a [u8]) -> Option<&'a [u8]>
    ensures { option_map (λ rest. rest.now) result ≡ before_end end.now bytes.now }
{
    bytes.strip_suffix(end)
}

fn slash_index(bytes: &[u8]) -> Option<usize>
    ensures { result ≡ position (λ b. b == 47) bytes.now }
{
    bytes.iter().position(|b| *b == b'/')
}

/// The bytes before the first slash, and those from it on.
fn at_slash(bytes: &[u8]) -> Option<(&[u8], &[u8])>
    ensures { option_map (λ p. (p.0.now, p.1.now)) result ≡ at_slash bytes.now }
{
    match slash_index(bytes) {
        Some(offset) => Some((&bytes[..offset], &bytes[offset..])),
        None => None,
    }
}

/// A part of a run, from the bytes after its number.
fn part_of_run(run: Number, rest: &[u8]) -> Option<Path>
    ensures { result ≡ part_of_run run rest.now }
{
    if rest == b"/body".as_slice() {
        return Some(Path::Body(run));
    }
    if rest == b"/cancel".as_slice() {
        return Some(Path::Cancel(run));
    }
    if rest == b"/forget".as_slice() {
        return Some(Path::Forget(run));
    }
    let attempt = Number::of(after_prefix(b"/attempts/", rest)?)?;
    Some(Path::Attempt(Attempt { run, attempt }))
}

fn run_path(rest: &[u8]) -> Option<Path>
    ensures { result ≡ run_path rest.now }
{
    match at_slash(rest) {
        Some((run, rest)) => part_of_run(Number::of(run)?, rest),
        None => Number::of(rest).map(Path::Run),
    }
}

fn runner_path(alloc: Global, rest: &[u8]) -> Result<Option<Path>, Refusal>
    ensures { Gives (λ p. p) result (Ok (runner_path rest.now)) }
{
    if let Some(name) = before_end(b"/lost", rest) {
        return Ok(RunnerName::of(alloc, name)?.map(Path::Lost));
    }
    match before_end(b"/forget", rest) {
        Some(name) => Ok(RunnerName::of(alloc, name)?.map(Path::Discharge)),
        None => Ok(None),
    }
}

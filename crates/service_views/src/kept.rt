//! What is kept of a service for those that look at it: its changes, its counts, and when its runners were last heard.

ghost use Rattle.std.specs.Prelude.{◌≡◌, ◌∷◌, [], ◌==◌, IfOk, List, None, false, if◌then◌else◌, not, option_map, ℕ};
ghost use Rattle.std.specs.Option.{option_map_or};
ghost use Rattle.std.specs.Duration.{as_nanos};
ghost use Rattle.std.specs.HashMap.{get_by_text};
ghost use Rattle.std.specs.Str.{bytes_eq};
ghost use Rattle.service_metrics.specs.Counters.{Done, counters_of, with_commit};
ghost use Rattle.service_views.specs.HeardTimes.{longest_silence, seconds_between, seconds_since, silence_of};
ghost use Rattle.service_views.specs.Keeping.{Begins, Counts, GoesOn, HeardAt, Notes, covered_after, is_discharged, runner_of};
ghost use Rattle.table_views.specs.MetricLines.{capped};

use crate::changes::Changes;
use crate::first_run::FirstRun;
use act_disk::Disk;
use act_store::{Entry, Store};
use run_plan::{Command, Reply, RunnerName};
use run_table::{Runner, Table};
use service_metrics::Counters;
use std::alloc::{AllocError, Global};
use std::collections::HashMap;
use std::time::{Duration, Instant};

/// The runner that a command comes from.
fn runner_of(command: &Command) -> Option<&RunnerName>
    ensures { option_map (λ runner. runner.now) result ≡ runner_of command.now }
{
    match command {
        Command::Claim(claim) => Some(&claim.runner),
        Command::Done(done) => Some(&done.runner),
        Command::Beat(beat) => Some(&beat.runner),
        _ => None,
    }
}

/// The runner that an entry discharges, if it does.
fn discharged_by(entry: &Entry) -> Option<&RunnerName>
    ensures { (name : List ℕ) → option_map_or (λ runner. bytes_eq runner.now name) result false ≡ is_discharged name entry.now.command entry.now.reply }
{
    match (&entry.command, &entry.reply) {
        (Command::Discharge(runner), Reply::Ok) => Some(runner),
        _ => None,
    }
}

/// What is kept.
#[derive(Drop)]
pub struct Kept {
    pub(crate) changes: Changes,
    pub(crate) counters: Counters,
    began: Instant,
    /// When each runner was last heard that was not discharged since.
    heard: HashMap<String, Instant>,
    pub(crate) first: FirstRun,
}

impl Kept {
    /// What is kept of a service that begins now.
    /// Promise (Views of a service): What a service keeps of itself begins with nothing, and a turn-over of the history changes none of it
    /// By: `service_views::Kept::new` (`Begins`); `service_views::Kept::turn_over`, `log`, `rest`
    pub fn new(alloc: Global, process: u64, now: Instant, table: &Table) -> Result<Kept, AllocError>
        ensures { IfOk result (Begins process table.now now) }
    {
        Ok(Kept {
            changes: Changes::new(alloc, process, table)?,
            counters: Counters::new(),
            began: now,
            heard: HashMap::new(alloc),
            first: FirstRun::of(table, now),
        })
    }

    /// The runner with this name was heard. Without memory for it one that was never heard before stays unknown.
    fn hear(&mut self, alloc: Global, runner: &RunnerName, now: Instant) -> Result<(), AllocError>
        ensures heard { (name : List ℕ) → HeardAt (bytes_eq runner.now name) now (get_by_text self.old.heard name) (get_by_text self.new.heard name) }
        ensures rest { self.new ≡ record self.old { heard = self.new.heard } }
    {
        if let Some(heard) = self.heard.get_mut(runner.as_str()) {
            *heard = now;
            return Ok(());
        }
        let name = String::from_str(alloc, runner.as_str())?;
        match self.heard.insert(name, now) {
            Ok(_) => Ok(()),
            Err(_) => Err(AllocError),
        }
    }

    /// The runner with this name is discharged: it is not known any more when it was heard.
    fn discharge(&mut self, runner: &RunnerName)
        ensures heard { (name : List ℕ) → get_by_text self.new.heard name
            ≡ (if bytes_eq runner.now name then None else get_by_text self.old.heard name) }
        ensures rest { self.new ≡ record self.old { heard = self.new.heard } }
    {
        let _heard = self.heard.remove(runner.as_str());
    }

    /// Counts an entry.
    fn count(&mut self, entry: &Entry)
        ensures counted { Counts (entry.now ∷ []) self.old.counters self.new.counters }
        ensures rest { self.new ≡ record self.old { counters = self.new.counters } }
    {
        self.counters.entered(&entry.reply);
    }

    /// Counts an entry that was made durable, and notes that the runner was heard from which it comes, or leaves out the one that it discharges.
    fn note(&mut self, alloc: Global, entry: &Entry, now: Instant)
        ensures { Notes (entry.now ∷ []) now self.old self.new }
    {
        self.count(entry);
        if let Some(runner) = discharged_by(entry) {
            self.discharge(runner);
        } else if let Some(runner) = runner_of(&entry.command) {
            let _ = self.hear(alloc, runner, now);
        }
    }

    /// Counts the entries of a store that were made durable since the last time, and notes which runners were heard.
    fn note_new<D: Disk>(&mut self, alloc: Global, store: &Store<D>, now: Instant)
        ensures { Notes (covered_after self.old.changes.taken store.now) now self.old self.new }
    {
        for index in self.changes.taken()..store.covered() {
            if let Some(entry) = store.entry(index + 1) {
                self.note(alloc, entry, now);
            }
        }
    }

    /// Takes up what was made durable since the last time, `at` in milliseconds since 1970. Returns whether there was something.
    /// Promise (Views of a service): Of what was made durable each entry is counted once, and its runner was heard then, of which nothing is known
    ///   once it is discharged. Without memory a new name stays unknown
    /// By: `service_views::Kept::take_up`, `goes_on` (`GoesOn`, `Counts`, `Hears`); `service_views::Kept::committed`, `counted`
    pub fn take_up<D: Disk>(
        &mut self,
        alloc: Global,
        store: &Store<D>,
        at: u64,
        now: Instant,
    ) -> bool
        ensures goes_on { GoesOn store.now at now self.old self.new }
        ensures some { result ≡ not (store.now.covered == self.old.changes.taken) }
    {
        if store.covered() == self.changes.taken() {
            return false;
        }
        self.note_new(alloc, store, now);
        self.changes.take_up(alloc, store, at);
        self.first.look(store.table(), now);
        true
    }

    /// A commit took so long.
    pub fn committed(&mut self, took: Duration)
        ensures counted { (done : Done) → self.old.counters ≡ counters_of done → self.new.counters ≡ counters_of (with_commit done (capped (as_nanos took))) }
        ensures rest { self.new ≡ record self.old { counters = self.new.counters } }
    {
        self.counters.committed(took);
    }

    /// A new history has begun.
    pub fn turn_over(&mut self)
        ensures log { self.new.changes.log ≡ self.old.changes.log }
        ensures taken { self.new.changes.taken ≡ 0 }
        ensures rest { self.new ≡ record self.old { changes = self.new.changes } }
    {
        self.changes.turn_over();
    }

    /// For how many whole seconds the service has run.
    pub(crate) fn uptime(&self, now: Instant) -> u64
        ensures { result ≡ seconds_between self.now.began now }
    {
        now.saturating_duration_since(self.began).as_secs()
    }

    /// How many whole seconds ago the runner with this name was heard, if it was.
    pub(crate) fn seconds_since(&self, name: &str, now: Instant) -> Option<u64>
        ensures { result ≡ seconds_since self.now now name.now }
    {
        let heard = self.heard.get(name)?;
        Some(now.saturating_duration_since(*heard).as_secs())
    }

    /// For how many whole seconds a runner with a lease was not heard; 0 of one without a lease.
    fn silence_of(&self, runner: &Runner, now: Instant) -> u64
        ensures { result ≡ silence_of self.now now runner.now }
    {
        match runner.holds {
            Some(_) => self
                .seconds_since(runner.name.as_str(), now)
                .unwrap_or(self.uptime(now)),
            None => 0,
        }
    }

    /// For how many whole seconds the runner with a lease that is silent for longest was not heard; 0 if none has a lease.
    #[tactic(auto, using(std::proofs::lemmas::List::Sums::fold_more))]
    pub(crate) fn longest_silence(&self, runners: &[Runner], now: Instant) -> u64
        ensures { result ≡ longest_silence self.now now runners.now }
    {
        let mut longest = 0;
        for runner in runners {
            longest = longest.max(self.silence_of(runner, now));
        }
        longest
    }
}

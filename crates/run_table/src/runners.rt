ghost use Rattle.std.specs.Prelude.{◌≡◌, ◌<◌, ◌≤◌, ◌*◌, [], is_some, length, map, option_and_then, option_map, slice_get, slice_set, Ok, OnErr};
ghost use Rattle.std.specs.Option.{option_map_or};
ghost use Rattle.std.specs.Prelude.{sum_by, true};
ghost use Rattle.wf_value.specs.Gives.{Gives};
ghost use Rattle.run_table.specs.inner.IndexNamed.{index_named};
ghost use Rattle.run_table.specs.inner.RunnerSizes.{max_runner_size, runner_size};
ghost use Rattle.table_model.specs.Step.{runner_through};
ghost use Rattle.table_model.specs.TableState.{is_below, is_named, kept_named, names_rise, runner_named, with_runner, without_runner};

use crate::runner::Runner;
use crate::runner_size::all_sizes;
use run_plan::RunnerName;
use std::alloc::Global;
use std::marker::Model;
use wf_value::{Refusal, TryCopy, copy_items};

/// The runners of a table, in the order of their names. A contract sees them as a list.
#[derive(Drop)]
pub struct Runners {
    runners: Vec<Runner>,
    /// How many bytes they have in the text of the table.
    text: u128,
}

impl Model for Runners {
    ghost use Rattle.std.specs.Prelude.{◌≡◌, List, true};
    ghost use Rattle.run_table.specs.inner.RunnerSizes.{AreSized};
    ghost use Rattle.table_model.specs.TableState.{RunnerState, names_rise};

    ghost Value = { List RunnerState };

    ghost view = { λ r. r.runners.items };

    ghost invariant = { λ r. (names_rise r.runners.items ≡ true) × AreSized r.runners.items r.text };
}

impl Runners {
    pub(crate) fn new(alloc: Global) -> Self
        ensures { result ≡ [] }
    {
        Runners {
            runners: Vec::new(alloc),
            text: 0,
        }
    }

    /// These runners, whose names rise.
    pub(crate) fn of_rising(runners: Vec<Runner>) -> Self
        requires { names_rise runners.items ≡ true }
        ensures { result ≡ runners.items }
    {
        let text = all_sizes(&runners);
        Runners { runners, text }
    }

    /// How many bytes the runners have in the text of a table.
    pub(crate) fn text_size(&self) -> u128
        ensures size { result ≡ sum_by runner_size self.now }
        ensures most { result ≤ length self.now * max_runner_size }
    {
        self.text
    }

    pub(crate) fn as_slice(&self) -> &[Runner]
        ensures runners { result.now ≡ self.now }
        ensures rise { names_rise self.now ≡ true }
    {
        self.runners.as_slice()
    }

    /// The index of the runner with this name, or the index where it would be inserted.
    pub(crate) fn index_named(&self, name: &RunnerName) -> usize
        ensures { result ≡ index_named self.now name.now }
    {
        count_below(self.as_slice(), name)
    }

    /// The runner with this name, given its index.
    pub(crate) fn at(&self, index: usize, name: &RunnerName) -> Option<&Runner>
        requires { index ≡ index_named self.now name.now }
        ensures { option_map (λ r. r.now) result ≡ runner_named self.now name.now }
    {
        named_at(self.as_slice(), index, name)
    }

    /// Inserts the runner at the index of its name, or replaces the runner of that name. On error the runners are
    /// unchanged.
    pub(crate) fn put(&mut self, index: usize, runner: Runner) -> Result<(), Refusal>
        requires { index ≡ index_named self.old runner.name }
        ensures put { Gives (λ _. self.new) result (Ok (with_runner self.old runner)) }
        ensures err { OnErr result (self.new ≡ self.old) }
    {
        let before = u128::from(self.size_at(index, &runner.name));
        let after = u128::from(runner.text_size());
        put_in(&mut self.runners, index, runner)?;
        self.text = self.text - before + after;
        Ok(())
    }

    /// Removes the runner with this name, given its index.
    pub(crate) fn remove(&mut self, index: usize, name: &RunnerName)
        requires index { index ≡ index_named self.old name.now }
        requires known { is_some (runner_named self.old name.now) ≡ true }
        ensures { self.new ≡ without_runner self.old name.now }
    {
        let size = u128::from(self.size_at(index, name));
        take_out(&mut self.runners, index, name);
        self.text -= size;
    }

    /// Forgets the leases that are kept as last replies, of the runs with ids through this one, which are forgotten.
    pub(crate) fn forget_leases(&mut self, through: u32)
        ensures { self.new ≡ map (runner_through through) self.old }
    {
        forget_leases_of(&mut self.runners, through);
        self.text = all_sizes(&self.runners);
    }

    /// The size of the runner with this name, given its index; 0 if there is none.
    fn size_at(&self, index: usize, name: &RunnerName) -> u64
        requires { index ≡ index_named self.now name.now }
        ensures { result ≡ option_map_or runner_size (runner_named self.now name.now) 0 }
    {
        match self.at(index, name) {
            Some(runner) => runner.text_size(),
            None => 0,
        }
    }
}

impl TryCopy for Runners {
    fn copy(&self, alloc: Global) -> Result<Self, Refusal> {
        Ok(Runners {
            runners: copy_items(alloc, &self.runners)?,
            text: self.text,
        })
    }
}

fn is_below(runner: &Runner, name: &RunnerName) -> bool
    ensures { result ≡ is_below name.now runner.now }
{
    runner.name.as_str() < name.as_str()
}

fn is_named(runner: &Runner, name: &RunnerName) -> bool
    ensures { result ≡ is_named name.now runner.now }
{
    runner.name.as_str() == name.as_str()
}

/// The number of runners whose name is below this one. The runners are sorted by name.
fn count_below(runners: &[Runner], name: &RunnerName) -> usize
    requires { names_rise runners.now ≡ true }
    ensures { result ≡ index_named runners.now name.now }
{
    runners.partition_point(|runner| is_below(runner, name))
}

/// The runner at an index, if it has the name.
fn named_at<'a>(runners: &'a [Runner], index: usize, name: &RunnerName) -> Option<&'a Runner>
    ensures { option_map (λ r. r.now) result ≡ option_and_then (kept_named name.now) (slice_get runners.now index) }
{
    let runner = runners.get(index)?;
    if is_named(runner, name) {
        Some(runner)
    } else {
        None
    }
}

fn replace(runners: &mut Vec<Runner>, index: usize, runner: Runner)
    requires { index < length runners.old.items }
    ensures { runners.new.items ≡ slice_set runners.old.items index runner }
{
    runners[index] = runner;
}

/// Removes the runner with a name, given its index.
fn take_out(runners: &mut Vec<Runner>, index: usize, name: &RunnerName)
    requires rise { names_rise runners.old.items ≡ true }
    requires index { index ≡ index_named runners.old.items name.now }
    requires known { is_some (runner_named runners.old.items name.now) ≡ true }
    ensures { runners.new.items ≡ without_runner runners.old.items name.now }
{
    runners.remove(index);
}

/// Forgets the leases of forgotten runs that are kept as last replies.
fn forget_leases_of(runners: &mut Vec<Runner>, through: u32)
    ensures { runners.new.items ≡ map (runner_through through) runners.old.items }
{
    for i in 0..runners.len() {
        let runner = &mut runners[i];
        runner.forget_lease(through);
    }
}

fn put_in(runners: &mut Vec<Runner>, index: usize, runner: Runner) -> Result<(), Refusal>
    requires rise { names_rise runners.old.items ≡ true }
    requires index { index ≡ index_named runners.old.items runner.name }
    ensures put { Gives (λ _. runners.new.items) result (Ok (with_runner runners.old.items runner)) }
    ensures err { OnErr result (runners.new.items ≡ runners.old.items) }
{
    if named_at(runners, index, &runner.name).is_some() {
        replace(runners, index, runner);
        return Ok(());
    }
    runners.insert(index, runner)?;
    Ok(())
}

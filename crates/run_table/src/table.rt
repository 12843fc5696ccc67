ghost use Rattle.std.specs.Prelude.{◌≡◌, ◌≤◌, ◌-◌, ◌*◌, length, slice_get, option_copied, option_map, sum_by, true, IfOk, Ok, OnErr, IsOk};
ghost use Rattle.definitions.specs.Limits.{last_number};
ghost use Rattle.wf_value.specs.Gives.{Gives};
ghost use Rattle.run_table.specs.inner.RunnerSizes.{max_runner_size, runner_size};
ghost use Rattle.table_model.specs.Sound.{IsSound};
ghost use Rattle.run_table.specs.Storable.{IsStorable};
ghost use Rattle.table_model.specs.Step.{read_only_reply, empty, is_allocation_free, seen, step};
ghost use Rattle.table_model.specs.TableState.{index_of, names_rise};

use crate::runner::Runner;
use crate::runners::Runners;
use crate::table_data::TableData;
use crate::view::RunView;
use forgotten_runs::ForgottenRuns;
use run_plan::{Command, Number, Prepared, Reply};
use std::alloc::Global;
use std::marker::Model;
use table_model::Run;
use table_runs::runs::Runs;
use wf_value::{Refusal, TryCopy};

/// The run table. It is sound (`IsSound`) after any sequence of commands.
#[derive(Drop)]
pub struct Table {
    table_data: TableData,
    /// How often settling had tried a rule before the last step.
    tries_before: u64,
}

impl Model for Table {
    ghost use Rattle.table_model.specs.TableState.{TableState};
    ghost use Rattle.table_model.specs.Sound.{IsSound};

    ghost Value = { TableState };

    ghost view = { λ t. t.table_data };

    ghost invariant = { λ t. IsSound t.table_data };
}

impl Table {
    /// A table without runs or runners.
    pub fn new(alloc: Global) -> Self
        ensures { result ≡ empty }
    {
        Table {
            table_data: TableData::new(alloc),
            tries_before: 0,
        }
    }

    /// The table with these forgotten runs, runs and runners, which are sound.
    pub fn of_sound(
        last_lease: u32,
        forgotten: ForgottenRuns,
        runs: Runs,
        runners: Vec<Runner>,
    ) -> Self
        requires { IsSound (record { last_lease = last_lease; forgotten = forgotten; runs = runs; runners = runners.items }) }
        ensures { result ≡ record { last_lease = last_lease; forgotten = forgotten; runs = runs; runners = runners.items } }
    {
        let runners = Runners::of_rising(runners);
        Table {
            table_data: TableData {
                last_lease,
                forgotten,
                runs,
                runners,
            },
            tries_before: 0,
        }
    }

    /// Carries out a command, applies the settling rules to a fixpoint and returns the reply. The table's refusals, 40
    /// to 45, 48 and 49, are replies. The only error is 50, which leaves the table unchanged. A reply that changes
    /// nothing and holds no text is given even when out of memory.
    /// Promise (The table): One step gives exactly the table and the reply of the definition, with the checks in their order; an error is 50
    ///   alone, and leaves the table
    /// By: `run_table::Table::step`, `step`, `err`
    /// Promise (The table): What is answered from the table as it is, without a text, is answered memory or not: every refusal, a known
    ///   delivery, a repeated command whose reply is no lease, a beat, a cancel of a stopping run, a re-run that names the present attempt
    /// By: `run_table::Table::step`, `answers`
    /// Promise (The table): So is a `forget` that finds no run to forget
    /// By: `run_table::Table::step`, `answers` (`forget_answer`)
    /// Promise (The table): A leg is claimed exactly by its labels in its own context, and a failure is passed over exactly where the leg's flag
    ///   is set there. `needs.ID.result` has a value exactly where the leg's job needs ID directly and that job has a result
    /// By: `run_table::Table::step`, `step` (`context_at`)
    /// Promise (The table): A job opens only once all its needs are finished, and then exactly where its condition holds for the results of all
    ///   ancestors
    /// By: `run_table::Table::step`, `step` (`rule_at`, `decided`, `may_run`)
    /// Promise (The table): `forget RUN` forgets the first runs that have completed, as many as follow one another and have ids up to RUN, and is
    ///   not refused; `discharge RUNNER` forgets a runner that holds no lease
    /// By: `run_table::Table::step`, `step` (`forgot`, `forgettable`, `without`, `discharged`)
    /// Promise (The table): A failure that is not passed over stops the other legs of its job exactly where the job fails fast; no other end of
    ///   a leg does. A lost runner's leg counts the same
    /// By: `run_table::Table::step`, `step` (`after_end`, `lost`, `outcome_of_loss`, `released`)
    /// Promise (The table): A cancelled run: the stop flag is set and the legs of jobs whose conditions are then false are stopped; a waiting
    ///   run ends with all its jobs cancelled
    /// By: `run_table::Table::step`, `step` (`cancelled`, `stopped_run`)
    /// Promise (The table): No lease is given twice, and a lease has one holder. This is said of one step, and of the table after any commands
    /// By: `run_table::Table::step`; `table_laws::laws::{steps_keep_tables_sound, leases_go_on}`
    /// Promise (The table): A fetched body is the admitted bytes, which are UTF-8
    /// By: `run_table::Table::step`, `step` (`fetch_answer`); `run_plan::Prepared::body_text`
    /// Refusal (Sessions and programs): a command of either, by `run_table::Table::step`
    /// When: 40 to 45, 48, 49: exactly, with memory, as the step says
    /// Afterwards: entered and covered; the table is as it was; the session goes on, but for 48
    /// By: `step`; `act_desk::Desk::submit`, `in_history`
    /// Refusal (The layers below): `run_table`: `Table::{step, step_with_copy}`
    /// When: 40 to 45, 48, 49 are replies, exactly. 50, but not if the answer needs no memory
    /// Afterwards: the table is as it was
    /// By: `step`, `err`, `answers`
    pub fn step(&mut self, alloc: Global, command: &Command) -> Result<Reply, Refusal>
        ensures step { Gives (λ reply. (self.new, reply)) result (Ok (step self.old command.now)) }
        ensures err { OnErr result (self.new ≡ self.old) }
        ensures answers { is_allocation_free (read_only_reply self.old command.now) ≡ true → IsOk result }
    {
        self.tries_before = self.table_data.tries();
        self.table_data.step(alloc, command)
    }

    /// Carries out a command as `step` does and returns the reply with a copy of it. If memory for either runs out, the
    /// table is unchanged. A reply that changes nothing and holds no text is given, with its copy, even when out of
    /// memory.
    /// Promise (The table): A step with an equal copy of the reply is the same. That the table itself is not copied is in no clause
    /// By: `run_table::Table::step_with_copy`, `step`, `copy`, `err`, `answers`
    pub fn step_with_copy(
        &mut self,
        alloc: Global,
        command: &Command,
    ) -> Result<(Reply, Reply), Refusal>
        ensures step { Gives (λ replies. (self.new, replies.0)) result (Ok (step self.old command.now)) }
        ensures copy { IfOk result (λ replies. replies.1 ≡ replies.0) }
        ensures err { OnErr result (self.new ≡ self.old) }
        ensures answers { is_allocation_free (read_only_reply self.old command.now) ≡ true → IsOk result }
    {
        self.tries_before = self.table_data.tries();
        self.table_data.step_with_copy(alloc, command)
    }

    /// How often the last step tried a settling rule at a site. No contract depends on it.
    pub fn looked(&self) -> u64 {
        self.table_data.tries().saturating_sub(self.tries_before)
    }

    /// The event of the last run, if there is a run. It takes no memory.
    pub fn last_event(&self) -> Option<&Prepared>
        ensures { option_copied result ≡ option_map (λ run. run.admitted) (slice_get self.now.runs (length self.now.runs - 1)) }
    {
        self.table_data.last_event()
    }

    /// The command. If it admits an event of the last run's workflow, the event then refers to that run's copy of the workflow. Only
    /// memory shows it.
    pub fn sharing(&self, command: Command) -> Command
        ensures { result ≡ command }
    {
        match command {
            Command::Admit(prepared) => Command::Admit(self.table_data.sharing(prepared)),
            other => other,
        }
    }

    /// The view of the run with this id, or `None` if there is no such run. It takes no memory.
    /// Promise (The table): A table keeps what MODEL says under "What every table keeps", from the empty one on
    /// By: `run_table::Table::look`, `sound`; `run_table::Table::new`; `table_laws::laws::steps_keep_tables_sound`
    /// Promise (The table): A look needs no memory and gives the run of that id with its number, or none; the printed view is exactly
    ///   `seen_text`
    /// By: `run_table::Table::look`, `seen`; `run_table::RunView::text`
    pub fn look(&self, run: Number) -> Option<RunView<'_>>
        ensures seen { result ≡ seen self.now run }
        ensures sound { IsSound self.now }
    {
        self.table_data.look(run)
    }

    /// The last lease granted, 0 if there was none. It takes no memory.
    /// Promise (The table): A table shows its last lease, runs and runners, memory or not. A copy is equal to it; bodies and plans are shared
    /// By: `run_table::Table::{last_lease, runs, runners}`; `run_table::Table`, `TryCopy::copy`
    pub fn last_lease(&self) -> u32
        ensures lease { result ≡ self.now.last_lease }
        ensures sound { IsSound self.now }
        ensures most { result ≤ last_number }
    {
        self.table_data.last_lease()
    }

    /// What is kept of the forgotten runs. It takes no memory.
    /// Promise (The table): A table shows which runs it has forgotten, the counts of their workflows and the deliveries that it keeps
    /// By: `run_table::Table::forgotten`; `forgotten_runs::ForgottenRuns::{through, counts, deliveries}`
    pub fn forgotten(&self) -> &ForgottenRuns
        ensures forgotten { result.now ≡ self.now.forgotten }
        ensures sound { IsSound self.now }
    {
        &self.table_data.forgotten
    }

    /// The last id that is forgotten, and with it all before; 0 if none is. It takes no memory.
    pub fn through(&self) -> u32
        ensures through { result ≡ self.now.forgotten.through }
        ensures sound { IsSound self.now }
    {
        self.table_data.forgotten.through()
    }

    /// The index of the run with an id among the runs that are not forgotten. It takes no memory.
    pub fn index_of(&self, id: Number) -> usize
        ensures { result ≡ index_of self.now id }
    {
        self.table_data.index_of(id)
    }

    /// The runs that are not forgotten, in the order of their ids. It takes no memory.
    #[tactic(auto, using(crate::proofs::Storable::storable))]
    pub fn runs(&self) -> &[Run]
        ensures runs { result.now ≡ self.now.runs }
        ensures storable { IsStorable self.now.runs }
    {
        self.table_data.runs()
    }

    /// The runs with what is kept beside them: the labels that their legs require. It takes no memory.
    pub fn kept_runs(&self) -> &Runs
        ensures runs { result.now ≡ self.now.runs }
    {
        &self.table_data.runs
    }

    /// The runners, in the order of their names. It takes no memory.
    pub fn runners(&self) -> &[Runner]
        ensures runners { result.now ≡ self.now.runners }
        ensures rise { names_rise self.now.runners ≡ true }
        ensures sound { IsSound self.now }
    {
        self.table_data.runners()
    }

    /// How many bytes the runners have in the text of a table. It walks none of them.
    pub fn size_of_runners(&self) -> u128
        ensures size { result ≡ sum_by runner_size self.now.runners }
        ensures most { result ≤ length self.now.runners * max_runner_size }
    {
        self.table_data.runners.text_size()
    }
}

impl TryCopy for Table {
    fn copy(&self, alloc: Global) -> Result<Self, Refusal> {
        Ok(Table {
            table_data: self.table_data.copy(alloc)?,
            tries_before: self.tries_before,
        })
    }
}

//! Laws of steps, and of what commands lead to.

ghost use Rattle.std.specs.Prelude.{◌≡◌, ◌≤◌, ◌+◌, ◌⊎◌, ℕ, List, Some, None};
ghost use Rattle.definitions.specs.SmallText.{Admitted};
ghost use Rattle.run_plan.specs.declared.command.Attempt.{Attempt};
ghost use Rattle.run_plan.specs.declared.command.Claim.{Claim};
ghost use Rattle.run_plan.specs.declared.command.Command.{Command};
ghost use Rattle.run_plan.specs.declared.command.Command.TheVariants as command;
ghost use Rattle.run_plan.specs.declared.reply.Lease.{Lease};
ghost use Rattle.run_plan.specs.declared.reply.Reply.{Reply};
ghost use Rattle.run_plan.specs.declared.reply.Reply.TheVariants as reply;
ghost use Rattle.table_model.specs.Step.{after, replies, empty, lease_at, step, stepped};
ghost use Rattle.table_model.specs.Runs.{leg_at, LegState};
ghost use Rattle.table_model.specs.declared.sites.LegSite.{LegSite};
ghost use Rattle.table_model.specs.Sound.{ForgottenFit, IsSound, ParallelIsBounded, NeedsComeFirst};
ghost use Rattle.table_model.specs.TableState.{TableState, last_id, runner_named};
ghost use Rattle.table_laws.specs.ExactlyOnce.{HasNumber, HaveNoDischarge, HaveNoLaterNumber, IsRefused};
ghost use Rattle.table_laws.specs.LeasesGranted.{IsNextLease};
ghost use Rattle.table_laws.specs.Remembered.{AreNoDischarges, AreNoLaterNumbers, AreNoOtherAttempts, IsNoDischarge, IsNoLaterNumber};
ghost use Rattle.table_laws.specs.Remembered.{IsNoOtherAttempt, IsNotForgotten, KeepsDeliveryOf, KnowsAttempt, KnowsDelivery};
ghost use Rattle.table_laws.specs.Remembered.{LastCommandIs, reply_then};
ghost use Rattle.table_laws.specs.RunIds.{HasRun, IsNextRun, runs_so_far};
ghost use Rattle.table_laws.specs.Answered.{WasAnswered};
ghost use Rattle.table_laws.specs.Skips.{SkipsAreDue};

/// A step preserves soundness, from any sound table, even one that no commands reach.
pub fn steps_keep_tables_sound()
    ensures { (t : TableState) (c : Command) → IsSound t → IsSound (stepped t c).table }
{}

/// A job has legs only if all jobs that it needs have finished.
/// Promise (The table): In any table: a job with legs has all its needs finished, and no more than `max-parallel` legs of it run or stop
/// By: `table_laws::laws::{legs_come_after_needs, max_parallel_bounds_each_job}`; `run_table::Table::look`, `sound`
pub fn legs_come_after_needs()
    ensures sound { (t : TableState) → IsSound t → NeedsComeFirst t.runs }
    ensures reached { (commands : List Command) → NeedsComeFirst (after empty commands).runs }
{}

/// In every table that commands reach from the empty one, all needs of a skipped job have finished, and its condition is false for the
/// results of its ancestors in a run that is not stopping.
/// Promise (The table): In every table that commands lead to from the empty one: a skipped job has all its needs finished and a false condition;
///   a leg with a lease was the answer to a claim for it
/// By: `table_laws::laws::{skips_are_due, leases_are_answers_to_claims}`
pub fn skips_are_due()
    ensures { (commands : List Command) → SkipsAreDue (after empty commands).runs }
{}

/// The number of running and stopping legs of a job is at most its max-parallel.
pub fn max_parallel_bounds_each_job()
    ensures sound { (t : TableState) → IsSound t → ParallelIsBounded t.runs }
    ensures reached { (commands : List Command) → ParallelIsBounded (after empty commands).runs }
{}

/// A leg has a lease only if the lease was the answer to a claim.
pub fn leases_are_answers_to_claims()
    ensures { (commands : List Command) (p : LegSite) (leg : LegState) (lease : ℕ)
        → leg_at (after empty commands).runs p ≡ Some leg → leg.lease ≡ Some lease
        → WasAnswered commands (replies empty commands) (lease_at (after empty commands).runs p lease) }
{}

/// Leases go on, whatever was forgotten or discharged: no command lowers the last one, and a claim that is answered with a lease got the one
/// after the last, which it then is, or it repeats the runner's last command, whose reply was that lease.
/// Promise (The table): A lease that is granted is above every earlier one, through forgetting and discharging; a claim gets an earlier one only
///   as the reply that is kept for it
/// By: `table_laws::laws::leases_go_on` (`IsNextLease`, `LastCommandIs`)
pub fn leases_go_on()
    ensures last_lease { (t : TableState) (later : List Command) → t.last_lease ≤ (after t later).last_lease }
    ensures granted { (t : TableState) (claim : Claim) (lease : Lease) → (stepped t (command.Claim claim)).reply ≡ reply.Lease lease
        → LastCommandIs t claim.runner (command.Claim claim) (reply.Lease lease)
        ⊎ IsNextLease t (stepped t (command.Claim claim)).table lease }
{}

/// Ids and numbers of runs go on, and those of forgotten runs never come again: no command lowers the last id, how many runs a workflow has had,
/// or how many runs are forgotten. An admission that is answered with a run gave it the next of both, or its delivery was known. A run keeps
/// its id, its number and its event in every later table until it is forgotten: by its index in any table, by its id in a sound one.
/// Promise (The table): A new run gets the id after the last one and its workflow's next number, counting forgotten runs; no command lowers
///   either, and the run keeps both until it is forgotten
/// By: `table_laws::laws::ids_and_numbers_go_on` (`IsNextRun`, `HasRun`)
pub fn ids_and_numbers_go_on()
    ensures forgotten { (t : TableState) (later : List Command) → t.forgotten.through ≤ (after t later).forgotten.through }
    ensures last_id { (t : TableState) (later : List Command) → last_id t ≤ last_id (after t later) }
    ensures numbers { (t : TableState) (later : List Command) (event : Admitted) → ForgottenFit t.forgotten
        → runs_so_far t event ≤ runs_so_far (after t later) event }
    ensures made { (t : TableState) (event : Admitted) (id : ℕ) → (stepped t (command.Admit event)).reply ≡ reply.Created id
        → KnowsDelivery t event.delivery id ⊎ IsNextRun t (stepped t (command.Admit event)).table event id }
    ensures kept { (t : TableState) (later : List Command) (id number : ℕ) (event : Admitted) (has : HasRun t id number event)
        → (after t later).forgotten.through ≤ t.forgotten.through + has.index → HasRun (after t later) id number event }
    ensures kept_by_id { (t : TableState) (later : List Command) (id number : ℕ) (event : Admitted) → IsSound t → HasRun t id number event
        → IsNotForgotten (after t later) id → HasRun (after t later) id number event }
{}

/// A delivery makes one run: an event whose delivery was answered with a run is answered with the same run in every later table that keeps the
/// run's delivery, whatever its body is then, and the table does not change.
/// Promise (The table): A delivery makes one run: its event is answered with that run in every later table, whatever its body, and the table
///   stays, until 10,000 later runs are forgotten
/// By: `table_laws::laws::{a_delivery_makes_one_run, a_delivery_stays_known}` (`KnowsDelivery`, `KeepsDeliveryOf`)
pub fn a_delivery_makes_one_run()
    ensures { (t : TableState) (event again : Admitted) (run : ℕ) (later : List Command) → ForgottenFit t.forgotten
        → (stepped t (command.Admit event)).reply ≡ reply.Created run → again.delivery ≡ event.delivery
        → KeepsDeliveryOf (after (stepped t (command.Admit event)).table later) run
        → step (after (stepped t (command.Admit event)).table later) (command.Admit again)
        ≡ (after (stepped t (command.Admit event)).table later, reply.Created run) }
{}

/// A runner that repeats a command that was carried out gets the same reply, as long as it has sent no command with a later number and is not
/// discharged; a lease of a run that was forgotten since is over, and the reply is then `nothing`. The table does not change.
/// Promise (The table): A numbered command that was not refused gets its reply again, and the table stays, until a later number of that runner
///   is carried out, not only asked, or it is discharged
/// By: `table_laws::laws::{a_kept_reply_is_given_again, a_last_command_stays_known}` (`IsNoLaterNumber`, `IsNoDischarge`)
pub fn a_kept_reply_is_given_again()
    ensures { (t : TableState) (c : Command) (runner : List ℕ) (number : ℕ) (later : List Command)
        → HasNumber c runner number → (IsRefused (stepped t c).reply → ⊥) → HaveNoLaterNumber runner number later
        → HaveNoDischarge runner later
        → step (after (stepped t c).table later) c
        ≡ (after (stepped t c).table later, reply_then (stepped t c).table (after (stepped t c).table later) (stepped t c).reply) }
{}

/// What a table knows about a delivery: the reply that makes a run establishes it, and each step and any commands preserve it as long as the
/// table keeps the run's delivery. While the delivery is known, an event with it is answered with the same run, whatever its body is, and the
/// table does not change.
pub fn a_delivery_stays_known()
    ensures established { (t : TableState) (event : Admitted) (run : ℕ) → ForgottenFit t.forgotten
        → (stepped t (command.Admit event)).reply ≡ reply.Created run
        → KnowsDelivery (stepped t (command.Admit event)).table event.delivery run }
    ensures kept { (t : TableState) (c : Command) (delivery : List ℕ) (run : ℕ) → ForgottenFit t.forgotten → KnowsDelivery t delivery run
        → KeepsDeliveryOf (stepped t c).table run → KnowsDelivery (stepped t c).table delivery run }
    ensures kept_on { (t : TableState) (later : List Command) (delivery : List ℕ) (run : ℕ) → ForgottenFit t.forgotten
        → KnowsDelivery t delivery run → KeepsDeliveryOf (after t later) run → KnowsDelivery (after t later) delivery run }
    ensures answered { (t : TableState) (event : Admitted) (run : ℕ) → KnowsDelivery t event.delivery run
        → step t (command.Admit event) ≡ (t, reply.Created run) }
{}

/// What a table knows about an attempt: a re-run that is answered with it establishes it, and each step preserves it until a re-run of that
/// run with another attempt is carried out or the run is forgotten. While it is known, a re-run that asks for it is answered with it again and
/// the table does not change: no other attempt begins.
/// Promise (The table): A re-run that was answered with its attempt is answered with it again and begins nothing, until a re-run of that run
///   with another attempt is carried out or the run is forgotten
/// By: `table_laws::laws::an_attempt_stays_known` (`KnowsAttempt`, `IsNoOtherAttempt`, `IsNotForgotten`)
pub fn an_attempt_stays_known()
    ensures established { (t : TableState) (requested : Attempt) → (stepped t (command.Rerun requested)).reply ≡ reply.Again requested
        → KnowsAttempt (stepped t (command.Rerun requested)).table requested.run requested.attempt }
    ensures kept { (t : TableState) (c : Command) (run attempt : ℕ) → KnowsAttempt t run attempt
        → IsNoOtherAttempt run attempt c (stepped t c).reply → IsNotForgotten (stepped t c).table run
        → KnowsAttempt (stepped t c).table run attempt }
    ensures kept_on { (t : TableState) (later : List Command) (run attempt : ℕ) → KnowsAttempt t run attempt
        → AreNoOtherAttempts run attempt later (replies t later) → IsNotForgotten (after t later) run
        → KnowsAttempt (after t later) run attempt }
    ensures answered { (t : TableState) (requested : Attempt) → KnowsAttempt t requested.run requested.attempt
        → step t (command.Rerun requested) ≡ (t, reply.Again requested) }
{}

/// What a table knows about a runner's last command: a reply to it that is not a refusal establishes it, and each step preserves it until a
/// command of that runner with a later number is carried out or the runner is discharged. Once the run of a lease that is the reply is
/// forgotten, the reply is `nothing`. While it is known, the command gets the reply and the table does not change. A runner that is discharged
/// is unknown, and with it its last command.
/// Promise (The table): A kept reply that is a lease is `nothing` from when on its run is forgotten. A discharged runner is unknown
/// By: `table_laws::laws::a_last_command_stays_known`, `kept` (`reply_then`), `discharged`
pub fn a_last_command_stays_known()
    ensures established { (t : TableState) (c : Command) (runner : List ℕ) (number : ℕ) → HasNumber c runner number
        → (IsRefused (stepped t c).reply → ⊥) → LastCommandIs (stepped t c).table runner c (stepped t c).reply }
    ensures kept { (t : TableState) (c d : Command) (runner : List ℕ) (number : ℕ) (given : Reply) → HasNumber c runner number
        → LastCommandIs t runner c given → IsNoLaterNumber runner number d (stepped t d).reply → IsNoDischarge runner d (stepped t d).reply
        → LastCommandIs (stepped t d).table runner c (reply_then t (stepped t d).table given) }
    ensures kept_on { (t : TableState) (c : Command) (later : List Command) (runner : List ℕ) (number : ℕ) (given : Reply)
        → HasNumber c runner number → LastCommandIs t runner c given → AreNoLaterNumbers runner number later (replies t later)
        → AreNoDischarges runner later (replies t later)
        → LastCommandIs (after t later) runner c (reply_then t (after t later) given) }
    ensures answered { (t : TableState) (c : Command) (runner : List ℕ) (given : Reply) → LastCommandIs t runner c given
        → step t c ≡ (t, given) }
    ensures discharged { (t : TableState) (runner : List ℕ) → (stepped t (command.Discharge runner)).reply ≡ reply.Ok
        → runner_named (stepped t (command.Discharge runner)).table.runners runner ≡ None }
{}

ghost use Rattle.std.specs.Prelude.{◌≡◌, ℕ, true, Some};
ghost use Rattle.wf_value.specs.declared.code.Code.{Code};
ghost use Rattle.wf_value.specs.declared.refusal.Refusal.TheVariants.{Turn};
ghost use Rattle.definitions.specs.SmallText.{Admitted};
ghost use Rattle.run_plan.specs.LastCommand.{is_last_claim, is_last_report};
ghost use Rattle.run_plan.specs.declared.command.Attempt.{Attempt};
ghost use Rattle.run_plan.specs.declared.command.Beat.{Beat};
ghost use Rattle.run_plan.specs.declared.command.Claim.{Claim};
ghost use Rattle.run_plan.specs.declared.command.Command.{Command};
ghost use Rattle.run_plan.specs.declared.command.Command.TheVariants as command;
ghost use Rattle.run_plan.specs.declared.command.Done.{Done};
ghost use Rattle.run_plan.specs.declared.reply.Reply.TheVariants as reply;
ghost use Rattle.table_model.specs.Runs.{RunState};
ghost use Rattle.table_model.specs.declared.phases.RunPhase.TheVariants as phase;
ghost use Rattle.table_model.specs.TableState.{run_of_delivery, run_with, runner_named, RunnerState, TableState};
ghost use Rattle.table_model.specs.Step.{forgettable, refused, stepped};
ghost use Rattle.step_laws.specs.Texts.{CarriesText, IsAnsweredAnyway};

/// Every refusal is given memory or not, whatever the command is: those with a number alone (40 to 42, 44, 45, 48, 49), and 43 with the
/// last number or attempt.
/// Promise (The table): No refusal needs memory, nor does a beat, a known delivery, or what is repeated
/// By: `step_laws::laws::{refusals_need_no_memory, beats_need_no_memory, known_deliveries_need_no_memory, repeated_requests_need_no_memory,
///   repeated_commands_need_no_memory}` (`IsAnsweredAnyway`)
pub fn refusals_need_no_memory()
    ensures numbered { (t : TableState) (c : Command) (code : Code) → (stepped t c).reply ≡ refused code → IsAnsweredAnyway t c }
    ensures turn { (t : TableState) (c : Command) (last : ℕ) → (stepped t c).reply ≡ reply.Refused (Turn last) → IsAnsweredAnyway t c }
{}

/// A beat is answered memory or not.
pub fn beats_need_no_memory()
    ensures { (t : TableState) (beat : Beat) → IsAnsweredAnyway t (command.Beat beat) }
{}

/// So is an event whose delivery is known.
pub fn known_deliveries_need_no_memory()
    ensures { (t : TableState) (event : Admitted) (run : ℕ) → run_of_delivery t event.delivery ≡ Some run
        → IsAnsweredAnyway t (command.Admit event) }
{}

/// So is a cancel of a run that is stopping already, a re-run that names the present attempt, and a `forget` that finds no run to forget.
pub fn repeated_requests_need_no_memory()
    ensures cancel { (t : TableState) (id : ℕ) (x : RunState) → run_with t id ≡ Some x → x.phase ≡ phase.Live → x.stopping ≡ true
        → IsAnsweredAnyway t (command.Cancel id) }
    ensures rerun { (t : TableState) (a : Attempt) (x : RunState) → run_with t a.run ≡ Some x → x.attempt ≡ a.attempt
        → IsAnsweredAnyway t (command.Rerun a) }
    ensures forget { (t : TableState) (id : ℕ) → forgettable t id ≡ 0 → IsAnsweredAnyway t (command.Forget id) }
{}

/// So is a runner's last command again, unless its reply was a lease.
pub fn repeated_commands_need_no_memory()
    ensures claim { (t : TableState) (claim : Claim) (x : RunnerState) → runner_named t.runners claim.runner ≡ Some x
        → x.number ≡ claim.number → is_last_claim claim x.last ≡ true → (stepped t (command.Claim claim)).reply ≡ reply.Nothing
        → IsAnsweredAnyway t (command.Claim claim) }
    ensures done { (t : TableState) (report : Done) (x : RunnerState) → runner_named t.runners report.runner ≡ Some x
        → x.number ≡ report.number → is_last_report report x.last ≡ true → IsAnsweredAnyway t (command.Done report) }
{}

/// What is answered memory or not carries no text: no lease, no view and no body.
/// Promise (The table): Only a lease, a view and a body are texts, for which a reply needs memory
/// By: `step_laws::laws::texts_need_memory` (`CarriesText`)
pub fn texts_need_memory()
    ensures { (t : TableState) (c : Command) → IsAnsweredAnyway t c → CarriesText (stepped t c).reply → ⊥ }
{}

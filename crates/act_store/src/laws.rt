//! Laws about what images recover to.

ghost use Rattle.std.specs.Prelude.{◌≡◌, ◌+◌, ℕ, List, length, drop};
ghost use Rattle.definitions.specs.SmallText.{Admitted};
ghost use Rattle.run_plan.specs.declared.command.Attempt.{Attempt};
ghost use Rattle.run_plan.specs.declared.command.Command.TheVariants as command;
ghost use Rattle.run_plan.specs.declared.reply.Reply.TheVariants as reply;
ghost use Rattle.table_model.specs.Sound.{ForgottenFit};
ghost use Rattle.table_model.specs.Step.{replies, step, stepped};
ghost use Rattle.table_model.specs.TableState.{TableState};
ghost use Rattle.table_laws.specs.ExactlyOnce.{HasNumber, IsRefused};
ghost use Rattle.table_laws.specs.Remembered.{AreNoDischarges, AreNoLaterNumbers, AreNoOtherAttempts, IsNotForgotten, KeepsDeliveryOf};
ghost use Rattle.table_laws.specs.Remembered.{reply_then};
ghost use Rattle.act_store.specs.Entries.{table_after};
ghost use Rattle.act_store.specs.Images.{RecoversTo};
ghost use Rattle.act_store.specs.Reopened.{IsAcknowledged, LeadTo, Life, requested_in};
ghost use Rattle.act_store.specs.declared.entry.Entry.{Entry};

/// An image recovers to at most one table.
/// Promise (The store): An image recovers to one table at most
/// By: `act_store::laws::an_image_recovers_to_one_table`
pub fn an_image_recovers_to_one_table()
    ensures { (image : List ℕ) (one two : TableState) → RecoversTo one image → RecoversTo two image → one ≡ two }
{}

/// An acknowledged entry answered the delivery of an event with a run. The same delivery, with any body, is answered with the same run,
/// and the table does not change, as long as it keeps the run's delivery. This holds after any number of crashes and reopenings or turn-overs,
/// and whatever commands come in between.
/// Promise (The store): An acknowledged delivery is answered with its run again, over any number of crashes, openings and turn-overs, and the
///   table stays, until 10,000 later runs are forgotten
/// By: `act_store::laws::a_delivery_makes_one_run` (`LeadTo`, `IsAcknowledged`)
pub fn a_delivery_makes_one_run()
    ensures { (life : Life) (lives : List Life) (table : TableState) (before suffix : List Entry) (entry : Entry) (run : ℕ)
        (event again : Admitted) → ForgottenFit life.base.forgotten → LeadTo life lives table → IsAcknowledged life before entry suffix
        → entry.command ≡ command.Admit event → entry.reply ≡ reply.Created run → again.delivery ≡ event.delivery
        → KeepsDeliveryOf table run → step table (command.Admit again) ≡ (table, reply.Created run) }
{}

/// In the same way, a runner that repeats a command that an acknowledged entry carried out gets the reply of that entry, as long as no
/// later entry carried out a later number of that runner or discharged it. A lease of a run that was forgotten since is `nothing` then. The
/// table does not change.
/// Promise (The store): An acknowledged command of a runner is answered with its reply again, over any number of crashes, openings and
///   turn-overs, until a later number is carried out or the runner is discharged
/// By: `act_store::laws::a_kept_reply_is_given_again` (`LeadTo`, `IsAcknowledged`)
pub fn a_kept_reply_is_given_again()
    ensures { (life : Life) (lives : List Life) (table : TableState) (before suffix : List Entry) (entry : Entry) (number : ℕ)
        (runner : List ℕ) → (leads : LeadTo life lives table) → IsAcknowledged life before entry suffix
        → HasNumber entry.command runner number → (IsRefused entry.reply → ⊥)
        → AreNoLaterNumbers runner number (drop (length before + 1) (requested_in life lives table leads))
        (replies (stepped (table_after life.base before) entry.command).table (drop (length before + 1) (requested_in life lives table leads)))
        → AreNoDischarges runner (drop (length before + 1) (requested_in life lives table leads))
        (replies (stepped (table_after life.base before) entry.command).table (drop (length before + 1) (requested_in life lives table leads)))
        → step table entry.command
        ≡ (table, reply_then (stepped (table_after life.base before) entry.command).table table entry.reply) }
{}

/// In the same way, a re-run that an acknowledged entry answered with its attempt is answered with that attempt again, as long as no later
/// entry began another attempt of that run and the run is not forgotten. The table does not change, so no second attempt begins.
/// Promise (The store): An acknowledged re-run is answered with its attempt again, over any number of crashes, openings and turn-overs, until
///   another attempt of the run is carried out or the run is forgotten
/// By: `act_store::laws::an_attempt_begins_once` (`LeadTo`, `IsAcknowledged`, `requested_in`)
pub fn an_attempt_begins_once()
    ensures { (life : Life) (lives : List Life) (table : TableState) (before suffix : List Entry) (entry : Entry) (requested : Attempt)
        → (leads : LeadTo life lives table) → IsAcknowledged life before entry suffix
        → entry.command ≡ command.Rerun requested → entry.reply ≡ reply.Again requested
        → AreNoOtherAttempts requested.run requested.attempt (drop (length before + 1) (requested_in life lives table leads))
        (replies (stepped (table_after life.base before) entry.command).table (drop (length before + 1) (requested_in life lives table leads)))
        → IsNotForgotten table requested.run → step table (command.Rerun requested) ≡ (table, reply.Again requested) }
{}

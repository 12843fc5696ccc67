//! Laws of forgetting: the first runs of a table, which have completed, are dropped.

ghost use Rattle.std.specs.Prelude.{◌≡◌, ◌+◌, ◌<◌, ℕ, List, Some};
ghost use Rattle.definitions.specs.SmallText.{Admitted};
ghost use Rattle.group_name.specs.Group.{Group};
ghost use Rattle.run_plan.specs.declared.command.Command.TheVariants as command;
ghost use Rattle.table_model.specs.Forgotten.{max_kept_deliveries, number_of_next};
ghost use Rattle.table_model.specs.Sound.{IsSound};
ghost use Rattle.table_model.specs.Step.{stepped};
ghost use Rattle.table_model.specs.TableState.{TableState, last_id, run_of_delivery};
ghost use Rattle.settling_laws.specs.Moved.{HoldersStay};

/// A sound table is sound after a `forget`.
/// Promise (Laws of the definitions): A `forget` keeps a table sound; the last id, each workflow's next number and the holders of each group stay
/// By: `settling_laws::forgetting::{forgetting_keeps_tables_sound, forgetting_keeps_the_last_id, forgetting_keeps_numbers,
///   forgetting_keeps_holders}`
pub fn forgetting_keeps_tables_sound()
    ensures { (t : TableState) (id : ℕ) → IsSound t → IsSound (stepped t (command.Forget id)).table }
{}

/// Ids go on: the last id is the same.
pub fn forgetting_keeps_the_last_id()
    ensures { (t : TableState) (id : ℕ) → last_id (stepped t (command.Forget id)).table ≡ last_id t }
{}

/// Numbers go on: the number that the next run of a workflow gets is the same.
pub fn forgetting_keeps_numbers()
    ensures { (t : TableState) (id : ℕ) (event : Admitted) → IsSound t
        → number_of_next (stepped t (command.Forget id)).table.forgotten (stepped t (command.Forget id)).table.runs event
        ≡ number_of_next t.forgotten t.runs event }
{}

/// Each holder of a group in a run that stays is in the same state as before, and no holder in a run that is dropped had begun to wait or held a
/// group.
pub fn forgetting_keeps_holders()
    ensures { (t : TableState) (id : ℕ) (g : Group) → IsSound t
        → HoldersStay g t (stepped t (command.Forget id)).table }
{}

/// A delivery stays known until as many later runs as there are kept deliveries are forgotten.
/// Promise (Laws of the definitions): After a `forget` a delivery stays known until as many later runs as there are kept deliveries are forgotten
/// By: `settling_laws::forgetting::forgetting_keeps_deliveries`
pub fn forgetting_keeps_deliveries()
    ensures { (t : TableState) (id : ℕ) (delivery : List ℕ) (run : ℕ) → IsSound t → run_of_delivery t delivery ≡ Some run
        → (stepped t (command.Forget id)).table.forgotten.through < run + max_kept_deliveries
        → run_of_delivery (stepped t (command.Forget id)).table delivery ≡ Some run }
{}

//! Tests that no delivery made two runs: a look-up by a delivery finds the forgotten run or the run that it made, and no other.

ghost use Rattle.std.specs.Bool.{Decides};
ghost use Rattle.std.specs.List.{position};
ghost use Rattle.std.specs.Prelude.{◌≡◌, ◌++◌, None, Some};
ghost use Rattle.std.specs.Str.{bytes_eq};
ghost use Rattle.table_model.specs.Forgotten.{deliveries_of};
ghost use Rattle.table_model.specs.Sound.{DeliveriesDiffer};
ghost use Rattle.table_model.specs.Runs.{is_delivered_as};

use forgotten_runs::ForgottenRuns;
use run_plan::DeliveryId;
use table_model::Run;
use table_runs::runs::Runs;

/// Whether a look-up by a kept delivery finds it at this index.
fn is_kept_at(forgotten: &ForgottenRuns, k: usize, delivery: &DeliveryId) -> bool
    ensures { Decides result (position (λ known. bytes_eq known delivery.now) forgotten.now.deliveries ≡ Some k) }
{
    match forgotten.position(delivery) {
        Some(index) => index == k,
        None => false,
    }
}

/// Whether no two of the kept deliveries are the same.
fn do_kept_differ(forgotten: &ForgottenRuns) -> bool
    ensures { Decides result (DeliveriesDiffer forgotten.now.deliveries) }
{
    let kept = forgotten.deliveries();
    for k in 0..kept.len() {
        if !is_kept_at(forgotten, k, &kept[k]) {
            return false;
        }
    }
    true
}

/// Whether the run's delivery is not among the kept ones, and a look-up by it finds the run at this index.
fn is_found(forgotten: &ForgottenRuns, runs: &Runs, r: usize, run: &Run) -> bool
    ensures { Decides result ((position (λ known. bytes_eq known run.now.admitted.delivery) forgotten.now.deliveries ≡ None)
        × (position (is_delivered_as run.now.admitted.delivery) runs.now ≡ Some r)) }
{
    let delivery = run.prepared().delivery();
    if forgotten.position(delivery).is_some() {
        return false;
    }
    match runs.position(delivery) {
        Some(index) => index == r,
        None => false,
    }
}

/// Whether no delivery made two runs, forgotten or not.
pub(crate) fn do_deliveries_differ(forgotten: &ForgottenRuns, runs: &Runs) -> bool
    ensures { Decides result (DeliveriesDiffer (forgotten.now.deliveries ++ deliveries_of runs.now)) }
{
    if !do_kept_differ(forgotten) {
        return false;
    }
    let all = runs.as_slice();
    for r in 0..all.len() {
        if !is_found(forgotten, runs, r, &all[r]) {
            return false;
        }
    }
    true
}

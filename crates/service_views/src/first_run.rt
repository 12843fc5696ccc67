//! Since when the first run that is not forgotten has been the first.

ghost use Rattle.std.specs.Prelude.{◌≡◌};
ghost use Rattle.service_views.specs.FirstRuns.{first_run_after, first_run_of};
ghost use Rattle.service_views.specs.HeardTimes.{seconds_between};

use run_table::Table;
use std::marker::Model;
use std::time::Instant;

/// Through which id runs were forgotten at the last look, and when that was first seen.
#[derive(Drop)]
pub struct FirstRun {
    through: u32,
    since: Instant,
}

impl Model for FirstRun {
    ghost use Rattle.service_views.specs.FirstRuns.{FirstState};

    ghost Value = { FirstState };

    ghost view = { λ f. record { through = f.through; since = f.since } };
}

impl FirstRun {
    /// The first run of a table, which nobody has looked at before.
    pub(crate) fn of(table: &Table, now: Instant) -> FirstRun
        ensures { result ≡ first_run_of table.now now }
    {
        FirstRun {
            through: table.through(),
            since: now,
        }
    }

    /// Looks at the table again.
    pub(crate) fn look(&mut self, table: &Table, now: Instant)
        ensures { self.new ≡ first_run_after table.now now self.old }
    {
        if self.through != table.through() {
            *self = FirstRun::of(table, now);
        }
    }

    /// For how many whole seconds it has been the first.
    pub(crate) fn seconds(&self, now: Instant) -> u64
        ensures { result ≡ seconds_between self.now.since now }
    {
        now.saturating_duration_since(self.since).as_secs()
    }
}

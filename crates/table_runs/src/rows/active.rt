//! Marks that are stale: they are removed once a run has no ready leg that asks for a list of labels, or is not active any more.

ghost use Rattle.std.specs.Prelude.{◌≡◌};

use crate::rows::Rows;
use crate::rows::offers::{offer_run, offers_list, put_run};
use table_bindings::label_numbers::list_number;
use table_model::LegSite;

impl Rows {
    /// Unmarks the run of a leg for the leg's list, if no ready leg of the run asks for that list. Claims for the list then skip the run.
    pub(crate) fn refresh_list(&mut self, site: LegSite)
        ensures { self.new ≡ self.old }
    {
        let r = site.run;
        if r < self.runs.len() {
            let run = &self.runs[r];
            let numbers = self.bindings[r].lists.as_slice();
            let number = list_number(numbers, site.job, site.leg);
            if !offers_list(run, numbers, number) {
                self.index.lists.unmark(number, r);
            }
        }
    }

    /// Marks run `r` for exactly the lists that its ready legs ask for, so that claims for others skip it.
    pub(crate) fn refresh_offers(&mut self, r: usize)
        ensures { self.new ≡ self.old }
    {
        if r < self.runs.len() {
            let run = &self.runs[r];
            let bindings = &self.bindings[r];
            put_run(&mut self.index.lists, bindings.lists.as_slice(), r, false);
            offer_run(&mut self.index.lists, bindings, r, run);
        }
    }

    /// Removes the marks of run `r` if it is not active, so that searches for leases and for ready legs skip it.
    pub(crate) fn refresh_marks(&mut self, r: usize)
        ensures { self.new ≡ self.old }
    {
        if r < self.runs.len() && !self.runs[r].is_active() {
            self.active.unmark(r);
            self.refresh_offers(r);
        }
    }
}

//! Which legs a runner may get: the labels of a leg, as they were bound when the attempt of its run began and given the results so far, are
//! compared with the runner's.

ghost use Rattle.std.specs.Prelude.{◌≡◌, ◌<◌};
ghost use Rattle.table_model.specs.Fitting.{is_served};
ghost use Rattle.table_model.specs.LegContext.{planned_legs};

use crate::runs::Runs;
use run_plan::Label;
use table_model::LegSite;

impl Runs {
    /// Whether `labels` has all labels that the leg asks for. Takes no memory.
    pub(crate) fn is_served(&self, labels: &[Label], site: LegSite) -> bool
        requires { site.leg < planned_legs self.now site.run site.job }
        ensures { result ≡ is_served labels.now self.now site }
    {
        match self.with_bindings(site.run) {
            Some((run, bindings)) => bindings.is_served(labels, site.job, site.leg, run),
            None => false,
        }
    }
}

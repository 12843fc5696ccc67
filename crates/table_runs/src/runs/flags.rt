//! Whether a failure of a leg is ignored: by a fixed flag, or by the flag bound when an attempt of the leg's run began, given the results
//! so far. GitHub Docs, "Workflow syntax for GitHub Actions", `jobs.<job_id>.continue-on-error`.

ghost use Rattle.std.specs.Prelude.{◌≡◌};
ghost use Rattle.table_model.specs.LegContext.{continues_on_error};

use crate::runs::Runs;
use table_model::LegSite;
use wf_reader::Flag;

impl Runs {
    /// Whether a failure of the leg is ignored. A leg that its plan does not have ignores no failure; for every other leg a template was
    /// bound. Takes no memory.
    pub(super) fn continues_on_error(&self, site: LegSite) -> bool
        ensures { result ≡ continues_on_error self.now site }
    {
        let Some(planned) = self.planned(site.run, site.job) else {
            return false;
        };
        match &planned.continue_on_error {
            Flag::Fixed(set) => *set && planned.legs.as_slice().get(site.leg).is_some(),
            Flag::Template(_) => {
                let Some((run, bindings)) = self.with_bindings(site.run) else {
                    return false;
                };
                match bindings.flag(site.job, site.leg) {
                    Some(flag) => flag.is_set(run),
                    None => false,
                }
            }
        }
    }
}

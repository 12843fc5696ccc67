//! The texts of the labels that a leg asks for.

ghost use Rattle.std.specs.Prelude.{◌<◌, ◌^◌, [], Ok, unwrap_or};
ghost use Rattle.wf_value.specs.Gives.{Gives};
ghost use Rattle.table_model.specs.LegContext.{labels_at};

use crate::runs::Runs;
use std::alloc::Global;
use table_model::LegSite;
use wf_value::{Chars, Refusal, Sequence};

impl Runs {
    /// The texts; empty if the leg is not planned.
    pub fn label_texts(&self, alloc: Global, site: LegSite) -> Result<Sequence<Chars>, Refusal>
        requires leg { site.leg < 2 ^ 63 }
        ensures { Gives (λ texts. texts) result (Ok (unwrap_or (labels_at self.now site) [])) }
    {
        match self.leg_view(site) {
            Some(leg) => leg.label_texts(alloc),
            None => Ok(Sequence::new(Vec::new(alloc))),
        }
    }
}

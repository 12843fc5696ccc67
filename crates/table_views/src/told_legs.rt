//! A leg as a line of changes tells it.

ghost use Rattle.std.specs.Prelude.{◌≡◌, Ok, option_map};
ghost use Rattle.wf_value.specs.Gives.{Gives};
ghost use Rattle.table_views.specs.RunViews.{leg_news};

use crate::lease_names::LeaseNames;
use crate::one_run::leg_runner;
use run_plan::Number;
use run_table::Table;
use std::alloc::Global;
use table_model::{Leg, LegSite, Run};
use wf_value::{Chars, Refusal};

/// A leg of a run as it stands, with the runner to which its lease was given, if that is known.
#[derive(Drop)]
pub struct LegNews {
    pub run: Number,
    pub attempt: Number,
    pub job: Chars,
    pub leg: usize,
    pub state: Leg,
    pub runner: Option<Chars>,
}

fn copied(alloc: Global, text: Option<&str>) -> Result<Option<Chars>, Refusal>
    ensures { Gives (λ copy. copy) result (Ok (option_map (λ t. t.now) text.entry)) }
{
    match text {
        Some(text) => Ok(Some(Chars::from_str(alloc, text)?)),
        None => Ok(None),
    }
}

/// A leg at a site, in the present attempt of its run.
pub fn leg_news(
    alloc: Global,
    table: &Table,
    names: &LeaseNames,
    site: LegSite,
    run: &Run,
    leg: &Leg,
) -> Result<LegNews, Refusal>
    ensures { Gives (λ news. news) result (Ok (leg_news names.now table.now site run.now leg.now)) }
{
    let job = table.kept_runs().job_id(alloc, site.run, site.job)?;
    let runner = copied(alloc, leg_runner(names, table.runners(), leg))?;
    Ok(LegNews {
        run: run.id(),
        attempt: run.attempt(),
        job,
        leg: site.leg,
        state: *leg,
        runner,
    })
}

//! Which runs a list shows.

ghost use Rattle.std.specs.Prelude.{◌≡◌, ◌&&◌, Ok, option_map};
ghost use Rattle.wf_value.specs.Gives.{Gives};
ghost use Rattle.table_views.specs.RunFilters.{is_event_wanted, is_group_wanted, is_ref_wanted, is_shown, is_state_wanted, is_wanted, is_wanted_of};

use crate::run_rows::{as_text, conclusion_at, own_group, ref_of};
use run_plan::Prepared;
use run_table::{RunView, Table, status_word};
use std::alloc::Global;
use table_model::Run;
use wf_value::{Chars, Refusal};

/// The runs that a list shows: those with each of the given texts.
#[derive(Drop)]
pub struct RunFilter {
    pub status: Option<Chars>,
    pub conclusion: Option<Chars>,
    pub repository: Option<Chars>,
    pub path: Option<Chars>,
    pub event: Option<Chars>,
    /// `github.ref`
    pub reference: Option<Chars>,
    /// The name of the run's own group, case-folded.
    pub group: Option<Chars>,
}

impl RunFilter {
    /// A filter that lets every run through.
    pub fn none() -> RunFilter {
        RunFilter {
            status: None,
            conclusion: None,
            repository: None,
            path: None,
            event: None,
            reference: None,
            group: None,
        }
    }
}

/// Whether a text is the wanted one, if one is wanted.
pub(crate) fn is_wanted(wanted: &Option<Chars>, text: &str) -> bool
    ensures { result ≡ is_wanted wanted.now text.now }
{
    match wanted {
        Some(wanted) => text == wanted.as_str(),
        None => true,
    }
}

/// The same of a text that may be missing.
pub(crate) fn is_wanted_of(wanted: &Option<Chars>, text: Option<&str>) -> bool
    ensures { result ≡ is_wanted_of wanted.now (option_map (λ t. t.now) text.entry) }
{
    match (wanted, text) {
        (None, _) => true,
        (Some(_), None) => false,
        (Some(wanted), Some(text)) => text == wanted.as_str(),
    }
}

impl RunFilter {
    #[tactic(auto, unfolding(crate::specs::RunFilters::is_state_wanted))]
    fn is_state_wanted(&self, run: &Run) -> bool
        ensures { result ≡ is_state_wanted self.now run.now }
    {
        is_wanted(&self.status, status_word(run.phase(), run.jobs()))
            && is_wanted_of(&self.conclusion, conclusion_at(run.phase(), run.jobs()))
    }

    #[tactic(auto, unfolding(crate::specs::RunFilters::is_event_wanted))]
    fn is_event_wanted(&self, event: &Prepared) -> bool
        ensures { result ≡ is_event_wanted self.now event.now }
    {
        is_wanted(&self.repository, event.repo().as_str())
            && is_wanted(&self.path, event.path().as_str())
            && is_wanted(&self.event, event.event().as_str())
    }

    #[tactic(auto, unfolding(crate::specs::RunFilters::is_ref_wanted))]
    fn is_ref_wanted(&self, alloc: Global, event: &Prepared) -> Result<bool, Refusal>
        ensures { Gives (λ b. b) result (Ok (is_ref_wanted self.now event.now)) }
    {
        if self.reference.is_none() {
            return Ok(true);
        }
        let reference = ref_of(alloc, event)?;
        Ok(is_wanted_of(&self.reference, as_text(&reference)))
    }

    #[tactic(auto, unfolding(crate::specs::RunFilters::is_group_wanted))]
    fn is_group_wanted(
        &self,
        alloc: Global,
        table: &Table,
        view: &RunView<'_>,
    ) -> Result<bool, Refusal>
        ensures { Gives (λ b. b) result (Ok (is_group_wanted self.now table.now view.now.id)) }
    {
        if self.group.is_none() {
            return Ok(true);
        }
        let group = own_group(alloc, table, view.id())?;
        Ok(is_wanted_of(&self.group, as_text(&group)))
    }

    /// Whether the list shows a run.
    pub(crate) fn shows(
        &self,
        alloc: Global,
        table: &Table,
        view: &RunView<'_>,
    ) -> Result<bool, Refusal>
        ensures { Gives (λ b. b) result (Ok (is_shown self.now table.now view.now)) }
    {
        let run = view.run();
        if !self.is_state_wanted(run) || !self.is_event_wanted(run.prepared()) {
            return Ok(false);
        }
        if !self.is_ref_wanted(alloc, run.prepared())? {
            return Ok(false);
        }
        self.is_group_wanted(alloc, table, view)
    }
}

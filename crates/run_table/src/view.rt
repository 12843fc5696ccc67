ghost use Rattle.std.specs.Prelude.{◌≡◌, IfOk, Ok, string_bytes};
ghost use Rattle.wf_value.specs.Gives.{Gives};
ghost use Rattle.table_model.specs.ViewText.{number_text, seen_of, seen_text};

use crate::view_text::{conclusion_word, push_jobs, status_word};
use run_plan::Number;
use std::alloc::{AllocError, Global};
use std::fmt::Write;
use std::marker::Model;
use table_model::Run;
use wf_value::{Chars, Refusal};

/// The room that the text of a view takes at first: as much as most runs of one job need.
const VIEW_ROOM: usize = 64;

/// The view of a run: its id, its number among the runs of its workflow, and the run itself.
#[derive(Drop)]
pub struct RunView<'a> {
    run: &'a Run,
}

impl<'a> Model for RunView<'a> {
    ghost use Rattle.table_model.specs.ViewText.{Seen};

    ghost Value = { Seen };

    ghost view = { λ v. record { id = v.run.now.id; number = v.run.now.number; run = v.run.now } };
}

impl<'a> RunView<'a> {
    /// The view of a run.
    pub fn of(run: &'a Run) -> Self
        ensures { result ≡ seen_of run.now }
    {
        RunView { run }
    }

    pub fn id(&self) -> Number
        ensures { result ≡ self.now.id }
    {
        self.run.id()
    }

    /// Its number among the runs of its workflow.
    pub fn number(&self) -> Number
        ensures { result ≡ self.now.number }
    {
        self.run.number()
    }

    pub fn run(&self) -> &Run
        ensures { result.now ≡ self.now.run }
    {
        self.run
    }

    /// The printed view: `run ID NUMBER STATUS CONCLUSION JOB:STATE ..`.
    pub fn text(&self, alloc: Global) -> Result<Chars, Refusal>
        ensures { Gives (λ t. t) result (Ok (seen_text self.now)) }
    {
        let run = self.run;
        let id = run.id().get();
        let number = run.number().get();
        let jobs = run.jobs();
        let status = status_word(run.phase(), jobs);
        let conclusion = conclusion_word(run.phase(), jobs);
        let number = number_text(alloc, number, run.attempt().get())?;
        let number = number.as_str();
        let mut text = String::with_capacity(alloc, VIEW_ROOM)?;
        write!(text, "run {id} {number} {status} {conclusion}")?;
        push_jobs(run.prepared().plan().as_slice(), jobs, &mut text)?;
        Ok(Chars::new(text))
    }
}

/// The number of a run, followed by the attempt from the second one on.
fn number_text(alloc: Global, number: u32, attempt: u32) -> Result<String, AllocError>
    ensures { IfOk result (λ s. string_bytes s ≡ number_text number attempt) }
{
    if attempt <= 1 {
        format!(in alloc; "{number}")
    } else {
        format!(in alloc; "{number}.{attempt}")
    }
}

ghost use Rattle.command_encodings.specs.Commands.{IsEncoded, admit, beat, body, claim, done, labels, number, rerun, small_text};

use crate::lists::Fits;
use run_plan::{Attempt, Beat, Claim, Command, Done, Form, Labels, Number, Prepared, SmallText};

pub(crate) fn number_fits(value: Number)
    ensures { number.Takes value }
{
    let _ = value.get();
}

pub(crate) fn small_text_fits<F: Form>(text: &SmallText<F>)
    ensures { (small_text F.allows).Takes text.now }
{
    let _ = text.as_str();
}

fn labels_fit(value: &Labels)
    ensures { labels.Takes value.now }
{
    let _ = value.as_slice();
}

fn body_fits(event: &Prepared)
    ensures { body.Takes event.now.body }
{
    let _ = event.body();
}

pub(crate) fn admit_fits(event: &Prepared)
    ensures { admit.Takes event.now }
{
    small_text_fits(event.delivery());
    small_text_fits(event.event());
    body_fits(event);
}

pub(crate) fn claim_fits(requests: &Claim)
    ensures { claim.Takes requests.now }
{
    small_text_fits(&requests.runner);
    number_fits(requests.number);
    labels_fit(&requests.labels);
}

pub(crate) fn done_fits(report: &Done)
    ensures { done.Takes report.now }
{
    small_text_fits(&report.runner);
    number_fits(report.number);
    number_fits(report.lease);
}

fn beat_fits(requests: &Beat)
    ensures { beat.Takes requests.now }
{
    small_text_fits(&requests.runner);
    number_fits(requests.lease);
}

fn rerun_fits(requests: Attempt)
    ensures { rerun.Takes requests }
{
    number_fits(requests.run);
    number_fits(requests.attempt);
}

pub(crate) fn command_fits(requested: &Command)
    ensures { IsEncoded requested.now }
{
    match requested {
        Command::Admit(event) => admit_fits(event),
        Command::Claim(requests) => claim_fits(requests),
        Command::Done(report) => done_fits(report),
        Command::Beat(requests) => beat_fits(requests),
        Command::Lost(runner) | Command::Discharge(runner) => small_text_fits(runner),
        Command::Rerun(requests) => rerun_fits(*requests),
        Command::Cancel(run) | Command::Look(run) | Command::Fetch(run) => number_fits(*run),
        Command::Forget(run) => number_fits(*run),
    }
}

impl Fits for Command {
    ghost can = { λ requested. Unit {0} };

    ghost takes = { IsEncoded };

    fn fits(&self) {
        command_fits(self)
    }
}

//! The labels that a leg asks for, bound when an attempt of its run begins, so that a claim looks nothing up. GitHub Docs, "Workflow syntax
//! for GitHub Actions", `jobs.<job_id>.runs-on`.

ghost use Rattle.std.specs.Prelude.{◌≡◌, ℕ, IfOk, List, Ok, Some, length, map, option_copied, slice_get};
ghost use Rattle.std.specs.List.{list_all};
ghost use Rattle.std.specs.Str.{str_eq_ignore_ascii_case};
ghost use Rattle.wf_expr.specs.Bound.{bound_of, bound_text};
ghost use Rattle.wf_value.specs.Gives.{ErrsOnlyByMemory, Gives};
ghost use Rattle.table_model.specs.Fitting.{has_label, has_labels};
ghost use Rattle.table_bindings.specs.KnownLabels.{AreAlike, AreKept, KeepsTexts, ask_nothing, needs_nothing, kept_of, kept_of_leg, otherwise_text, short_text};
ghost use Rattle.table_bindings.specs.LabelNumbers.{kept_texts};
ghost use Rattle.table_bindings.specs.declared.resolved_labels.ResolvedLabels.{ResolvedLabels as WantedLabels};

use crate::run_identity::RunIdentity;
use label_lists::LabelList;
use run_plan::{Label, MAX_TEXT_BYTES, PlannedJob};
use std::alloc::Global;
use wf_expr::{BoundPiece, BoundTemplate, Context, NeedResults, Needs, Template};
use wf_value::{Chars, Refusal, Sequence};

/// The bound labels of a leg.
#[derive(Drop)]
pub enum ResolvedLabels {
    /// Their texts, if none depends on the result of a job.
    Known(LabelList),
    /// The bound templates, if some depend on results.
    ByResults(Sequence<BoundTemplate>),
}

impl ResolvedLabels {
    fn of(alloc: Global, bound: Vec<BoundTemplate>) -> Result<Self, Refusal>
        ensures { Gives (λ kept. kept) result (Ok (kept_of bound.items)) }
    {
        if are_known(bound.as_slice()) {
            let texts = known_texts(alloc, bound.as_slice())?;
            Ok(ResolvedLabels::Known(LabelList::new(Sequence::new(texts))))
        } else {
            Ok(ResolvedLabels::ByResults(Sequence::new(bound)))
        }
    }

    /// The texts, if none depends on the result of a job.
    pub(crate) fn kept_texts(&self) -> Option<&LabelList>
        ensures { option_copied result ≡ kept_texts self.now }
    {
        match self {
            ResolvedLabels::Known(texts) => Some(texts),
            ResolvedLabels::ByResults(_) => None,
        }
    }

    /// Whether `labels` has each of these labels, given the results. Takes no memory.
    pub(crate) fn are_among<R: NeedResults>(&self, labels: &[Label], results: &R) -> bool
        ensures { (whole : List (List ℕ)) → KeepsTexts (R.result_of results.now) self.now whole → result ≡ has_labels labels.now whole }
    {
        match self {
            ResolvedLabels::Known(texts) => has_texts(labels, texts.as_slice()),
            ResolvedLabels::ByResults(wanted) => has_bound_labels(
                labels,
                wanted.as_slice(),
                results,
            ),
        }
    }
}

// ---- labels that depend on no result

fn needs_nothing(piece: &BoundPiece) -> bool
    ensures { result ≡ needs_nothing piece.now }
{
    piece.needs.len() == 0
}

fn ask_nothing(label: &BoundTemplate) -> bool
    ensures { result ≡ ask_nothing label.now }
{
    label.pieces().iter().all(|piece| needs_nothing(piece))
}

fn are_known(labels: &[BoundTemplate]) -> bool
    ensures { result ≡ list_all ask_nothing labels.now }
{
    labels.iter().all(|label| ask_nothing(label))
}

/// The text of the pieces while no need has a result.
fn otherwise_text(alloc: Global, pieces: &[BoundPiece]) -> Result<Chars, Refusal>
    ensures { Gives (λ t. t) result (Ok (otherwise_text pieces.now)) }
{
    let mut text = String::new(alloc);
    for piece in pieces {
        text.push_str(piece.otherwise.as_str())?;
    }
    Ok(Chars::new(text))
}

/// The text that is kept of a label: its text, or the empty text if that is longer than a runner's label can be. No runner has either as a label.
fn short_text(alloc: Global, pieces: &[BoundPiece]) -> Result<Chars, Refusal>
    ensures { Gives (λ t. t) result (Ok (short_text (otherwise_text pieces.now))) }
{
    let text = otherwise_text(alloc, pieces)?;
    if text.as_str().len() <= MAX_TEXT_BYTES {
        Ok(text)
    } else {
        Chars::from_str(alloc, "")
    }
}

fn known_texts(alloc: Global, labels: &[BoundTemplate]) -> Result<Vec<Chars>, Refusal>
    ensures { Gives (λ texts. texts.items) result (Ok (map (λ label. short_text (otherwise_text label)) labels.now)) }
{
    let mut texts = Vec::with_capacity(alloc, labels.len())?;
    for label in labels {
        texts.push(short_text(alloc, label.pieces())?)?;
    }
    Ok(texts)
}

// ---- labels among those of a runner

/// Whether the label is this text, ignoring ASCII case. A runner's label is never empty and never too long.
fn is_text(label: &Label, wanted: &Chars) -> bool
    ensures { (whole : List ℕ) → short_text whole ≡ short_text wanted.now → result ≡ str_eq_ignore_ascii_case label.now whole }
{
    label.as_str().eq_ignore_ascii_case(wanted.as_str())
}

fn has_text(labels: &[Label], wanted: &Chars) -> bool
    ensures { (whole : List ℕ) → short_text whole ≡ short_text wanted.now → result ≡ has_label labels.now whole }
{
    for label in labels {
        if is_text(label, wanted) {
            return true;
        }
    }
    false
}

/// Whether these labels include all that are wanted. The empty text stands for one that is longer than a label can be.
pub fn has_texts(labels: &[Label], wanted: &[Chars]) -> bool
    ensures { (whole : List (List ℕ)) → AreAlike whole wanted.now → result ≡ has_labels labels.now whole }
{
    for text in wanted {
        if !has_text(labels, text) {
            return false;
        }
    }
    true
}

/// Whether the label is the text of the bound template, ignoring the case of ASCII letters.
fn is_bound_label<R: NeedResults>(label: &Label, wanted: &BoundTemplate, results: &R) -> bool
    ensures { result ≡ str_eq_ignore_ascii_case label.now (bound_text (R.result_of results.now) wanted.now) }
{
    wanted.is_text_ignoring_ascii_case(results, label.as_str().as_bytes())
}

fn has_bound_label<R: NeedResults>(labels: &[Label], wanted: &BoundTemplate, results: &R) -> bool
    ensures { result ≡ has_label labels.now (bound_text (R.result_of results.now) wanted.now) }
{
    labels
        .iter()
        .any(|label| is_bound_label(label, wanted, results))
}

fn has_bound_labels<R: NeedResults>(labels: &[Label], wanted: &[BoundTemplate], results: &R) -> bool
    ensures { result ≡ list_all (λ t. has_label labels.now (bound_text (R.result_of results.now) t)) wanted.now }
{
    wanted
        .iter()
        .all(|label| has_bound_label(labels, label, results))
}

// ---- the labels of a job's legs

/// The bound labels of each leg of a job; empty if `plain` has the texts for all legs.
pub(crate) fn bind_labels<'x>(
    alloc: Global,
    identity: &'x RunIdentity<'_>,
    j: usize,
    job: &'x PlannedJob,
    plain: &Option<LabelList>,
) -> Result<Sequence<ResolvedLabels>, Refusal>
    ensures err { ErrsOnlyByMemory result }
    ensures kept { IfOk result (AreKept identity.now j job.now plain.now) }
{
    match plain {
        Some(_) => Ok(Sequence::new(Vec::new(alloc))),
        None => Ok(Sequence::new(bind_each(alloc, identity, j, job)?)),
    }
}

fn bind_each<'x>(
    alloc: Global,
    identity: &'x RunIdentity<'_>,
    j: usize,
    job: &'x PlannedJob,
) -> Result<Vec<ResolvedLabels>, Refusal>
    ensures err { ErrsOnlyByMemory result }
    ensures many { IfOk result (λ legs. length legs.items ≡ length job.now.legs) }
    ensures kept { IfOk result (λ legs. (l : ℕ) (wanted : WantedLabels) → slice_get legs.items l ≡ Some wanted
        → wanted ≡ kept_of_leg identity.now j job.now l) }
{
    let needs = identity.leg_needs(j);
    let count = job.legs.as_slice().len();
    let mut legs = Vec::with_capacity(alloc, count)?;
    for leg in 0..count {
        let context = identity.leg_context(j, job, leg);
        let bound = bound_labels(alloc, job.labels.as_slice(), &context, &needs)?;
        let wanted = ResolvedLabels::of(alloc, bound)?;
        legs.push(wanted)?;
    }
    Ok(legs)
}

/// The labels bound in a context that lacks only the results of needs.
fn bound_labels<C: Context, N: Needs>(
    alloc: Global,
    labels: &[Template],
    known: &C,
    needs: &N,
) -> Result<Vec<BoundTemplate>, Refusal>
    ensures { Gives (λ bound. bound.items) result (Ok (map (bound_of (C.values known.now) (N.need_of needs.now)) labels.now)) }
{
    let mut bound = Vec::with_capacity(alloc, labels.len())?;
    for label in labels {
        bound.push(label.bind(alloc, known, needs)?)?;
    }
    Ok(bound)
}

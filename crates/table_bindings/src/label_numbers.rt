//! The numbers of the lists of labels that the legs of a run ask for. A leg whose labels depend on the results of jobs has no number: its
//! labels are known only once the results are.

ghost use Rattle.std.specs.Prelude.{◌≡◌, ℕ, IfOk, Some, length, option_and_then, option_copied, slice_get};
ghost use Rattle.label_lists.specs.Lists.{HasPlace, OnlyGrows};
ghost use Rattle.wf_value.specs.Gives.{ErrsOnlyByMemory};
ghost use Rattle.table_bindings.specs.LabelNumbers.{IsListOf, kept_texts, list_number, number_in, texts_in};

use crate::bindings::JobBindings;
use crate::resolved_labels::ResolvedLabels;
use label_lists::{LabelList, LabelLists};
use std::alloc::Global;
use wf_value::{Refusal, Sequence};

/// The number of each leg's list, if the legs of the job may differ; otherwise `whole` is the number for all legs. The number is 0 if the
/// list is not known, or if the run cannot be marked under the list's own number.
#[derive(Drop)]
pub struct ListNumbers {
    pub whole: usize,
    pub legs: Sequence<usize>,
}

/// The number of the list of leg `l` of the job.
fn number_in(job: &ListNumbers, l: usize) -> usize
    ensures { result ≡ number_in job.now l }
{
    match job.legs.as_slice().get(l) {
        Some(number) => *number,
        None => job.whole,
    }
}

/// The number of the list of leg `l` of job `j`.
pub fn list_number(numbers: &[ListNumbers], j: usize, l: usize) -> usize
    ensures { result ≡ list_number numbers.now j l }
{
    match numbers.get(j) {
        Some(job) => number_in(job, l),
        None => 0,
    }
}

// ---- entering

/// Enters a list of labels that run `r` asks for, if it is known. Returns the number under which the run is marked for it: that of the
/// list, or 0.
fn enter_list(
    alloc: Global,
    labels: Option<&LabelList>,
    lists: &mut LabelLists,
    r: usize,
) -> Result<usize, Refusal>
    requires { HasPlace lists.old 0 r }
    ensures err { ErrsOnlyByMemory result }
    ensures grows { OnlyGrows lists.old lists.new }
    ensures number { IfOk result (IsListOf lists.new r (option_copied labels.entry)) }
{
    match labels {
        Some(labels) => lists.enter(alloc, labels, r),
        None => Ok(0),
    }
}

fn enter_legs(
    alloc: Global,
    labels: &[ResolvedLabels],
    lists: &mut LabelLists,
    r: usize,
) -> Result<Vec<usize>, Refusal>
    requires { HasPlace lists.old 0 r }
    ensures err { ErrsOnlyByMemory result }
    ensures grows { OnlyGrows lists.old lists.new }
    ensures many { IfOk result (λ legs. length legs.items ≡ length labels.now) }
    ensures numbers { IfOk result (λ legs. (l n : ℕ) → slice_get legs.items l ≡ Some n
        → IsListOf lists.new r (option_and_then kept_texts (slice_get labels.now l)) n) }
{
    let mut legs = Vec::with_capacity(alloc, labels.len())?;
    for l in 0..labels.len() {
        let number = enter_list(alloc, labels[l].kept_texts(), lists, r)?;
        legs.push(number)?;
    }
    Ok(legs)
}

/// Enters the lists that the legs of a job of run `r` ask for. On an `Err` (50, out of memory) some may have been entered.
pub(crate) fn enter_job(
    alloc: Global,
    job: &JobBindings,
    lists: &mut LabelLists,
    r: usize,
) -> Result<ListNumbers, Refusal>
    requires { HasPlace lists.old 0 r }
    ensures err { ErrsOnlyByMemory result }
    ensures grows { OnlyGrows lists.old lists.new }
    ensures numbers { IfOk result (λ numbers. (l : ℕ) → IsListOf lists.new r (texts_in job.now l) (number_in numbers l)) }
{
    let whole = enter_list(alloc, job.plain.as_ref(), lists, r)?;
    let legs = enter_legs(alloc, job.labels.as_slice(), lists, r)?;
    Ok(ListNumbers {
        whole,
        legs: Sequence::new(legs),
    })
}

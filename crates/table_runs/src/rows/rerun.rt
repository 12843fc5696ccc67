//! Re-runs: a run begins again in its next attempt. GitHub Docs, "Re-running workflows and jobs".

ghost use Rattle.std.specs.Prelude.{◌≡◌, ◌≤◌, ◌+◌, ◌<◌, IfSome, Ok, OnErr, OnOk, Some, option_map, slice_set, vec_len};
ghost use Rattle.definitions.specs.Limits.{last_attempt};
ghost use Rattle.wf_value.specs.Gives.{Gives};
ghost use Rattle.table_model.specs.Runs.{again, run_at, with_run};
ghost use Rattle.table_bindings.specs.GroupKeys.{arrivals_of};
ghost use Rattle.table_runs.specs.inner.Begun.{HaveTickets};
ghost use Rattle.table_runs.specs.inner.GroupsKept.{AreTold, arrivals_to_come};

use crate::rows::offers::offer_run;
use crate::rows::sizes::run_size;
use crate::rows::{Rows, expect};
use group_book::Book;
use std::alloc::Global;
use table_bindings::RunBindings;
use table_model::{Holder, Run};
use wf_value::Refusal;

impl Rows {
    /// Puts run `r`, if there is one, into its next attempt: it waits, all its jobs are blocked, and its templates are bound again. All
    /// memory is taken first, so on an `Err` nothing has changed. What was taken for arrivals of the attempt before is let go of. What is bound
    /// as in the attempt before is kept once.
    pub(crate) fn rerun(
        &mut self,
        alloc: Global,
        r: usize,
        book: &mut Book<Holder>,
    ) -> Result<(), Refusal>
        requires attempt { IfSome (run_at self.old.runs r) (λ run. run.attempt < last_attempt) }
        requires expected { arrivals_to_come self.old.bindings ≤ book.old.expected }
        ensures again { Gives (λ _. self.new.runs) result (Ok (with_run r again self.old.runs)) }
        ensures err { OnErr result (self.new ≡ self.old) }
        ensures entries { book.new.entries ≡ book.old.entries }
        ensures told { OnOk result (AreTold self.old.runs self.old.bindings → AreTold self.new.runs self.new.bindings) }
        ensures tickets { OnOk result (HaveTickets r self.new.runs self.new.bindings) }
        ensures expected { arrivals_to_come self.new.bindings ≤ book.new.expected }
    {
        let Some(run) = self.run(r) else {
            return Ok(());
        };
        let next = run.again(alloc)?;
        self.put_again(alloc, r, next, book)
    }

    /// Replaces run `r` by its next attempt.
    fn put_again(
        &mut self,
        alloc: Global,
        r: usize,
        next: Run,
        book: &mut Book<Holder>,
    ) -> Result<(), Refusal>
        requires expected { arrivals_to_come self.old.bindings ≤ book.old.expected }
        requires next { Some next ≡ option_map again (run_at self.old.runs r) }
        ensures again { Gives (λ _. self.new.runs) result (Ok (with_run r again self.old.runs)) }
        ensures err { OnErr result (self.new ≡ self.old) }
        ensures entries { book.new.entries ≡ book.old.entries }
        ensures told { OnOk result (AreTold self.old.runs self.old.bindings → AreTold self.new.runs self.new.bindings) }
        ensures tickets { OnOk result (HaveTickets r self.new.runs self.new.bindings) }
        ensures expected { arrivals_to_come self.new.bindings ≤ book.new.expected }
    {
        self.index.lists.reserve_up_to(r + 1)?;
        let like = self.bindings.get(r);
        let bindings = RunBindings::bind(alloc, &next, &mut self.index.lists, r, like)?;
        expect(book, &bindings)?;
        forgo(book, &self.bindings[r]);
        offer_run(&mut self.index.lists, &bindings, r, &next);
        self.active.mark(r);
        let was = &self.runs[r];
        let before = run_size(was);
        let after = run_size(&next);
        self.text = self.text - before + after;
        put_at(&mut self.runs, r, next);
        put_at(&mut self.bindings, r, bindings);
        Ok(())
    }
}

/// Replaces the item at index `i`.
fn put_at<T: Drop>(items: &mut Vec<T>, i: usize, item: T)
    requires { i < vec_len items.old }
    ensures items { items.new.items ≡ slice_set items.old.items i item }
    ensures len { vec_len items.new ≡ vec_len items.old }
{
    items[i] = item;
}

/// Lets go of the memory for arrivals that will not come.
fn forgo(book: &mut Book<Holder>, bindings: &RunBindings)
    requires { arrivals_of bindings.now.keys ≤ book.old.expected }
    ensures entries { book.new.entries ≡ book.old.entries }
    ensures expected { book.old.expected ≤ book.new.expected + arrivals_of bindings.now.keys }
{
    if let Some(arrivals) = bindings.keys.arrivals() {
        book.forgo(arrivals);
    }
}

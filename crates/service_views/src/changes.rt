//! The changes of a service: its covered entries, and the runs and legs that they have changed, as lines.

ghost use Rattle.std.specs.Prelude.{◌≡◌, ◌++◌, ◌∷◌, [], IfOk, OnOk, Some, drop, map, take};
ghost use Rattle.act_store.specs.StoreState.{table_of};
ghost use Rattle.covered_log.specs.Lines.{entries_of, with_all, with_more};
ghost use Rattle.covered_log.specs.LogState.{new_log};
ghost use Rattle.covered_log.specs.Standings.{standings_of};
ghost use Rattle.service_views.specs.Following.{KeepsNoLine, TakesUp, Tells, TellsOrForgets, TellsTable, cancelled_by, cancelled_in, entered};
ghost use Rattle.service_views.specs.GivenLeases.{NoteOf, NotesOf, none_since};

use crate::given_leases::GivenLeases;
use act_disk::Disk;
use act_store::{Entry, Store};
use covered_log::{CoveredLog, Look, Standings};
use run_plan::{Command, Number, Reply};
use run_table::Table;
use std::alloc::{AllocError, Global};
use std::mem;
use table_views::LeaseNames;
use wf_value::{Code, Refusal};

/// The run that an entry has cancelled, if it has.
fn cancelled_by(command: &Command, reply: &Reply) -> Option<Number>
    ensures { result ≡ cancelled_by command.now reply.now }
{
    match (command, reply) {
        (Command::Cancel(run), Reply::Ok) => Some(*run),
        _ => None,
    }
}

/// Adds the run that an entry has cancelled, if it has.
fn push_cancelled(entry: &Entry, runs: &mut Vec<Number>) -> Result<(), AllocError>
    ensures { OnOk result (runs.new.items ≡ runs.old.items ++ cancelled_in (entry.now ∷ [])) }
{
    if let Some(run) = cancelled_by(&entry.command, &entry.reply) {
        runs.push(run)?;
    }
    Ok(())
}

/// The runs that the entries of a store have cancelled that were made durable since there were so many.
fn cancelled_since<D: Disk>(
    alloc: Global,
    store: &Store<D>,
    taken: u64,
) -> Result<Vec<Number>, AllocError>
    ensures { IfOk result (λ runs. runs.items ≡ cancelled_in (drop taken (take store.now.covered store.now.history))) }
{
    let mut runs = Vec::new(alloc);
    for index in taken..store.covered() {
        if let Some(entry) = store.entry(index + 1) {
            push_cancelled(entry, &mut runs)?;
        }
    }
    Ok(runs)
}

/// The changes of a service.
#[derive(Drop)]
pub(crate) struct Changes {
    log: CoveredLog,
    /// How the runs stood when they were last told; `None` if there was no memory to know it.
    standings: Option<Standings>,
    leases: GivenLeases,
    /// How many entries of the present history were taken up.
    taken: u64,
}

impl Changes {
    pub(crate) fn new(alloc: Global, process: u64, table: &Table) -> Result<Changes, AllocError>
        ensures log { IfOk result (λ changes. changes.log ≡ new_log process) }
        ensures standings { IfOk result (λ changes. changes.standings ≡ Some (standings_of table.now)) }
        ensures leases { IfOk result (λ changes. changes.leases ≡ none_since table.now.last_lease) }
        ensures taken { IfOk result (λ changes. changes.taken ≡ 0) }
    {
        Ok(Changes {
            log: CoveredLog::new(alloc, process),
            standings: Some(Standings::of(alloc, table)?),
            leases: GivenLeases::after(alloc, table),
            taken: 0,
        })
    }

    /// How many entries of the present history were taken up.
    pub(crate) fn taken(&self) -> u64
        ensures { result ≡ self.now.taken }
    {
        self.taken
    }

    // ---- what is taken up

    /// How some runs stand is not known.
    fn miss(&mut self)
        ensures none { KeepsNoLine self.new }
        ensures entries { entries_of self.new.log.changes ≡ entries_of self.old.log.changes }
        ensures rest { self.new ≡ record self.old { log = self.new.log } }
    {
        if self.log.has_room() {
            self.log.miss();
        }
    }

    /// Takes up an entry that was made durable.
    fn enter(&mut self, alloc: Global, at: u64, entry: &Entry)
        ensures told { self.new.log.changes ≡ with_more self.old.log.changes (entered at entry.now) }
        ensures leases { NoteOf entry.now self.old.leases self.new.leases }
        ensures standings { self.new.standings ≡ self.old.standings }
        ensures taken { self.new.taken ≡ self.old.taken }
    {
        self.log.tell_entry(alloc, at, &entry.command, &entry.reply);
        self.leases.note(alloc, entry);
    }

    /// Takes up the entries of a store that were made durable since the last time.
    fn enter_new<D: Disk>(&mut self, alloc: Global, store: &Store<D>, at: u64)
        ensures told { self.new.log.changes
            ≡ with_all self.old.log.changes (map (entered at) (drop self.old.taken (take store.now.covered store.now.history))) }
        ensures leases { NotesOf (drop self.old.taken (take store.now.covered store.now.history)) self.old.leases self.new.leases }
        ensures standings { self.new.standings ≡ self.old.standings }
        ensures taken { self.new.taken ≡ store.now.covered }
    {
        for index in self.taken..store.covered() {
            if let Some(entry) = store.entry(index + 1) {
                self.enter(alloc, at, entry);
            }
        }
        self.taken = store.covered();
    }

    /// Tells what the runs of a table have become since they stood so, and since commands have cancelled some. Returns how they stand.
    fn look(
        &mut self,
        alloc: Global,
        at: u64,
        table: &Table,
        cancelled: &[Number],
        known: Option<Standings>,
    ) -> Result<Standings, Refusal>
        ensures told { IfOk result (λ standings. TellsTable at cancelled.now table.now self.old.log.changes (record self.old { standings = known })
            (record self.new { standings = Some standings })) }
        ensures leases { self.new.leases ≡ self.old.leases }
        ensures entries { entries_of self.new.log.changes ≡ entries_of self.old.log.changes }
        ensures taken { self.new.taken ≡ self.old.taken }
    {
        let Some(mut standings) = known else {
            return Err(Refusal::Numbered(Code::NoMemory));
        };
        let look = Look {
            at,
            table,
            cancelled,
            names: self.leases.names(),
        };
        self.log.look(alloc, &look, &mut standings)?;
        Ok(standings)
    }

    /// Tells what the entries have made of the runs, of which commands have cancelled some. Without memory for that no lines are kept.
    fn look_new(&mut self, alloc: Global, at: u64, table: &Table, cancelled: &[Number])
        ensures told { TellsOrForgets at cancelled.now table.now self.old.log.changes self.old self.new }
        ensures leases { self.new.leases ≡ self.old.leases }
        ensures entries { entries_of self.new.log.changes ≡ entries_of self.old.log.changes }
        ensures taken { self.new.taken ≡ self.old.taken }
    {
        let mut known = None;
        mem::swap(&mut known, &mut self.standings);
        self.standings = match self.look(alloc, at, table, cancelled, known) {
            Ok(standings) => Some(standings),
            Err(_) => {
                self.miss();
                Standings::of(alloc, table).ok()
            }
        };
    }

    /// Tells what the entries of a store have made of the runs that were made durable since there were so many. Without memory for that no lines
    /// are kept.
    fn look_since<D: Disk>(&mut self, alloc: Global, at: u64, store: &Store<D>, taken: u64)
        ensures told { TellsOrForgets at (cancelled_in (drop taken (take store.now.covered store.now.history))) (table_of store.now)
            self.old.log.changes self.old self.new }
        ensures leases { self.new.leases ≡ self.old.leases }
        ensures entries { entries_of self.new.log.changes ≡ entries_of self.old.log.changes }
        ensures taken { self.new.taken ≡ self.old.taken }
    {
        let Ok(cancelled) = cancelled_since(alloc, store, taken) else {
            self.miss();
            self.standings = Standings::of(alloc, store.table()).ok();
            return;
        };
        self.look_new(alloc, at, store.table(), cancelled.as_slice());
    }

    /// Takes up the entries of a store that were made durable since the last time, and the runs and legs that they have changed. `at` is the
    /// time of the commit, in milliseconds since 1970.
    /// Promise (Views of a service): Each time the service takes up what was made durable, the changes gain exactly the entries that the history
    ///   has between the last covered one then and now, in order, each once. This is so for the first 2^64 - 1 changes
    /// By: `service_views::changes::Changes::take_up`, `entered` (`TakesUp`), `taken`
    /// Promise (Views of a service): The runner of a lease is the one to which a taken up entry gave it, if it is known; a lease that is only told
    ///   again is not given. Without memory no name is known any more, and of leases those of the last 100,000
    /// By: `service_views::changes::Changes::take_up`, `leases` (`NotesOf`, `given`, `noted`)
    /// Promise (Views of a service): After these entries the changes gain what is told of the table, all with the time of the commit, so that
    ///   readers know how it stands; without memory for that no line is kept
    /// By: `service_views::changes::Changes::take_up`, `told` (`Tells`, `table_news`, `cancelled_in`, `told_after`, `KeepsNoLine`)
    pub(crate) fn take_up<D: Disk>(&mut self, alloc: Global, store: &Store<D>, at: u64)
        ensures entered { TakesUp (drop self.old.taken (take store.now.covered store.now.history)) self.old.log self.new.log }
        ensures told { Tells at (table_of store.now) (drop self.old.taken (take store.now.covered store.now.history)) self.old self.new }
        ensures leases { NotesOf (drop self.old.taken (take store.now.covered store.now.history)) self.old.leases self.new.leases }
        ensures taken { self.new.taken ≡ store.now.covered }
    {
        let taken = self.taken;
        self.enter_new(alloc, store, at);
        self.look_since(alloc, at, store, taken);
    }

    /// A new history has begun. Places and cursors go on.
    /// Promise (Views of a service): A turn-over of the history changes no place of a change
    /// By: `service_views::changes::Changes::turn_over`, `log`
    pub(crate) fn turn_over(&mut self)
        ensures log { self.new.log ≡ self.old.log }
        ensures standings { self.new.standings ≡ self.old.standings }
        ensures taken { self.new.taken ≡ 0 }
    {
        self.taken = 0;
    }

    // ---- what is shown

    /// The log of the changes.
    pub(crate) fn log(&self) -> &CoveredLog
        ensures { result.now ≡ self.now.log }
    {
        &self.log
    }

    /// The runners of leases, as far as they are known.
    pub(crate) fn names(&self) -> &LeaseNames
        ensures { result.now ≡ self.now.leases.names }
    {
        self.leases.names()
    }
}

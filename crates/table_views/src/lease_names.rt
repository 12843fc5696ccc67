//! The runners to which leases were given.

ghost use Rattle.std.specs.Prelude.{◌≡◌, ◌+◌, ◌++◌, ◌∷◌, [], ◌<◌, ◌^◌, OnErr, OnOk, option_map};
ghost use Rattle.table_views.specs.LeaseNames.{name_of, names_with_room, no_names, noted, one_more_name};

use run_plan::{Number, RunnerName};
use std::alloc::Global;
use std::collections::VecDeque;
use std::marker::Model;
use wf_value::{Code, Refusal, TryCopy};

/// The most leases whose runners are known.
const MOST_NAMED: usize = 100_000;

/// The runners to which the last leases were given, as far as they are known.
#[derive(Drop)]
pub struct LeaseNames {
    /// The lease of the first name.
    first: u32,
    names: VecDeque<RunnerName>,
}

impl Model for LeaseNames {
    ghost use Rattle.table_views.specs.LeaseNames.{NamesState};

    ghost Value = { NamesState };

    ghost view = { λ n. record { first = n.first; names = n.names.items } };
}

impl LeaseNames {
    /// Nothing is known.
    pub fn new(alloc: Global) -> LeaseNames
        ensures { result ≡ no_names }
    {
        LeaseNames {
            first: 0,
            names: VecDeque::new(alloc),
        }
    }

    /// The name of the runner to which a lease was given, if it is known.
    pub fn name(&self, lease: Number) -> Option<&str>
        ensures { option_map (λ name. name.now) result ≡ name_of self.now lease }
    {
        let lease = lease.get();
        if lease < self.first {
            return None;
        }
        let name = self.names.get((lease - self.first) as usize)?;
        Some(name.as_str())
    }

    /// Nothing is known any more.
    fn forget(&mut self)
        ensures { self.new ≡ no_names }
    {
        self.first = 0;
        self.names.clear();
    }

    /// Makes room for one more name: the first is forgotten if as many are known as may be.
    fn make_room(&mut self)
        requires { self.old.first + 1 < 2 ^ 32 }
        ensures { self.new ≡ names_with_room self.old }
    {
        if self.names.len() >= MOST_NAMED {
            let _first = self.names.pop_front();
            self.first += 1;
        }
    }

    /// Adds the runner of the next lease, for which there is room. Without memory nothing is known any more.
    fn push(&mut self, name: RunnerName) -> Result<(), Refusal>
        ensures ok { OnOk result (self.new ≡ record { first = self.old.first; names = self.old.names ++ name ∷ [] }) }
        ensures err { OnErr result (self.new ≡ no_names) }
    {
        if self.names.push_back(name).is_err() {
            self.forget();
            return Err(Refusal::Numbered(Code::NoMemory));
        }
        Ok(())
    }

    /// Adds the runner of the next lease. Without memory nothing is known any more.
    fn add(&mut self, alloc: Global, runner: &RunnerName) -> Result<(), Refusal>
        requires { self.old.first + 1 < 2 ^ 32 }
        ensures ok { OnOk result (self.new ≡ one_more_name self.old runner.now) }
        ensures err { OnErr result (self.new ≡ no_names) }
    {
        self.make_room();
        match runner.copy(alloc) {
            Ok(name) => self.push(name),
            Err(refusal) => {
                self.forget();
                Err(refusal)
            }
        }
    }

    /// The runner of a lease is the first that is known. Without memory nothing is known any more.
    fn begin(&mut self, alloc: Global, first: u32, runner: &RunnerName) -> Result<(), Refusal>
        requires { first + 1 < 2 ^ 32 }
        ensures ok { OnOk result (self.new ≡ record { first = first; names = runner.now ∷ [] }) }
        ensures err { OnErr result (self.new ≡ no_names) }
    {
        self.names.clear();
        self.first = first;
        self.add(alloc, runner)
    }

    /// A lease was given to a runner. Without memory nothing is known any more.
    pub fn note(&mut self, alloc: Global, lease: Number, runner: &RunnerName) -> Result<(), Refusal>
        ensures ok { OnOk result (self.new ≡ noted self.old lease runner.now) }
        ensures err { OnErr result (self.new ≡ no_names) }
    {
        let lease = lease.get();
        if lease < self.first {
            return Ok(());
        }
        let index = (lease - self.first) as usize;
        if index < self.names.len() {
            return Ok(());
        }
        if self.names.len() < index {
            return self.begin(alloc, lease, runner);
        }
        self.add(alloc, runner)
    }
}

//! The holders of concurrency groups.

ghost use Rattle.std.specs.Prelude.{◌≡◌};

use crate::sites::LegSite;
use wf_value::Same;

/// A run, by its index in the table, or a leg.
#[derive(Clone, Copy)]
pub enum Holder {
    Run(usize),
    Leg(LegSite),
}

/// Which holders of a group a search looks for.
#[derive(Clone, Copy)]
pub enum HolderFilter {
    /// The pending ones, except the holder whose group it is.
    OthersPending,
    InProgress,
}

impl Holder {
    ghost use Rattle.table_model.specs.GroupLaw.{same_holder};
    ghost use Rattle.table_model.specs.Holders.{run_of};

    /// The index of its run.
    pub fn run(&self) -> usize
        ensures { result ≡ run_of self.now }
    {
        match self {
            Holder::Run(r) => *r,
            Holder::Leg(leg) => leg.run,
        }
    }

    /// Whether the two are the same holder.
    pub fn is(&self, other: &Holder) -> bool
        ensures { result ≡ same_holder self.now other.now }
    {
        match (self, other) {
            (Holder::Run(r), Holder::Run(s)) => r == s,
            (Holder::Leg(p), Holder::Leg(q)) => p.run == q.run && p.job == q.job && p.leg == q.leg,
            _ => false,
        }
    }
}

impl Same for Holder {
    fn same(&self, other: &Self) -> bool {
        self.is(other)
    }
}

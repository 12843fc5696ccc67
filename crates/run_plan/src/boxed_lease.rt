ghost use Rattle.std.specs.Prelude.{◌≡◌, IfOk, Ok};

use crate::reply::Lease;
use std::alloc::{AllocError, Global};
use std::marker::Model;
use wf_value::{Refusal, Same, TryCopy};

/// A boxed lease. Most replies have no lease, so boxing keeps a reply as small as a text. In contracts it is the lease.
#[derive(Drop)]
pub struct BoxedLease {
    inside: Box<Lease>,
}

impl Model for BoxedLease {
    ghost use Rattle.run_plan.specs.declared.reply.Lease.{Lease};

    ghost Value = { Lease };

    ghost view = { λ b. b.inside.value };
}

impl BoxedLease {
    /// Refusal (The layers below): `run_plan`: `BoxedLease::new`
    /// When: `std::alloc::AllocError`
    /// Afterwards: nothing is made
    /// By: its one clause
    pub fn new(alloc: Global, lease: Lease) -> Result<Self, AllocError>
        ensures { IfOk result (λ boxed. boxed ≡ lease) }
    {
        Ok(BoxedLease {
            inside: Box::new(alloc, lease)?,
        })
    }

    pub fn get(&self) -> &Lease
        ensures { result.now ≡ self.now }
    {
        &self.inside
    }
}

impl TryCopy for BoxedLease {
    fn copy(&self, alloc: Global) -> Result<Self, Refusal> {
        Ok(BoxedLease::new(alloc, self.get().copy(alloc)?)?)
    }
}

impl Same for BoxedLease {
    fn same(&self, other: &Self) -> bool {
        self.get().same(other.get())
    }
}

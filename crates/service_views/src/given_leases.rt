//! The leases that are given to runners while a service goes on.

ghost use Rattle.std.specs.Prelude.{◌≡◌, option_map};
ghost use Rattle.service_views.specs.GivenLeases.{NoteOf, claim_of, lease_of, none_since};

use act_store::Entry;
use run_plan::{BoxedLease, Claim, Command, Reply};
use run_table::Table;
use std::alloc::Global;
use std::marker::Model;
use table_views::LeaseNames;

fn claim_of(command: &Command) -> Option<&Claim>
    ensures { option_map (λ claim. claim.now) result ≡ claim_of command.now }
{
    match command {
        Command::Claim(claim) => Some(claim),
        _ => None,
    }
}

fn lease_of(reply: &Reply) -> Option<&BoxedLease>
    ensures { option_map (λ lease. lease.now) result ≡ lease_of reply.now }
{
    match reply {
        Reply::Lease(lease) => Some(lease),
        _ => None,
    }
}

/// The leases that were given since a service began.
#[derive(Drop)]
pub(crate) struct GivenLeases {
    /// The last lease that was given, now or before.
    last: u32,
    /// The runners of those since then, as far as they are known.
    names: LeaseNames,
}

impl Model for GivenLeases {
    ghost use Rattle.service_views.specs.GivenLeases.{LeasesState};

    ghost Value = { LeasesState };

    ghost view = { λ g. record { last = g.last; names = g.names } };
}

impl GivenLeases {
    /// A service begins with a table.
    pub(crate) fn after(alloc: Global, table: &Table) -> GivenLeases
        ensures { result ≡ none_since table.now.last_lease }
    {
        GivenLeases {
            last: table.last_lease(),
            names: LeaseNames::new(alloc),
        }
    }

    /// The runners of leases, as far as they are known.
    pub(crate) fn names(&self) -> &LeaseNames
        ensures { result.now ≡ self.now.names }
    {
        &self.names
    }

    /// Notes the runner to which an entry gives a lease. A kept reply that is told again gives none. Without memory no runner is known any more.
    pub(crate) fn note(&mut self, alloc: Global, entry: &Entry)
        ensures { NoteOf entry.now self.old self.new }
    {
        let Some(claim) = claim_of(&entry.command) else {
            return;
        };
        let Some(lease) = lease_of(&entry.reply) else {
            return;
        };
        let lease = lease.get().lease;
        if self.last < lease.get() {
            self.last = lease.get();
            let _ = self.names.note(alloc, lease, &claim.runner);
        }
    }
}

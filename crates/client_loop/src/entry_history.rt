ghost use Rattle.std.specs.Prelude.{◌≡◌, ◌++◌, []};

use act_disk::Disk;
use act_store::Store;
use http_server::Log;
use std::marker::Model;

/// The entries of a store's earlier histories, which only contracts read. They take no memory.
#[derive(Drop)]
pub(crate) struct EntryHistory<D: Disk> {
    stores: Log<Store<D>, bool>,
}

impl<D: Disk> Model for EntryHistory<D> {
    ghost use Rattle.std.specs.Prelude.{List, flat_map};
    ghost use Rattle.act_store.specs.declared.entry.Entry.{Entry};

    ghost Value = { List Entry };

    ghost view = { λ h. flat_map (λ x. x.0.history) h.stores.items };
}

impl<D: Disk> EntryHistory<D> {
    pub(crate) fn new() -> EntryHistory<D>
        ensures { result ≡ [] }
    {
        EntryHistory { stores: Log::new() }
    }

    /// These entries with the history of a store at their end.
    pub(crate) fn with(&self, store: &Store<D>) -> EntryHistory<D>
        ensures { result ≡ self.now ++ store.now.history }
    {
        EntryHistory {
            stores: self.stores.and(store, &true),
        }
    }
}

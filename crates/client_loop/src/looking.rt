//! What may be seen of a service between its turns.

ghost use Rattle.std.specs.Prelude.{◌<◌, IfNone, IfSome, length};
ghost use Rattle.client_loop.specs.Looking.{IsSeen};
ghost use Rattle.client_loop.specs.Service.{covered_of, history_of};

use crate::service::Service;
use crate::stream::Stream;
use act_disk::Disk;
use act_sessions::Protocol;
use run_table::Table;

impl<D: Disk, P: Protocol, Q: Protocol, S: Stream> Service<D, P, Q, S> {
    /// The table after all entries, if they are all covered: no crash takes back what it shows. Nothing is entered, and no device call is
    /// made.
    /// Promise (Views of a service): What is shown is the table after all entries of the history, which are all covered: at that moment each
    ///   image of the disk recovers to exactly this table
    /// By: `client_loop::Service::seen_table`, `seen` (`IsSeen`)
    /// Promise (Views of a service): To show a table nothing is entered, and no device is called. Nothing is shown only while an entry is not
    ///   covered
    /// By: `client_loop::Service::seen_table`, `seen` (`IsSeen`), `none`
    pub fn seen_table(&self) -> Option<&Table>
        ensures seen { IfSome result (λ table. IsSeen D.honest D.images self.now table.now) }
        ensures none { IfNone result (covered_of self.now < length (history_of self.now)) }
    {
        if self.is_covered() {
            Some(self.store.table())
        } else {
            None
        }
    }
}

ghost use Rattle.std.specs.Prelude.{◌≡◌};
ghost use Rattle.act_desk.specs.Settled.{HasEnded, IsUnread};

use crate::ended::Ended;
use crate::host::Host;
use act_sessions::{Ending, Transcript, Work};
use std::alloc::Global;
use std::marker::Model;
use std::snapshot::Snapshot;
use std::thread::{Promise, PromisedHandle, Scope, Threads};

/// The promise of a session's thread: the transcript of a session that has ended.
#[derive(Drop)]
pub(crate) struct Ends<W: Work>(Snapshot<W>);

impl<W: Work> Promise<Ended> for Ends<W> {
    ghost use Rattle.act_desk.specs.Settled.{HasEnded};

    ghost kept_by = { λ p e. HasEnded (W.ends p.0.value) e.transcript };
}

/// A session that was started, or could not be started. Contracts see its work.
#[derive(Drop)]
pub(crate) struct Running<W: Work> {
    handle: Option<PromisedHandle<Ended, Ends<W>>>,
    work: Snapshot<W>,
}

impl<W: Work> Model for Running<W> {
    ghost use Rattle.std.specs.Prelude.{◌≡◌, IfSome};

    ghost Value = { W };

    ghost view = { λ r. r.work.value };

    ghost invariant = { λ r. IfSome r.handle (λ h. h.promise.0.value ≡ r.work.value) };
}

impl<W: Work> Running<W> {
    /// Starts a session in a thread of the scope, at the next seat of a host.
    pub(crate) fn start<'s, 'e, S: Send + Drop + 's, H: Host<S> + Sync + 's>(
        scope: &'s Scope<'s, &'e ()>,
        host: &'s H,
        work: W,
    ) -> Running<W>
    where
        W: Send + 's,
        ensures { result ≡ work }
    {
        let snapshot = Snapshot::of(&work);
        let promise = Ends(Snapshot::of(&work));
        let Some(seat) = host.seat() else {
            return Running {
                handle: None,
                work: snapshot,
            };
        };
        let session = move || -> Ended
            ensures { HasEnded (W.ends work) result.transcript }
        { host.hold(seat, work) };
        match scope.spawn_with(promise, session) {
            Ok(handle) => Running {
                handle: Some(handle),
                work: snapshot,
            },
            Err(refused) => {
                drop(refused);
                Running {
                    handle: None,
                    work: snapshot,
                }
            }
        }
    }

    /// Waits until the session has ended.
    pub(crate) fn join(self, rt: &impl Threads, alloc: Global) -> Transcript
        ensures { HasEnded (W.ends self) result }
    {
        let Running { handle, .. } = self;
        match handle {
            Some(handle) => handle.join(rt).transcript,
            None => unread(alloc),
        }
    }
}

/// The transcript of a session that could not be started.
fn unread(alloc: Global) -> Transcript
    ensures { IsUnread result }
{
    Transcript::new(alloc).ended(Ending::Memory)
}

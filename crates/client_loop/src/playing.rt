ghost use Rattle.std.specs.Prelude.{◌↔◌};
ghost use Rattle.definitions.specs.Disk.{EachSince};
ghost use Rattle.act_store.specs.StoreState.{RecoversToSome};
ghost use Rattle.client_loop.specs.Events.{Grows, Happens, Plays, Survives};
ghost use Rattle.client_loop.specs.Service.{IsPromised, covered_of, history_of};
ghost use Rattle.client_loop.specs.Slots.{by_port};

use crate::event::Event;
use crate::service::Service;
use crate::stream::Stream;
use act_disk::Disk;
use act_sessions::Protocol;
use act_store::Step;
use std::alloc::Global;

/// One event. An event that is not possible changes nothing.
fn happen<D: Disk, P: Protocol, Q: Protocol, S: Stream>(
    alloc: Global,
    service: &mut Service<D, P, Q, S>,
    event: &Event,
    streams: &mut Vec<S>,
    buffer: &mut Vec<u8>,
)
    ensures happens { Happens (by_port service.old.slots.hooks P.rules Q.rules) service.old event.now service.new }
    ensures survives { Survives D.honest D.moment D.images_since service.old service.new }
{
    let _covered = service.is_covered();
    match event {
        Event::Joins(index) => {
            if let Some(stream) = streams.pop() {
                service.join(alloc, *index, stream);
            }
        }
        Event::Hears(index) => {
            service.hear_from(alloc, *index, buffer);
        }
        Event::GoesOn(index) => {
            service.go_on(alloc, *index);
        }
        Event::Sends(index) => {
            service.send_to(*index);
        }
        Event::Discards(index) => {
            service.discard(*index, buffer);
        }
        Event::Leaves(index) => {
            service.leave(*index);
        }
        Event::Parts(index) => {
            service.part(alloc, *index);
        }
        Event::Commits => {
            let _ = service.commit();
        }
        Event::Begins => {
            service.step(alloc, Step::Begin);
        }
        Event::Slices => {
            service.step(alloc, Step::Slice);
        }
        Event::Finishes => {
            service.step(alloc, Step::Finish);
        }
        Event::TurnsOver => {
            let _ = service.turn_over();
        }
    }
}

/// Any events in any order, whatever the device does and whatever the streams give and take. The next client gets the last of the streams; a
/// read takes as many bytes as the buffer has.
///
/// Whatever bytes come to any clients in whatever pieces and order, and whenever the machine crashes, the disk recovers to the state after
/// some first entries of one history, with every command of which a client was sent a byte of the answer. Each client was sent the bytes
/// that its own bytes and that history spell, or a prefix of them. The history keeps the law of concurrency groups.
/// Promise (A service in one thread): Any events in any order, whatever the device does: at every moment of each event the disk recovers to the
///   table after some first entries of one history, with all covered when the event began
/// By: `client_loop::play`, `plays` (`Plays`, `Happens`, `Survives`), `any_moment`, `grows`, `honest`
/// Promise (A service in one thread): Each event but a client's joining is left out only for its cause: no client, a session that is over or goes
///   on, a stream that gives nothing, answers that are not covered, nothing withheld, or a refusal of the store
/// By: `client_loop::play`, `plays` (`Happens`)
/// Promise (A service in one thread): That history begins at the service's first table. A turn-over changes neither the history nor what is
///   covered
/// By: `client_loop::play`, `plays` (`Plays`, `Happens`), `grows`
/// Promise (A service in one thread): The history of a service is sequential and keeps the law of concurrency groups
/// By: `client_loop::play`, `promise`; `client_loop::Service::is_covered`, `promise` (`IsPromised`)
/// Promise (A service in one thread): The entries under a slot's number are the commands of its clients, in order, each once, with the replies
///   of their steps, and there are no others
/// By: `client_loop::play`, `promise`; `client_loop::Service::is_covered`, `promise` (`AreServed`, `Enters`)
pub fn play<D: Disk, P: Protocol, Q: Protocol, S: Stream>(
    alloc: Global,
    service: &mut Service<D, P, Q, S>,
    events: &[Event],
    streams: &mut Vec<S>,
    buffer: &mut Vec<u8>,
)
    ensures plays { Plays (Survives D.honest D.moment D.images_since) (by_port service.old.slots.hooks P.rules Q.rules) service.old events.now
        service.new }
    ensures promise { IsPromised (by_port service.new.slots.hooks P.rules Q.rules) D.honest D.images service.new }
    ensures any_moment { D.honest service.old.store.disk → EachSince D.moment D.images_since service.old.store.disk service.new.store.disk
        (RecoversToSome service.new.origin (history_of service.new) (covered_of service.old)) }
    ensures grows { Grows service.old service.new }
    ensures honest { D.honest service.new.store.disk ↔ D.honest service.old.store.disk }
{
    for event in events {
        happen(alloc, service, event, streams, buffer);
    }
    let _covered = service.is_covered();
}

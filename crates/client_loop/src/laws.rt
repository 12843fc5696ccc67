//! Laws of services over definitions, whatever events come.

ghost use Rattle.std.specs.Prelude.{◌≡◌, ◌⊎◌, ◌≤◌, ◌++◌, ℕ, List, [], take, true};
ghost use Rattle.table_model.specs.TableState.{TableState};
ghost use Rattle.act_sessions.specs.Exchange.{Exchange};
ghost use Rattle.act_store.specs.Images.{RecoversTo};
ghost use Rattle.act_store.specs.Reopened.{EndsAt};
ghost use Rattle.act_store.specs.declared.entry.Entry.{Entry};
ghost use Rattle.client_loop.specs.Clients.{ClientState, IsDurable};
ghost use Rattle.client_loop.specs.Entering.{entries_of, part_of};
ghost use Rattle.client_loop.specs.Events.{Happens};
ghost use Rattle.client_loop.specs.Service.{IsPromised, IsStuck, ServiceState, history_of, life_of};
ghost use Rattle.client_loop.specs.Slots.{by_port};
ghost use Rattle.client_loop.specs.declared.event.Event.{Event};
ghost use Rattle.client_loop.specs.declared.event.Event.TheVariants as event;

use act_disk::Disk;
use act_sessions::Protocol;

/// A crash leaves some first entries of the history, with all covered ones. Under the number of a client's slot they begin with the entries
/// of all commands that the client had submitted when bytes were last sent to it.
/// Promise (A service in one thread): After a crash at any point later than bytes were sent to a client, its number still begins with the
///   commands that it had submitted by then
/// By: `client_loop::laws::released_answers_survive` (`IsDurable`)
pub fn released_answers_survive()
    ensures { (history : List Entry) (covered count number : ℕ) (before : List Exchange) (c : ClientState) → IsDurable history covered number before c
        → covered ≤ count → (c.released.exchanges ≡ [])
        ⊎ ((rest : List Entry) × (part_of number (take count history) ≡ entries_of number (before ++ c.released.exchanges) ++ rest)) }
{}

/// A crash ends a service as it ends one life of a store. So `act_store::laws` speak of the service's whole history: no delivery that was
/// acknowledged makes another run, and an acknowledged reply is given again.
/// Promise (A service in one thread): A crash ends a service as it ends one life of a store, so what is known of acknowledged entries is known
///   of its whole history
/// By: `client_loop::laws::a_crash_ends_one_life` (`EndsAt`, `life_of`); `act_store::laws::{a_delivery_makes_one_run, a_kept_reply_is_given_again,
///   an_attempt_begins_once}`
pub fn a_crash_ends_one_life<D: Disk, P: Protocol, Q: Protocol>()
    ensures { (hooks : ℕ) (s : ServiceState D) (image : List ℕ) (table : TableState)
        → IsPromised (by_port hooks P.rules Q.rules) D.honest D.images s → D.honest s.store.disk → D.images s.store.disk image → RecoversTo table image
        → EndsAt (life_of s) table }
{}

/// Once the device has failed, nothing is entered. While an entry under a slot's number is not covered, that stays so whatever happens, and
/// no byte of an answer is sent to the clients of the slot any more.
/// Promise (A service in one thread): Once the device has failed nothing is entered. To a client under whose number an entry is not covered no
///   byte of an answer is sent any more, but only a refusal 52 as the service parts with it
/// By: `client_loop::laws::a_fault_silences`, `enters_nothing`, `stays`, `silent` (`IsStuck`)
pub fn a_fault_silences<D: Disk, P: Protocol, Q: Protocol>()
    ensures enters_nothing { (hooks : ℕ) (old new : ServiceState D) (next : Event) → old.store.failed ≡ true
        → Happens (by_port hooks P.rules Q.rules) old next new → (new.store.failed ≡ true) × (history_of new ≡ history_of old) }
    ensures stays { (hooks index : ℕ) (old new : ServiceState D) (next : Event) → IsStuck index old
        → Happens (by_port hooks P.rules Q.rules) old next new → IsStuck index new }
    ensures silent { (hooks index : ℕ) (old new : ServiceState D) → IsStuck index old
        → Happens (by_port hooks P.rules Q.rules) old (event.Sends index) new → new ≡ old }
{}

//! The desk: many threads, one history. Each command is entered under one lock, and its reply is released once a crash can no longer lose
//! the entry.
#![tactic(auto)]

mod alone;
mod book;
mod book_rules;
mod checkpoints;
mod desk;
mod desk_state;
mod ended;
mod event;
mod flush;
mod flusher_desk;
mod gate;
mod host;
mod ledgers;
mod linger;
mod locked;
mod marks;
mod named;
mod pending;
mod prefix;
mod running;
mod seat;
mod seat_answerer;
mod seats;
mod serve;
mod settle;
mod settled;
mod starting;

pub use alone::Alone;
pub use checkpoints::flusher;
pub use desk::Desk;
pub use event::{Event, Note};
pub use flusher_desk::FlusherDesk;
pub use gate::{Free, Gate};
pub use ledgers::{Ledgers, MAX_SEATS};
pub use locked::LockedStore;
pub use named::Named;
pub use pending::Pending;
pub use prefix::{HistoryPrefix, HistoryWriter, Unnamed};
pub use seat::Seat;
pub use serve::serve_all;
pub use settled::{Fault, Settled};

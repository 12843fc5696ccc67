//! A service of many clients over one store, in one thread. It takes the bytes that clients send, enters their commands in one history, and
//! withholds each answer until its entry is durable.
#![tactic(auto)]

mod author;
mod byte_history;
mod client;
mod entry_history;
mod event;
mod exchange_history;
mod hearing;
pub mod laws;
mod looking;
mod parting;
mod pause;
mod playing;
mod sending;
mod service;
mod session;
mod slot;
mod slots;
mod status;
mod storing;
mod stream;
mod turns;

pub use event::Event;
pub use playing::play;
pub use service::Service;
pub use session::MAX_REQUESTS;
pub use slots::Slots;
pub use status::ClientStatus;
pub use stream::Stream;
pub use turns::MAX_WITHHELD;

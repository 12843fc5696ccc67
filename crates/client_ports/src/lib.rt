//! The ports of a service: their listeners, with slots for clients, and the streams of clients, which are read and written without waiting.
#![tactic(auto)]

mod exchange;
mod next;
mod port;

pub use exchange::{ClientReader, ClientWriter, Input, would_block};
pub use next::Next;
pub use port::{MAX_CLIENTS, Port};

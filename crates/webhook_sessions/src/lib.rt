//! HTTP/1.1 sessions: what a sender's bytes demand, and the bytes that answer them.
#![tactic(auto)]

mod answers;
mod demand;
mod event_headers;
mod fault;
mod fields;
mod head;
mod head_lines;
mod hook;
pub mod laws;
mod length;
mod occurrence;
mod path;
mod protocol;
mod request;
mod session;
mod statuses;

pub use hook::Hook;
pub use protocol::Hooks;
pub use session::Session;

//! Serves a store on two ports in rounds of a fixed number of sessions, each in a thread: sessions of HTTP on one port, and sessions of
//! runner lines on the other.
#![tactic(auto)]

mod closing;
mod connection;
mod serve;

pub use serve::{serve_on, serve_rounds};

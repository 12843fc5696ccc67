//! The view port of a service: its clients, which are served what they ask for. It writes nothing into the store.
#![tactic(auto)]

mod viewer;
mod views;

pub use views::{FIRST_TOKEN, ViewPort, Views};

//! Serves a store on two ports without end, in one loop: sessions of HTTP on one port, and sessions of runner lines on the other.
#![tactic(auto)]

mod checkpoints;
mod client;
mod clients;
mod farewell;
mod forever;
mod keeping;
mod limits;
mod linger;
mod stream;
mod turns;

pub use forever::{Ports, serve_forever};
pub use limits::Limits;
pub use service_views::Board;
pub use view_port::ViewPort;

//! What a command uses of the system, with the errors of the system: the standard streams, the file of a store, other files, and ports.
//! Contracts say what an opened file holds, and the number of a fault; none describes the rest.
#![tactic(auto)]

mod fault;
mod files;
mod length_limit;
mod noted;
mod opening;
mod ports;
mod streams;
mod waiting;

pub use fault::ResourceFault;
pub use files::file_in;
pub use noted::Noted;
pub use opening::RealDisk;
pub use ports::listener;
pub use streams::HeldStreams;

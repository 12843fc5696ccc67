//! Disks: what a read returns, and what a crash of the machine at any moment may leave.
#![tactic(auto)]

mod call;
mod call_log;
mod disk;
mod failing;
mod fault;
mod file;
mod file_calls;
mod fuse;
mod host_file;
mod image;
mod memory;
mod open;
mod scripted_file;
mod start;
mod synced;
mod system_call;
mod system_file;
mod tally;
mod zeros;

pub use call::{Call, Fill};
pub use disk::Disk;
pub use failing::Failing;
pub use fault::DiskFault;
pub use file::FileDisk;
pub use fuse::FuseDisk;
pub use host_file::HostFile;
pub use memory::MemoryDisk;
pub use open::sync_folder;
pub use scripted_file::{ScriptedCall, ScriptedFile};
pub use start::{Empty, Start};
pub use synced::write_synced;
pub use system_file::{CallError, SystemFile};
pub use zeros::grow_to;

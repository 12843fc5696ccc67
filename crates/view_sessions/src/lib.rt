//! HTTP/1.1 sessions on the view port: which view a client's bytes ask for, and the bytes that answer it.
#![tactic(auto)]

mod answer;
mod board_file;
mod cursor;
mod fault;
mod file_bytes;
mod parameter;
mod path;
mod query;
mod request;
mod session;
mod target;
mod value_text;
mod view;

pub use answer::{Answer, Content};
pub use board_file::BoardFile;
pub use cursor::Cursor;
pub use fault::ViewFault;
pub use file_bytes::FileBytes;
pub use request::{FoundView, ViewRequest, next_view};
pub use session::{ViewSession, Writable};
pub use view::{ChangesQuery, GroupsQuery, QueueQuery, RunQuery, RunnersQuery, RunsQuery, View};

use run_plan::{Command, Reply};

/// An entry of a history: the seat that asked, the command, and the reply.
#[derive(Drop)]
pub struct Entry {
    pub seat: u64,
    pub command: Command,
    pub reply: Reply,
}

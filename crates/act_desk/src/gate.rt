/// Called before and after each command of a session, in its thread, without a lock held. Sessions and calls count from 0.
pub trait Gate {
    fn before(&self, session: u64, call: u64);

    fn after(&self, session: u64, call: u64);
}

/// The gate that does nothing.
pub struct Free;

impl Gate for Free {
    fn before(&self, _session: u64, _call: u64) {}

    fn after(&self, _session: u64, _call: u64) {}
}

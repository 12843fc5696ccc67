/// The state of an area's gate.
#[derive(Clone, Copy)]
pub enum GateState {
    Open,
    Closed,
}

/// The byte that closes a gate.
pub(crate) const CLOSED: u8 = 0;

/// What may happen to a service.
#[derive(Drop)]
pub enum Event {
    /// A client takes a slot, with the next stream.
    Joins(usize),
    /// The stream of the client of a slot is read once, and what came is heard.
    Hears(usize),
    /// The service continues with what the client of a slot has sent before.
    GoesOn(usize),
    /// The bytes that are withheld from the client of a slot are sent, as many as its stream takes.
    Sends(usize),
    /// What the client of a slot sends after its session is read, and not heard.
    Discards(usize),
    /// The client of a slot leaves, since its session is over, its input has ended, or its stream has failed.
    Leaves(usize),
    /// The service parts with the client of a slot, since the device has failed.
    Parts(usize),
    Commits,
    /// A checkpoint is begun.
    Begins,
    /// A slice of it is written.
    Slices,
    Finishes,
    /// The store's history restarts.
    TurnsOver,
}

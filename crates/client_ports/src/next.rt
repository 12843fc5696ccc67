/// What a client is to do after its turn.
#[derive(Clone, Copy, Debug, PartialEq, Eq)]
pub enum Next {
    /// It is heard in the next turn.
    Again,
    /// It waits until its stream reports something.
    Waits,
    /// Its stream is closed.
    Closes,
}

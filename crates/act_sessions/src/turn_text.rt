/// The bytes that answer a request.
#[derive(Drop)]
pub struct TurnText {
    pub bytes: Vec<u8>,
    /// Whether they are the last of the session.
    pub last: bool,
}

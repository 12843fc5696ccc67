/// Why a session takes no further turn for now.
#[derive(Clone, Copy)]
pub(crate) enum Pause {
    /// Its bytes are no request yet.
    Waits,
    /// It took as many turns as it may at a time, or many bytes are withheld.
    More,
    /// Its last turn ended it.
    Over,
    /// It ran out of memory, and every command that was entered is answered.
    Memory,
    /// It ran out of memory for the answer to a command that was entered.
    Unanswered,
}

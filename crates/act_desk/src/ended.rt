use act_sessions::Transcript;

/// The result of a session's thread.
#[derive(Drop)]
pub(crate) struct Ended {
    pub(crate) transcript: Transcript,
}

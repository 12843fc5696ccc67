use run_plan::Reply;

/// What a caller gets for an entry: its reply, and its position in the history, counted from 1.
#[derive(Drop)]
pub struct Receipt {
    pub reply: Reply,
    pub place: u64,
}

/// The format of printed lines.
#[derive(Clone, Copy)]
pub enum Form {
    /// Words, separated by single spaces.
    Lines,
    /// JSON objects, one per line. RFC 8259.
    Json,
}

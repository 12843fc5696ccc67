use wf_value::Chars;

/// The concurrency groups that a list shows: those of this repository, or with this case-folded name.
#[derive(Drop)]
pub struct GroupFilter {
    pub repository: Option<Chars>,
    pub group: Option<Chars>,
}

use group_name::GroupKey;
use table_model::Holder;

/// A run or a leg that holds a concurrency group or waits for it.
#[derive(Drop)]
pub(crate) struct GroupClaim {
    pub group: GroupKey,
    pub holder: Holder,
}

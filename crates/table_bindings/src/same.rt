//! Whether the same was bound.

ghost use Rattle.std.specs.Prelude.{◌≡◌, ◌↔◌, IsTrue};

use crate::bindings::JobBindings;
use crate::groups::{BoundFlag, GroupRequest};
use crate::label_numbers::ListNumbers;
use crate::resolved_labels::ResolvedLabels;
use group_name::same_pieces;
use label_lists::LabelList;
use wf_expr::BoundTemplate;
use wf_value::{Same, same_items};

fn same_templates(one: &[BoundTemplate], other: &[BoundTemplate]) -> bool
    ensures { IsTrue result ↔ (one.now ≡ other.now) }
{
    if one.len() != other.len() {
        return false;
    }
    for (x, y) in one.iter().zip(other) {
        if !same_pieces(x.pieces(), y.pieces()) {
            return false;
        }
    }
    true
}

fn same_texts(one: &LabelList, other: &LabelList) -> bool
    ensures { IsTrue result ↔ (one.now ≡ other.now) }
{
    same_items(one.as_slice(), other.as_slice())
}

fn same_plain(one: &Option<LabelList>, other: &Option<LabelList>) -> bool
    ensures { IsTrue result ↔ (one.now ≡ other.now) }
{
    match (one, other) {
        (Some(one), Some(other)) => same_texts(one, other),
        (None, None) => true,
        _ => false,
    }
}

impl Same for BoundFlag {
    fn same(&self, other: &Self) -> bool {
        match (self, other) {
            (BoundFlag::Fixed(one), BoundFlag::Fixed(other)) => *one == *other,
            (BoundFlag::Template(one), BoundFlag::Template(other)) => {
                same_pieces(one.pieces(), other.pieces())
            }
            _ => false,
        }
    }
}

impl Same for GroupRequest {
    fn same(&self, other: &Self) -> bool {
        self.group.is_same_name(&other.group) && self.cancels.same(&other.cancels)
    }
}

impl Same for ResolvedLabels {
    fn same(&self, other: &Self) -> bool {
        match (self, other) {
            (ResolvedLabels::Known(one), ResolvedLabels::Known(other)) => same_texts(one, other),
            (ResolvedLabels::ByResults(one), ResolvedLabels::ByResults(other)) => {
                same_templates(one.as_slice(), other.as_slice())
            }
            _ => false,
        }
    }
}

impl Same for JobBindings {
    fn same(&self, other: &Self) -> bool {
        self.groups.same(&other.groups)
            && self.labels.same(&other.labels)
            && same_plain(&self.plain, &other.plain)
            && self.flags.same(&other.flags)
    }
}

impl Same for ListNumbers {
    fn same(&self, other: &Self) -> bool {
        self.whole == other.whole && self.legs.same(&other.legs)
    }
}

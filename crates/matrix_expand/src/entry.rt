ghost use Rattle.std.specs.Prelude.{◌≡◌, ◌+◌, ◌++◌, ◌^◌, ◌<◌, length, IsTrue, IfOk, IfErr, Ok};
ghost use Rattle.wf_value.specs.Gives.{Gives, no_memory};
ghost use Rattle.definitions.specs.Rising.{names_rise};
ghost use Rattle.matrix_expand.specs.inner.Entries.{object_entries, comes_before, merged, SortsEntries};

use std::alloc::Global;
use std::marker::Model;
use wf_value::{Chars, Combo, Refusal, Scalar};

/// A pair of an object, and the index of the object.
#[derive(Drop)]
pub struct Entry<'a> {
    object: usize,
    name: &'a Chars,
    value: &'a Scalar,
}

impl<'a> Model for Entry<'a> {
    ghost use Rattle.matrix_expand.specs.inner.Values.{EntryValue, coded_entry};

    ghost Value = { EntryValue };

    ghost coded = { coded_entry };

    ghost view = { λ e. (e.object, (e.name.now, e.value.now)) };
}

impl<'a> Entry<'a> {
    pub fn new(object: usize, name: &'a Chars, value: &'a Scalar) -> Self
        ensures { result ≡ (object, (name.entry.now, value.entry.now)) }
    {
        Entry {
            object,
            name,
            value,
        }
    }

    pub fn again(&self) -> Entry<'a>
        ensures { result ≡ self.now }
    {
        Entry {
            object: self.object,
            name: self.name,
            value: self.value,
        }
    }

    pub fn object(&self) -> usize
        ensures { result ≡ self.now.0 }
    {
        self.object
    }

    pub fn name(&self) -> &'a Chars
        ensures { result.now ≡ self.now.1.0 }
    {
        self.name
    }

    pub fn value(&self) -> &'a Scalar
        ensures { result.now ≡ self.now.1.1 }
    {
        self.value
    }

    /// Whether the name comes before the other's, by bytes.
    fn comes_before(&self, other: &Entry) -> bool
        ensures { result ≡ comes_before self.now other.now }
    {
        self.name.as_str() < other.name.as_str()
    }
}

/// The pairs of one object.
fn entries_of<'a>(alloc: Global, index: usize, object: &'a Combo) -> Result<Vec<Entry<'a>>, Refusal>
    ensures entries { Gives (λ v. v.items) result (Ok (object_entries index object.entry.now)) }
    ensures in_order { IsTrue (names_rise object.entry.now) }
{
    let pairs = object.as_slice();
    let mut entries = Vec::with_capacity(alloc, pairs.len())?;
    for (name, value) in pairs {
        entries.push(Entry::new(index, name, value))?;
    }
    Ok(entries)
}

/// Merges entries that are sorted by name. Of two entries with the same name, the one from `right` comes first.
pub fn merge<'a>(
    alloc: Global,
    left: &[Entry<'a>],
    right: &[Entry<'a>],
) -> Result<Vec<Entry<'a>>, Refusal>
    ensures { Gives (λ v. v.items) result (Ok (merged left.now right.now)) }
{
    let mut entries = Vec::new(alloc);
    let mut i = 0;
    let mut j = 0;
    while i < left.len() && j < right.len() {
        if left[i].comes_before(&right[j]) {
            entries.push(left[i].again())?;
            i += 1;
        } else {
            entries.push(right[j].again())?;
            j += 1;
        }
    }
    push_all(&mut entries, &left[i..])?;
    push_all(&mut entries, &right[j..])?;
    Ok(entries)
}

/// Appends all entries.
fn push_all<'a>(entries: &mut Vec<Entry<'a>>, more: &[Entry<'a>]) -> Result<(), Refusal>
    ensures { Gives (λ _. entries.new.items) result (Ok (entries.old.items ++ more.now)) }
{
    for entry in more {
        entries.push(entry.again())?;
    }
    Ok(())
}

/// The pairs of several objects, in the order of their names; the first object has the index `first`. This is a merge sort: each
/// pair moves once per doubling of the number of objects.
pub fn entries<'a>(
    alloc: Global,
    first: usize,
    objects: &'a [Combo],
) -> Result<Vec<Entry<'a>>, Refusal>
    requires { first + length objects.now < 2 ^ 64 }
    ensures sorted { IfOk result (λ v. SortsEntries first objects.entry.now v.items) }
    ensures err { IfErr result (λ e. e ≡ no_memory) }
{
    match objects {
        [] => Ok(Vec::new(alloc)),
        [object] => entries_of(alloc, first, object),
        _ => {
            let (front, back) = objects.split_at(objects.len() / 2);
            let left = entries(alloc, first, front)?;
            let right = entries(alloc, first + front.len(), back)?;
            merge(alloc, left.as_slice(), right.as_slice())
        }
    }
}

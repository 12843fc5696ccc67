ghost use Rattle.std.specs.Prelude.{◌≡◌, ◌↔◌, IsTrue};

/// Equality that agrees with equality in contracts.
pub trait Same {
    /// Whether both are the same value.
    fn same(&self, other: &Self) -> bool
        ensures { IsTrue result ↔ (self.now ≡ other.now) };
}

impl Same for u64 {
    fn same(&self, other: &Self) -> bool {
        *self == *other
    }
}

impl Same for usize {
    fn same(&self, other: &Self) -> bool {
        *self == *other
    }
}

impl<A: Same, B: Same> Same for (A, B) {
    fn same(&self, other: &Self) -> bool {
        self.0.same(&other.0) && self.1.same(&other.1)
    }
}

/// Whether both have the same values in the same order.
pub fn same_items<T: Same>(one: &[T], other: &[T]) -> bool
    ensures { IsTrue result ↔ (one.now ≡ other.now) }
{
    if one.len() != other.len() {
        return false;
    }
    for (x, y) in one.iter().zip(other) {
        if !x.same(y) {
            return false;
        }
    }
    true
}

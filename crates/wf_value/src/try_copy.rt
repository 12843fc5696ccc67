ghost use Rattle.std.specs.Prelude.{◌≡◌, [], IsOk, Ok};
ghost use Rattle.wf_value.specs.Gives.{Gives};

use crate::refusal::Refusal;
use std::alloc::Global;

/// Copying that may run out of memory.
pub trait TryCopy {
    /// A copy. In contracts it is equal to the value itself.
    /// Promise (Needs, matrices, templates and values): A copy is equal to the original, and a comparison is exact. What needs no memory is
    ///   copied memory or not
    /// By: `wf_value::TryCopy::copy`; `wf_value::copy_items`, `answers`; `wf_value::Same::same`; `wf_value::same_items`
    /// Refusal (The layers below): `wf_value`: `TryCopy::copy` of any type, `copy_items`, `Chars::from_str`, `Scalar::text`, `Refusal::text`,
    ///   `Combo::push_copy`
    /// When: 50, never if no memory is needed
    /// Afterwards: as it was
    /// By: one clause each (`Gives`); `answers`; `Combo::push_copy`, `err`
    fn copy(&self, alloc: Global) -> Result<Self, Refusal>
        ensures { Gives (λ c. c) result (Ok self.now) };
}

impl TryCopy for u64 {
    fn copy(&self, _alloc: Global) -> Result<Self, Refusal>
        ensures { result ≡ Ok self.now }
    {
        Ok(*self)
    }
}

impl TryCopy for usize {
    fn copy(&self, _alloc: Global) -> Result<Self, Refusal>
        ensures { result ≡ Ok self.now }
    {
        Ok(*self)
    }
}

impl<A: TryCopy + Drop, B: TryCopy + Drop> TryCopy for (A, B) {
    fn copy(&self, alloc: Global) -> Result<Self, Refusal> {
        Ok((self.0.copy(alloc)?, self.1.copy(alloc)?))
    }
}

/// Copies each value, in order. An empty list takes no memory.
pub fn copy_items<T: TryCopy + Drop>(alloc: Global, items: &[T]) -> Result<Vec<T>, Refusal>
    ensures gives { Gives (λ v. v.items) result (Ok items.now) }
    ensures answers { items.now ≡ [] → IsOk result }
{
    let mut copies = Vec::with_capacity(alloc, items.len())?;
    for item in items {
        copies.push(item.copy(alloc)?)?;
    }
    Ok(copies)
}

ghost use Rattle.std.specs.Prelude.{◌≡◌, ◌<◌, List, length, IfOk, All};
ghost use Rattle.columns.specs.Present.{gather};

use std::alloc::{AllocError, Global};

/// The items at the places, in the places' order.
pub fn items_at<T: Copy + Drop>(
    alloc: Global,
    items: &[T],
    places: &[u32],
) -> Result<Vec<T>, AllocError>
    requires { All (λ p. p < length items.now) places.now }
    ensures items { IfOk result (λ v. (d : T) → v.items ≡ gather items.now d places.now) }
    ensures len { IfOk result (λ v. length v.items ≡ length places.now) }
{
    let mut chosen = Vec::with_capacity(alloc, places.len())?;
    for place in places {
        chosen.push_reserved(items[*place as usize]);
    }
    Ok(chosen)
}

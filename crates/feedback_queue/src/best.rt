ghost use Rattle.std.specs.Prelude.{◌≡◌, ℕ, ◌≤◌, IfSome};
ghost use Rattle.feedback_queue.specs.Picks.{better};

/// A place, and the measure of the item there.
#[derive(Clone, Copy)]
pub(crate) struct Best {
    pub(crate) place: usize,
    pub(crate) measure: u64,
}

/// Of an item and the best of those behind it the one of the lesser measure, at a tie the first.
pub(crate) fn better(place: usize, measure: Option<u64>, later: Option<Best>) -> Option<Best>
    ensures value { result ≡ better place measure later }
    ensures within { (most : ℕ) → IfSome measure (λ m. m ≤ most) → IfSome later (λ best. best.measure ≤ most)
        → IfSome result (λ best. best.measure ≤ most) }
{
    match (measure, later) {
        (None, later) => later,
        (Some(measure), Some(later)) if later.measure < measure => Some(later),
        (Some(measure), _) => Some(Best { place, measure }),
    }
}

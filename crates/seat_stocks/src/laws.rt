//! What follows from the definitions.
ghost use Rattle.std.specs.Prelude.{List, map};
ghost use Rattle.plan_wiring.specs.Handed.{new_seats};
ghost use Rattle.plan_wiring.specs.declared.shared.Shared.{Shared};
ghost use Rattle.seat_stocks.specs.Labels.{IsLabelled, Labels, labels_of};
ghost use Rattle.seat_stocks.specs.Stocks.{AreLeft, StockForm, stock_of};

/// The law that the seats of a lane are of one edge, or claims, and new, and so they stay where some are taken.
#[tactic(auto, using(crate::proofs::LabelLemmas::all_labelled, crate::proofs::LabelLemmas::labelled_left))]
pub fn stocks_are_labelled()
    ensures new { (pipes : List Shared) → IsLabelled (labels_of pipes) (stock_of (map new_seats pipes)) }
    ensures left { (labels : Labels) (old new : StockForm) → AreLeft old new
        → IsLabelled labels old → IsLabelled labels new }
{}

//! What the seats of a `Spread` together put and took.
ghost use Rattle.std.specs.Prelude.{◌≡◌, ◌<◌, All, length};
ghost use Rattle.crossbeam_queue.specs.Passes.{view, IsPassOf};
ghost use Rattle.bag_laws.specs.Weights.{SameWeights, Within};
ghost use Rattle.output_buffer.specs.Edges.{together};
ghost use Rattle.output_buffer.specs.Joined.{JoinedTakes};
ghost use Rattle.output_buffer.specs.Seats.{AreSpreadTakesOf, HaveEnded, rows_of_pieces, taken_by, view_of_spread_take};

use crate::edge::{EdgePass, EdgeQueue, Together, look_at_rest};
use crate::spread_put::SpreadPut;
use crate::spread_take::SpreadTake;

/// Gives back all seats of an edge whose every End was taken: the pieces that were taken are those that were
/// put, each once, and so are their rows.
pub fn settle_spread(put: SpreadPut<'_>, takes: Vec<SpreadTake<'_>>)
    requires edge { AreSpreadTakesOf put.edge takes.items }
    requires all { length takes.items ≡ put.takers }
    requires ended { HaveEnded put takes.items }
    ensures pieces { SameWeights (taken_by takes.entry.items) put.entry.put }
    ensures rows { SameWeights (rows_of_pieces (taken_by takes.entry.items)) (rows_of_pieces put.entry.put) }
{
    stop_spread(put, takes);
}

/// Gives back all seats of an edge, wherever they stand: what was taken is part of what was put, and all of it
/// where every End was taken.
pub fn stop_spread(put: SpreadPut<'_>, takes: Vec<SpreadTake<'_>>)
    requires edge { AreSpreadTakesOf put.edge takes.items }
    requires all { length takes.items ≡ put.takers }
    ensures part { Within (taken_by takes.entry.items) put.entry.put }
    ensures part_of_rows { Within (rows_of_pieces (taken_by takes.entry.items)) (rows_of_pieces put.entry.put) }
    ensures ended { HaveEnded put.entry takes.entry.items
        → SameWeights (taken_by takes.entry.items) put.entry.put }
    ensures rows { HaveEnded put.entry takes.entry.items
        → SameWeights (rows_of_pieces (taken_by takes.entry.items)) (rows_of_pieces put.entry.put) }
{
    let SpreadPut {
        queue,
        mut pass,
        bells: _,
        takers: _,
        fulls: _,
        looked_at: _,
    } = put;
    join_takes(queue, &mut pass, takes);
    look_at_rest(queue, &mut pass);
}

fn join_takes(queue: &EdgeQueue, pass: &mut EdgePass, mut takes: Vec<SpreadTake<'_>>)
    requires seats { All (λ s. s.edge.queue ≡ queue.now.table.shared.table_id) takes.items }
    requires pass { IsPassOf queue.now pass.old × (0 < (view pass.old).parts) }
    ensures pass { IsPassOf queue.now pass.new }
    ensures joined { JoinedTakes (view pass.old) takes.entry.items (view pass.new) }
{
    while let Some(seat) = takes.pop() {
        join_take(queue, pass, seat);
    }
}

fn join_take(queue: &EdgeQueue, pass: &mut EdgePass, seat: SpreadTake<'_>)
    requires seat { seat.edge.queue ≡ queue.now.table.shared.table_id }
    requires pass { IsPassOf queue.now pass.old × (0 < (view pass.old).parts) }
    ensures pass { IsPassOf queue.now pass.new }
    ensures joined { view pass.new ≡ together (view pass.old) (view_of_spread_take seat.entry) }
{
    queue.absorb::<Together>(pass, seat.pass);
}

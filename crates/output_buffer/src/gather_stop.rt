//! What the seats of a `Gather` together put and took.
ghost use Rattle.std.specs.Prelude.{◌≡◌, ◌<◌, ◌≤◌, All, length};
ghost use Rattle.crossbeam_queue.specs.Passes.{view, IsPassOf};
ghost use Rattle.bag_laws.specs.Weights.{SameWeights, Within};
ghost use Rattle.output_buffer.specs.Edges.{end_count, together};
ghost use Rattle.output_buffer.specs.Joined.{JoinedPuts};
ghost use Rattle.output_buffer.specs.Seats.{AreGatherPutsOf, HasEnded, put_by, rows_of_pieces, view_of_gather_put};

use crate::edge::{EdgePass, EdgeQueue, Together, look_at_rest};
use crate::gather_put::GatherPut;
use crate::gather_take::GatherTake;

/// Gives back all seats of an edge whose every End was taken: the pieces that were taken are those that were
/// put, each once, and so are their rows.
pub fn settle_gather(puts: Vec<GatherPut<'_>>, take: GatherTake<'_>)
    requires edge { AreGatherPutsOf take.edge puts.items }
    requires all { length puts.items ≡ take.putters }
    requires ended { HasEnded take }
    ensures pieces { SameWeights take.entry.took (put_by puts.entry.items) }
    ensures rows { SameWeights (rows_of_pieces take.entry.took) (rows_of_pieces (put_by puts.entry.items)) }
{
    stop_gather(puts, take);
}

/// Gives back all seats of an edge, wherever they stand: what was taken is part of what was put, and all of it
/// where every End was taken; each putter then put its End.
pub fn stop_gather(puts: Vec<GatherPut<'_>>, take: GatherTake<'_>)
    requires edge { AreGatherPutsOf take.edge puts.items }
    requires all { length puts.items ≡ take.putters }
    ensures part { Within take.entry.took (put_by puts.entry.items) }
    ensures part_of_rows { Within (rows_of_pieces take.entry.took) (rows_of_pieces (put_by puts.entry.items)) }
    ensures ended { HasEnded take.entry → SameWeights take.entry.took (put_by puts.entry.items) }
    ensures rows { HasEnded take.entry
        → SameWeights (rows_of_pieces take.entry.took) (rows_of_pieces (put_by puts.entry.items)) }
    ensures ends { HasEnded take.entry → All (λ s. 0 < end_count s.put) puts.entry.items }
{
    let GatherTake {
        queue,
        mut pass,
        bells: _,
        putters: _,
        left: _,
        empties: _,
        looked_at: _,
    } = take;
    join_puts(queue, &mut pass, puts);
    look_at_rest(queue, &mut pass);
}

fn join_puts(queue: &EdgeQueue, pass: &mut EdgePass, mut puts: Vec<GatherPut<'_>>)
    requires seats { All (λ s. s.edge.queue ≡ queue.now.table.shared.table_id) puts.items }
    requires pass { IsPassOf queue.now pass.old × (0 < (view pass.old).parts) }
    ensures pass { IsPassOf queue.now pass.new }
    ensures joined { JoinedPuts (view pass.old) puts.entry.items (view pass.new) }
{
    while let Some(seat) = puts.pop() {
        join_put(queue, pass, seat);
    }
}

fn join_put(queue: &EdgeQueue, pass: &mut EdgePass, seat: GatherPut<'_>)
    requires seat { seat.edge.queue ≡ queue.now.table.shared.table_id }
    requires pass { IsPassOf queue.now pass.old × (0 < (view pass.old).parts) }
    ensures pass { IsPassOf queue.now pass.new }
    ensures joined { view pass.new ≡ together (view pass.old) (view_of_gather_put seat.entry) }
    ensures once { end_count seat.entry.put ≤ 1 }
{
    queue.absorb::<Together>(pass, seat.pass);
}

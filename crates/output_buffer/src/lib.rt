//! What carries pages between drivers: edges, which are bounded queues of pages and Ends, and the partitioner, which
//! says to which task a row goes.
//!
//! With all seats of an edge in hand, and every End taken, what was taken is what was put, page for page, each once,
//! in every schedule (`settle_gather`, `settle_spread`); before that it is a part of it (`stop_gather`,
//! `stop_spread`). A put that is answered Full hands its piece back. A put and a take are one atomic step each: they
//! take no lock and no memory.
//!
//! - `piece`: what passes an edge, and the answers of a put and a take
//! - `edge`: the queue under its rule (`specs/Edges.antt`): what was put is what was taken and what is held, and
//!   the last piece is an End once no seat may put pages
//! - `gather`, `gather_put`, `gather_take`: an edge of many putters and one taker, and its seats
//!   (`specs/Seats.antt`)
//! - `gather_stop`: what its seats together put and took
//! - `spread`, `spread_put`, `spread_take`, `spread_stop`: the same of one putter and many takers
//! - `partitioner`: `Partitioner`, which spreads the rows of a page over the tasks that will have them. A row goes
//!   to the part that is the bucket of its values in some columns, so that rows with equal values there meet in one
//!   task. The pages of the parts keep the order of the rows, and together they have each row as often as the page
//!   (`specs/Partitions.antt`)
#![tactic(auto)]

mod edge;
mod gather;
mod gather_put;
mod gather_stop;
mod gather_take;
mod partitioner;
mod piece;
mod spread;
mod spread_put;
mod spread_stop;
mod spread_take;

pub use edge::{EdgeBells, EdgeView};
pub use gather::Gather;
pub use gather_put::GatherPut;
pub use gather_stop::{settle_gather, stop_gather};
pub use gather_take::GatherTake;
pub use partitioner::Partitioner;
pub use piece::{Empty, Piece, PutFault, Took};
pub use spread::Spread;
pub use spread_put::SpreadPut;
pub use spread_stop::{settle_spread, stop_spread};
pub use spread_take::SpreadTake;

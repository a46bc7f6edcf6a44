//! What a driver puts its pages into, and takes them from, where that is an edge.
//!
//! A target keeps a page that an edge has no room for, and a source keeps a page that nobody wants yet. Each is an
//! `EdgeEnd`: its call `advance`, apart from the calls that move pages, reads the count of a bell, puts or takes, and
//! rings the bells that are owed. To a driver targets are `PageTarget`s, and sources are `PageSource`s, of
//! `stage_moves`: `specs/Ends.antt` says what they tell it. What is promised:
//!
//! - What each edge of a target was given is what it has of the rows that came, in their order: all of them, or those
//!   of its bucket; of rows that are spread by buckets the last may still wait for more (`HasSent`). No End goes before
//!   the last page of its edge, none before the target was told to finish, and no page without rows goes to an edge
//!   (`KeepsTarget`, `KeepsDeal`)
//! - Where `advance` names a bell, it is that of an edge at which this call found no room, or no piece, and the count is
//!   the one that the look at the edge was handed, so it was read before. Nothing is lost then: the edge's page, or its
//!   End, is still to be put. Of a target the edge is the first that has not all that it may have
//! - For each piece that was put or taken the bell of its edge was rung once, of the bells that the call was given
//! - The rows that a source handed on, with those of the page that it has, are what its seat took, in order
//!   (`HasLocalTaken`, `HasRemoteTaken`). It is ended once every End that is meant for it was taken
//! - One that fetches puts what it takes to a window with room, and hands on what arrives, whatever its courier does: what
//!   is left to hand on is what arrived and what the fetch is still to give (`HasFetchTaken`). It is ended once its client
//!   knows that no more comes. It answers that it missed only where the count of its courier's missed turns rose
//! - A stop hands the seats back: what each put is what it has of the first of the rows that came, and of a target that
//!   is finished all of them, and an End
//!
//! - `at_edges`: what reads bells and rings them
//! - `outlet`: one edge of a target (`specs/Outlets.antt`)
//! - `page_joins`: pages behind each other as one page
//! - `put_target`: `PutTarget`, over one edge or several of many putters (`specs/Targets.antt`)
//! - `deal_target`: `DealTarget`, over an edge of many takers, with an End for each of them (`specs/Deals.antt`)
//! - `fetch_source`: `FetchSource`, a `LocalSource` with a courier behind it (`specs/Fetching.antt`)
//! - `local_source`, `remote_source`: `LocalSource`, which ends with the End of the last putter, and `RemoteSource`, which
//!   ends with its own End (`specs/Sources.antt`)
//!
//! That an edge ever has room again is not promised.
#![tactic(auto)]

mod at_edges;
mod deal_target;
mod fetch_source;
mod local_source;
mod outlet;
mod page_joins;
mod put_target;
mod remote_source;

pub use at_edges::EdgeEnd;
pub use deal_target::DealTarget;
pub use fetch_source::FetchSource;
pub use local_source::LocalSource;
pub use put_target::{PutKind, PutTarget};
pub use remote_source::RemoteSource;

//! The reading side of an edge between fragments: a client that asks a window for its pages by token, and a
//! courier between the two that may repeat replies or lose them.
//!
//! A client accepts a reply exactly where its token is the client's next one, so a page is given once, whatever
//! arrives. A `Fetch` joins a window, a client and a courier. Contracts see it without the courier, but for its
//! count of missed turns (`specs/Fetches.antt`), and each call keeps that the pages that were given so far,
//! followed by those still to be given, are those that were put (`Carries`). A step gives pages, or it gives none
//! and either none was still to be given or the courier missed a turn; after 64 steps in a row without an accepted
//! reply the courier is not asked (`specs/Steps.antt`). All this holds for every courier.
//!
//! - `client`: `PageClient` and `Stale`
//! - `kept_reply`, `kept_replies`: the latest replies, which the courier may deliver again; one whose pages the client
//!   took is kept without them
//! - `fetch`: `Fetch`
#![tactic(auto)]

mod client;
mod fetch;
mod kept_replies;
mod kept_reply;

pub use client::{PageClient, Stale};
pub use fetch::Fetch;

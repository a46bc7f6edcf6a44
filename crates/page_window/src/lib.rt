//! A window on the pages that go from one fragment to another: they are read by token, and stay until they
//! are acknowledged.
//!
//! The first page that was put has token 0, the next one token 1, and so on. A fetch copies the pages from a
//! token on; an acknowledgement drops those below a token. So a reader whose reply was lost asks again for the
//! same token, and gets the same pages. Contracts see a window as its base, the pages that it holds and whether
//! more may come (`specs/Windows.antt`), and each call keeps that these are the pages that were put, from the
//! base on (`IsWindowOf`). A reply's type keeps that its next token is its own and the number of its pages, and
//! `specs/Fetches.antt` says what each answer means: a token is gone exactly where it is below the base, and
//! ahead exactly where it is past the end.
//!
//! - `window`: `PageWindow`
//! - `reply`: `Reply`
//! - `fault`: `FetchFault`, `AckAhead` and `PushMemory`, why a call was refused
#![tactic(auto)]

mod fault;
mod reply;
mod window;

pub use fault::{AckAhead, FetchFault, PushMemory};
pub use reply::Reply;
pub use window::PageWindow;

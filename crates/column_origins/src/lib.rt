//! The column of a scan from which a column of a tree's rows comes (`specs/Origins.antt`).
//!
//! A walk goes down from a node to a scan: through filters that can't fail, projects of which no expression can fail and
//! the one at the column only names another, the left sides of inner joins, and remote sources. So each row of the node has
//! in this column what some row of the scan has in its own, and was made of that row; no law says it yet.
//!
//! - `origin`: `origin_of`
#![tactic(auto)]

mod origin;

pub use origin::{Origin, origin_of};

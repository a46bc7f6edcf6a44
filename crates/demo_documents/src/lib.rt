//! The documents of the demo: a plan and the two tables that it reads, made from a number.
//!
//! `make_demo` gives exactly the texts of `specs/Orders.antt`, `specs/Customers.antt` and `specs/Plans.antt`. Each row
//! is printed behind those before it, so no memory is taken but that of the three texts.
//!
//! - `demo`: the three documents
//! - `orders`, `customers`, `plan`: one of them each
#![tactic(auto)]

mod customers;
mod demo;
mod orders;
mod plan;

pub use demo::{Demo, make_demo};

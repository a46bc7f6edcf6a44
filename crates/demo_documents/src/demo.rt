ghost use Rattle.std.specs.Prelude.{◌≡◌, IfOk};
ghost use Rattle.demo_documents.specs.Customers.{customers_text};
ghost use Rattle.demo_documents.specs.Orders.{orders_text};
ghost use Rattle.demo_documents.specs.Plans.{plan_text};

use crate::customers::customers;
use crate::orders::orders;
use crate::plan::plan;
use sql_values::{Memory, Text};
use std::alloc::Global;

/// A plan, and its tables in CSV.
#[derive(Drop)]
pub struct Demo {
    pub plan: Text,
    pub orders: Text,
    pub customers: Text,
}

/// The documents of the demo of a number, which says with which customer the orders begin.
pub fn make_demo(alloc: Global, number: u64) -> Result<Demo, Memory>
    ensures plan { IfOk result (λ demo. demo.plan ≡ plan_text) }
    ensures orders { IfOk result (λ demo. demo.orders ≡ orders_text number) }
    ensures customers { IfOk result (λ demo. demo.customers ≡ customers_text) }
{
    Ok(Demo {
        plan: plan(alloc)?,
        orders: orders(alloc, number)?,
        customers: customers(alloc)?,
    })
}

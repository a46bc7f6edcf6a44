//! The documents of a demo, in the place of files.
ghost use Rattle.std.specs.Prelude.{◌≡◌, ◌≤◌, Some, None, IfOk};
ghost use Rattle.count_laws.specs.Counts.{Rose};
ghost use Rattle.run_ports.specs.Reading.{AreBytesOf, IfFailed, refused_after};
ghost use Rattle.query_runner.specs.Demos.{contents_with, demo_contents, document_named};

use demo_documents::{Demo, make_demo};
use run_ports::{FileFault, Files};
use sql_values::Memory;
use std::alloc::Global;

/// The documents of a demo: a table's by its name, and the plan by any other. No read of one fails.
#[derive(Drop)]
pub struct Documents {
    demo: Demo,
}

impl Documents {
    pub fn of(alloc: Global, number: u64) -> Result<Documents, Memory>
        ensures { IfOk result (λ d.
            contents_with d.demo.plan d.demo.orders d.demo.customers ≡ demo_contents number) }
    {
        Ok(Documents {
            demo: make_demo(alloc, number)?,
        })
    }

    fn named(&self, name: &str) -> &str
        ensures { result.now
            ≡ document_named self.now.demo.plan self.now.demo.orders self.now.demo.customers name.now }
    {
        if name == "orders" {
            return self.demo.orders.as_str();
        }
        if name == "customers" {
            return self.demo.customers.as_str();
        }
        self.demo.plan.as_str()
    }
}

impl Files for Documents {
    ghost use Rattle.std.specs.Prelude.{Some, None};
    ghost use Rattle.query_runner.specs.Demos.{contents_with};

    ghost holds = { λ d. Some (contents_with d.demo.plan d.demo.orders d.demo.customers) };

    ghost faults = { λ _. 0 };

    ghost refused = { λ _. None };

    fn read(&mut self, alloc: Global, name: &str) -> Result<Vec<u8>, FileFault> {
        Ok(Vec::from_slice(alloc, self.named(name).as_bytes())?)
    }
}

ghost use Rattle.std.specs.Prelude.{◌≡◌, List, ◌∷◌, ◌++◌, [], OnOk, map};
ghost use Rattle.sql_values.specs.declared.value.Value.{Value as Cell};
ghost use Rattle.sql_values.specs.Cells.{cell, lent_value};
ghost use Rattle.dyn_filter.specs.Domains.{IsDomainOf};

use crate::domain::Domain;
use col_pages::Page;
use sql_values::{Memory, ValueRef};
use std::alloc::Global;
use std::marker::Model;
use std::mem;

/// Takes values in, and keeps their domain. After `Memory` it is not used again.
#[derive(Drop)]
pub struct DomainBuilder {
    alloc: Global,
    domain: Domain,
}

impl Model for DomainBuilder {
    ghost use Rattle.dyn_filter.specs.declared.domain.Domain.{Domain};

    ghost Value = { Domain };

    ghost view = { λ b. b.domain };
}

impl DomainBuilder {
    /// The builder of no values.
    pub fn new(alloc: Global) -> DomainBuilder
        ensures { IsDomainOf [] result }
    {
        DomainBuilder {
            alloc,
            domain: Domain::Nothing,
        }
    }

    /// Takes a value in.
    pub fn add(&mut self, value: ValueRef<'_>) -> Result<(), Memory>
        ensures { OnOk result ((values : List Cell) → IsDomainOf values self.old
            → IsDomainOf (values ++ lent_value value.entry ∷ []) self.new) }
    {
        let domain = mem::replace(&mut self.domain, Domain::Nothing);
        self.domain = domain.with(self.alloc, value)?;
        Ok(())
    }

    /// Takes the values of a page's column in.
    pub fn add_column(&mut self, page: &Page, column: u32) -> Result<(), Memory>
        ensures { OnOk result ((values : List Cell) → IsDomainOf values self.old
            → IsDomainOf (values ++ map (λ row. cell row column) page.now.rows) self.new) }
    {
        for place in 0..page.len() {
            self.add(page.cell(place, column))?;
        }
        Ok(())
    }

    /// The domain of the values that it took in.
    pub fn build(self) -> Domain
        ensures { result ≡ self }
    {
        self.domain
    }
}

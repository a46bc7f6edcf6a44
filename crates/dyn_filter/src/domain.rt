ghost use Rattle.std.specs.Prelude.{◌≡◌, List, ◌∷◌, ◌++◌, [], true, IfOk};
ghost use Rattle.sql_values.specs.declared.value.Value.{Value as Cell};
ghost use Rattle.sql_values.specs.Cells.{lent_value};
ghost use Rattle.relation_laws.specs.Equality.{is_present};
ghost use Rattle.dyn_filter.specs.Domains.{AreEndsOf, AreMany, IsDomainOf, is_between, is_held, passes};

use crate::spans::spanning;
use crate::value_list::ValueList;
use sql_values::{Memory, Value, ValueRef, compare_values};
use std::alloc::Global;

/// What is kept of the values of a column.
#[derive(Drop)]
pub enum Domain {
    Nothing,
    Values(ValueList),
    Range { least: Value, greatest: Value },
}

impl Domain {
    /// Whether a value passes. NULL does not.
    pub fn passes(&self, value: ValueRef<'_>) -> bool
        ensures { result ≡ passes self.now (lent_value value.entry) }
    {
        match value {
            ValueRef::Null => false,
            _ => self.holds(value),
        }
    }

    pub(crate) fn holds(&self, value: ValueRef<'_>) -> bool
        ensures { result ≡ is_held self.now (lent_value value.entry) }
    {
        match self {
            Domain::Nothing => false,
            Domain::Values(list) => list.contains(value),
            Domain::Range { least, greatest } => {
                compare_values(least.as_ref(), value).is_le()
                    && compare_values(value, greatest.as_ref()).is_le()
            }
        }
    }

    /// The domain of the values of both.
    pub fn union(self, alloc: Global, other: Domain) -> Result<Domain, Memory>
        ensures { IfOk result (λ d. (values others : List Cell) → IsDomainOf values self
            → IsDomainOf others other → IsDomainOf (values ++ others) d) }
    {
        self.with_domain(alloc, &other)
    }

    pub(crate) fn with_domain(self, alloc: Global, other: &Domain) -> Result<Domain, Memory>
        ensures { IfOk result (λ d. (values others : List Cell) → IsDomainOf values self
            → IsDomainOf others other.now → IsDomainOf (values ++ others) d) }
    {
        match other {
            Domain::Nothing => Ok(self),
            Domain::Values(list) => self.with_each(alloc, list.as_slice()),
            Domain::Range { least, greatest } => {
                self.with_range(alloc, least.copy(alloc)?, greatest.copy(alloc)?)
            }
        }
    }

    /// The domain of its values and one more.
    pub(crate) fn with(self, alloc: Global, value: ValueRef<'_>) -> Result<Domain, Memory>
        ensures { IfOk result (λ d. (values : List Cell) → IsDomainOf values self
            → IsDomainOf (values ++ lent_value value.entry ∷ []) d) }
    {
        match value {
            ValueRef::Null => Ok(self),
            _ => self.with_present(alloc, value),
        }
    }

    fn with_present(self, alloc: Global, value: ValueRef<'_>) -> Result<Domain, Memory>
        requires { is_present (lent_value value) ≡ true }
        ensures { IfOk result (λ d. (values : List Cell) → IsDomainOf values self
            → IsDomainOf (values ++ lent_value value.entry ∷ []) d) }
    {
        match self {
            Domain::Nothing => Ok(Domain::Values(ValueList::of(alloc, value)?)),
            Domain::Values(list) => list.with(alloc, value),
            Domain::Range { least, greatest } => spanning(alloc, least, greatest, value, value),
        }
    }

    /// The domain of its values and some more.
    fn with_each(self, alloc: Global, more: &[Value]) -> Result<Domain, Memory>
        ensures { IfOk result (λ d. (values : List Cell) → IsDomainOf values self
            → IsDomainOf (values ++ more.now) d) }
    {
        let mut domain = self;
        for value in more {
            domain = domain.with(alloc, value.as_ref())?;
        }
        Ok(domain)
    }

    /// The domain of its values and of those of a range.
    fn with_range(self, alloc: Global, least: Value, greatest: Value) -> Result<Domain, Memory>
        ensures { IfOk result (λ d. (values others : List Cell) → IsDomainOf values self
            → AreEndsOf others least greatest → AreMany others
            → IsDomainOf (values ++ others) d) }
    {
        match self {
            Domain::Nothing => Ok(Domain::Range { least, greatest }),
            Domain::Values(list) => { spanning(alloc, least, greatest, list.first(), list.last()) }
            Domain::Range {
                least: first,
                greatest: last,
            } => spanning(alloc, least, greatest, first.as_ref(), last.as_ref()),
        }
    }
}

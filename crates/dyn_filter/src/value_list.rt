ghost use Rattle.std.specs.Prelude.{◌≡◌, ◌<◌, ◌≤◌, List, ◌∷◌, ◌++◌, [], true, length, IfOk, IfErr, IsTrue};
ghost use Rattle.sql_values.specs.declared.value.Value.{Value as Cell};
ghost use Rattle.sql_values.specs.Cells.{lent_value};
ghost use Rattle.relation_laws.specs.Equality.{is_present};
ghost use Rattle.dyn_filter.specs.Lists.{AreAscending, IsGapFor, is_in};
ghost use Rattle.dyn_filter.specs.Domains.{IsDomainOf, is_among};
ghost use Rattle.dyn_filter.specs.Spans.{first_of, last_of};

use crate::domain::Domain;
use sql_values::{Memory, Value, ValueRef, compare_values};
use std::alloc::Global;
use std::marker::Model;

/// The most values that are kept one by one.
pub const MOST_VALUES: usize = 1000;

/// Values in ascending order, each once: at least one, and no more than `MOST_VALUES`.
#[derive(Drop)]
pub struct ValueList {
    values: Vec<Value>,
}

impl Model for ValueList {
    ghost use Rattle.std.specs.Prelude.{List};
    ghost use Rattle.sql_values.specs.declared.value.Value.{Value as Cell};

    ghost Value = { List Cell };

    ghost view = { λ l. l.values.items };

    ghost use Rattle.dyn_filter.specs.Lists.{IsValueList};

    ghost invariant = { λ l. IsValueList l.values.items };
}

impl ValueList {
    /// How many values there are.
    pub fn len(&self) -> usize
        ensures { result ≡ length self.now }
    {
        self.values.len()
    }

    pub fn as_slice(&self) -> &[Value]
        ensures { result.now ≡ self.now }
    {
        self.values.as_slice()
    }

    pub fn first(&self) -> ValueRef<'_>
        ensures { lent_value result ≡ first_of self.now }
    {
        self.values[0].as_ref()
    }

    pub fn last(&self) -> ValueRef<'_>
        ensures { lent_value result ≡ last_of self.now }
    {
        self.values[self.values.len() - 1].as_ref()
    }

    pub fn contains(&self, value: ValueRef<'_>) -> bool
        ensures { result ≡ is_in self.now (lent_value value.entry) }
    {
        search(&self.values, value).is_ok()
    }

    /// Whether the value stands at this place.
    pub(crate) fn is_at(&self, place: usize, value: ValueRef<'_>) -> bool
        ensures { IsTrue result → is_in self.now (lent_value value.entry) ≡ true }
    {
        match self.values.get(place) {
            Some(own) => compare_values(value, own.as_ref()).is_eq(),
            None => false,
        }
    }

    /// The domain of one value.
    pub(crate) fn of(alloc: Global, value: ValueRef<'_>) -> Result<ValueList, Memory>
        ensures { IfOk result (λ l. l ≡ lent_value value.entry ∷ []) }
    {
        let mut values = Vec::new(alloc);
        values.push(value.to_value(alloc)?)?;
        Ok(ValueList { values })
    }

    /// The domain of these values and one more.
    pub(crate) fn with(self, alloc: Global, value: ValueRef<'_>) -> Result<Domain, Memory>
        requires { is_present (lent_value value) ≡ true }
        ensures { IfOk result (λ d. (values : List Cell) → IsDomainOf values (Domain.Values self)
            → IsDomainOf (values ++ lent_value value.entry ∷ []) d) }
    {
        match search(&self.values, value) {
            Ok(_) => Ok(Domain::Values(self)),
            Err(place) => self.with_new(alloc, place, value),
        }
    }

    /// The same where the value is a new one, whose place is known.
    fn with_new(self, alloc: Global, place: usize, value: ValueRef<'_>) -> Result<Domain, Memory>
        requires present { is_present (lent_value value) ≡ true }
        requires gap { IsGapFor self (lent_value value) place }
        ensures { IfOk result (λ d. (values : List Cell) → IsDomainOf values (Domain.Values self)
            → IsDomainOf (values ++ lent_value value.entry ∷ []) d) }
    {
        let ValueList { mut values } = self;
        values.insert(place, value.to_value(alloc)?)?;
        domain_of(alloc, values)
    }
}

/// The domain of values in ascending order, each once.
fn domain_of(alloc: Global, values: Vec<Value>) -> Result<Domain, Memory>
    requires ascending { AreAscending values.items }
    requires some { 0 < length values.items }
    ensures { IfOk result (λ d. (all : List Cell)
        → ((v : Cell) → is_in values.items v ≡ is_among all v) → IsDomainOf all d) }
{
    if values.len() > MOST_VALUES {
        return Ok(Domain::Range {
            least: values[0].copy(alloc)?,
            greatest: values[values.len() - 1].copy(alloc)?,
        });
    }
    Ok(Domain::Values(ValueList { values }))
}

/// Where the value is, or where it would go.
fn search(values: &[Value], value: ValueRef<'_>) -> Result<usize, usize>
    requires { AreAscending values.now }
    ensures found { IfOk result (λ _. is_in values.now (lent_value value.entry) ≡ true) }
    ensures absent { IfErr result (IsGapFor values.now (lent_value value.entry)) }
{
    values.binary_search_by(|own| compare_values(own.as_ref(), value))
}

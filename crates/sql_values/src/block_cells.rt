ghost use Rattle.std.specs.Prelude.{◌≡◌, [], ◌∷◌, ◌++◌, true, map, IfOk, OnErr};
ghost use Rattle.std.specs.Option.{option_copied};
ghost use Rattle.sql_values.specs.declared.types.SqlType.TheVariants as kind_is;
ghost use Rattle.sql_values.specs.declared.value.Value.TheVariants as value_is;
ghost use Rattle.sql_values.specs.Cells.{lent_value};
ghost use Rattle.sql_values.specs.Blocks.{fits, is_decimal, offered, or_null};

use crate::memory::Memory;
use crate::value::ValueRef;
use columns::{Nullable, Texts};

/// Appends an item, and answers that it was taken.
fn put<T: Copy + Default + Drop>(column: &mut Nullable<T>, item: Option<T>) -> Result<bool, Memory>
    ensures taken { IfOk result (λ taken. taken ≡ true) }
    ensures ok { IfOk result (λ _. column.new ≡ column.old ++ item ∷ []) }
    ensures err { OnErr result (column.new ≡ column.old) }
{
    column.push(item)?;
    Ok(true)
}

/// Appends a text, and answers that it was taken.
fn put_text(column: &mut Texts, text: Option<&str>) -> Result<bool, Memory>
    ensures taken { IfOk result (λ taken. taken ≡ true) }
    ensures ok { IfOk result (λ _. column.new ≡ column.old ++ option_copied text.entry ∷ []) }
    ensures err { OnErr result (column.new ≡ column.old) }
{
    column.push(text)?;
    Ok(true)
}

pub fn push_boolean(column: &mut Nullable<bool>, value: ValueRef<'_>) -> Result<bool, Memory>
    ensures taken { IfOk result (λ taken. taken ≡ fits kind_is.Boolean (lent_value value.entry)) }
    ensures ok { IfOk result (λ taken. map (or_null value_is.Boolean) column.new
        ≡ offered taken (map (or_null value_is.Boolean) column.old) (lent_value value.entry)) }
    ensures err { OnErr result (column.new ≡ column.old) }
{
    match value {
        ValueRef::Null => put(column, None),
        ValueRef::Boolean(truth) => put(column, Some(truth)),
        _ => Ok(false),
    }
}

pub fn push_bigint(column: &mut Nullable<i64>, value: ValueRef<'_>) -> Result<bool, Memory>
    ensures taken { IfOk result (λ taken. taken ≡ fits kind_is.Bigint (lent_value value.entry)) }
    ensures ok { IfOk result (λ taken. map (or_null value_is.Bigint) column.new
        ≡ offered taken (map (or_null value_is.Bigint) column.old) (lent_value value.entry)) }
    ensures err { OnErr result (column.new ≡ column.old) }
{
    match value {
        ValueRef::Null => put(column, None),
        ValueRef::Bigint(number) => put(column, Some(number)),
        _ => Ok(false),
    }
}

pub fn push_decimal(column: &mut Nullable<i128>, value: ValueRef<'_>) -> Result<bool, Memory>
    ensures taken { IfOk result (λ taken. taken ≡ is_decimal (lent_value value.entry)) }
    ensures ok { IfOk result (λ taken. map (or_null value_is.Decimal) column.new
        ≡ offered taken (map (or_null value_is.Decimal) column.old) (lent_value value.entry)) }
    ensures err { OnErr result (column.new ≡ column.old) }
{
    match value {
        ValueRef::Null => put(column, None),
        ValueRef::Decimal(unscaled) => put(column, Some(unscaled)),
        _ => Ok(false),
    }
}

pub fn push_varchar(column: &mut Texts, value: ValueRef<'_>) -> Result<bool, Memory>
    ensures taken { IfOk result (λ taken. taken ≡ fits kind_is.Varchar (lent_value value.entry)) }
    ensures ok { IfOk result (λ taken. map (or_null value_is.Varchar) column.new
        ≡ offered taken (map (or_null value_is.Varchar) column.old) (lent_value value.entry)) }
    ensures err { OnErr result (column.new ≡ column.old) }
{
    match value {
        ValueRef::Null => put_text(column, None),
        ValueRef::Varchar(text) => put_text(column, Some(text)),
        _ => Ok(false),
    }
}

pub fn push_date(column: &mut Nullable<i32>, value: ValueRef<'_>) -> Result<bool, Memory>
    ensures taken { IfOk result (λ taken. taken ≡ fits kind_is.Date (lent_value value.entry)) }
    ensures ok { IfOk result (λ taken. map (or_null value_is.Date) column.new
        ≡ offered taken (map (or_null value_is.Date) column.old) (lent_value value.entry)) }
    ensures err { OnErr result (column.new ≡ column.old) }
{
    match value {
        ValueRef::Null => put(column, None),
        ValueRef::Date(day) => put(column, Some(day)),
        _ => Ok(false),
    }
}

pub fn boolean_or_null(item: Option<bool>) -> ValueRef<'static>
    ensures { lent_value result ≡ or_null value_is.Boolean item }
{
    match item {
        Some(truth) => ValueRef::Boolean(truth),
        None => ValueRef::Null,
    }
}

pub fn bigint_or_null(item: Option<i64>) -> ValueRef<'static>
    ensures { lent_value result ≡ or_null value_is.Bigint item }
{
    match item {
        Some(number) => ValueRef::Bigint(number),
        None => ValueRef::Null,
    }
}

pub fn decimal_or_null(item: Option<i128>) -> ValueRef<'static>
    ensures { lent_value result ≡ or_null value_is.Decimal item }
{
    match item {
        Some(unscaled) => ValueRef::Decimal(unscaled),
        None => ValueRef::Null,
    }
}

pub fn varchar_or_null(item: Option<&str>) -> ValueRef<'_>
    ensures { lent_value result ≡ or_null value_is.Varchar (option_copied item.entry) }
{
    match item {
        Some(text) => ValueRef::Varchar(text),
        None => ValueRef::Null,
    }
}

pub fn date_or_null(item: Option<i32>) -> ValueRef<'static>
    ensures { lent_value result ≡ or_null value_is.Date item }
{
    match item {
        Some(day) => ValueRef::Date(day),
        None => ValueRef::Null,
    }
}

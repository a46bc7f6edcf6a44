ghost use Rattle.std.specs.Prelude.{◌≡◌, ◌+◌, ◌%◌, ◌++◌, pos, IfOk, OnOk};
ghost use Rattle.std.specs.String.{string_bytes};
ghost use Rattle.sql_values.specs.Texts.{text_of_value};
ghost use Rattle.sql_values.specs.declared.types.SqlType.TheVariants as type;
ghost use Rattle.sql_values.specs.declared.value.Value.TheVariants as value;
ghost use Rattle.demo_documents.specs.Lines.{lines, two_fields};
ghost use Rattle.demo_documents.specs.Orders.{order_text, orders_text};

use sql_values::{Memory, Text};
use std::alloc::Global;

/// How many orders there are.
const ORDERS: u32 = 100_000;

fn customer_of(number: u64, place: u32) -> u64
    ensures { result ≡ (place + number % 1000) % 1000 }
{
    (u64::from(place) + number % 1_000) % 1_000
}

/// Appends the line of an order of so many hundredths.
fn append_order(customer: u64, amount: u32, to: &mut String) -> Result<(), Memory>
    ensures { OnOk result (string_bytes to.new ≡ string_bytes to.old
        ++ two_fields (text_of_value type.Bigint (value.Bigint (pos customer)))
        (text_of_value (type.Decimal 12 2) (value.Decimal (pos amount)))) }
{
    let whole = amount / 100;
    let hundredths = amount % 100;
    write!(to, "{customer},{whole}.{hundredths:02}\n")?;
    Ok(())
}

#[tactic(auto, using(crate::proofs::LineLemmas::appending))]
fn append_orders(number: u64, count: u32, to: &mut String) -> Result<(), Memory>
    ensures { OnOk result (string_bytes to.new ≡ string_bytes to.old ++ lines (order_text number) count) }
{
    for place in 0..count {
        append_order(customer_of(number, place), place % 1_000, to)?;
    }
    Ok(())
}

/// The table `orders` of a demo.
pub(crate) fn orders(alloc: Global, number: u64) -> Result<Text, Memory>
    ensures { IfOk result (λ text. text ≡ orders_text number) }
{
    let mut text = String::from_str(alloc, "customer,amount\n")?;
    append_orders(number, ORDERS, &mut text)?;
    Ok(Text::of(text))
}

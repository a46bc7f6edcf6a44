ghost use Rattle.std.specs.Prelude.{◌≡◌, ◌%◌, ◌++◌, IfOk, OnOk};
ghost use Rattle.std.specs.String.{string_bytes};
ghost use Rattle.demo_documents.specs.Customers.{customer_text, customers_text, region_name};
ghost use Rattle.demo_documents.specs.Lines.{lines};

use sql_values::{Memory, Text};
use std::alloc::Global;

/// How many customers there are.
const CUSTOMERS: u32 = 900;

fn region(id: u32) -> &'static str
    ensures { result.now ≡ region_name (id % 4) }
{
    match id % 4 {
        0 => "north",
        1 => "east",
        2 => "south",
        _ => "west",
    }
}

fn append_customer(id: u32, to: &mut String) -> Result<(), Memory>
    ensures { OnOk result (string_bytes to.new ≡ string_bytes to.old ++ customer_text id) }
{
    let region = region(id);
    write!(to, "{id},{region}\n")?;
    Ok(())
}

#[tactic(auto, using(crate::proofs::LineLemmas::appending))]
fn append_customers(count: u32, to: &mut String) -> Result<(), Memory>
    ensures { OnOk result (string_bytes to.new ≡ string_bytes to.old ++ lines customer_text count) }
{
    for id in 0..count {
        append_customer(id, to)?;
    }
    Ok(())
}

/// The table `customers` of every demo.
pub(crate) fn customers(alloc: Global) -> Result<Text, Memory>
    ensures { IfOk result (λ text. text ≡ customers_text) }
{
    let mut text = String::from_str(alloc, "id,region\n")?;
    append_customers(CUSTOMERS, &mut text)?;
    Ok(Text::of(text))
}

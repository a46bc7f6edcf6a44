//! The documents of the demo, by their lengths, first and last lines, and its customers as a table.
use crate::tables::{is_printed, push_column};
use csv_tables::{TableFault, read_table};
use demo_documents::{Demo, make_demo};
use sql_values::{Column, Memory, SqlType};
use std::alloc::Global;

/// Whether a text has the length, and begins and ends so.
fn is_between(text: &str, length: usize, first: &str, last: &str) -> bool {
    text.len() == length && text.starts_with(first) && text.ends_with(last)
}

fn has_plan(demo: &Demo) -> bool {
    is_between(
        demo.plan.as_str(),
        1136,
        "{\"version\":1,\"output\":[\"region\",\"orders\"",
        "customers\",\"columns\":[\"id\",\"region\"]}}]}",
    )
}

fn has_customers(demo: &Demo) -> bool {
    is_between(
        demo.customers.as_str(),
        8_450,
        "id,region\n0,north\n1,east\n2,south\n3,west\n4,north\n",
        "\n898,south\n899,west\n",
    )
}

/// Whether the orders of a number's demo begin and end so; the rest is that of every demo.
fn makes(demo: &Demo, first: &str, last: &str) -> bool {
    has_plan(demo) && has_customers(demo) && is_between(demo.orders.as_str(), 889_016, first, last)
}

#[test]
fn the_first_demo_has_its_documents(rt: HostRuntime) -> Result<(), Memory> {
    let demo = make_demo(rt.alloc(), 0)?;
    assert!(rt;
        makes(
            &demo,
            "customer,amount\n0,0.00\n1,0.01\n",
            "\n998,9.98\n999,9.99\n"
        )
    );
    Ok(())
}

#[test]
fn a_later_demo_begins_with_another_customer(rt: HostRuntime) -> Result<(), Memory> {
    let demo = make_demo(rt.alloc(), 7)?;
    assert!(rt;
        makes(
            &demo,
            "customer,amount\n7,0.00\n8,0.01\n",
            "\n5,9.98\n6,9.99\n"
        )
    );
    Ok(())
}

#[test]
fn the_last_demo_goes_round(rt: HostRuntime) -> Result<(), Memory> {
    let demo = make_demo(rt.alloc(), u64::MAX)?;
    assert!(rt;
        makes(
            &demo,
            "customer,amount\n615,0.00\n616,0.01\n",
            "\n613,9.98\n614,9.99\n"
        )
    );
    Ok(())
}

/// A number and a column of this name and type.
fn pair(alloc: Global, id: &str, name: &str, kind: SqlType) -> Result<Vec<Column>, Memory> {
    let mut columns = Vec::new(alloc);
    push_column(alloc, &mut columns, id, SqlType::Bigint)?;
    push_column(alloc, &mut columns, name, kind)?;
    Ok(columns)
}

/// Whether a text is a table of so many hundreds of rows, no more than may be, which prints as it stood.
fn is_table(
    alloc: Global,
    columns: &[Column],
    hundreds: u16,
    text: &str,
) -> Result<bool, TableFault> {
    let table = read_table(alloc, columns, u32::from(hundreds) * 100, text.as_bytes())?;
    Ok(table.rows.len() == usize::from(hundreds) * 100 && is_printed(alloc, &table, text)?)
}

fn are_customers(alloc: Global, text: &str) -> Result<bool, TableFault> {
    let columns = pair(alloc, "id", "region", SqlType::Varchar)?;
    is_table(alloc, columns.as_slice(), 9, text)
}

#[test]
fn the_customers_of_a_demo_are_a_table(rt: HostRuntime) -> Result<(), TableFault> {
    let demo = make_demo(rt.alloc(), 7)?;
    assert!(rt; are_customers(rt.alloc(), demo.customers.as_str())?);
    Ok(())
}

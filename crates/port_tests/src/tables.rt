use csv_tables::{TableFault, read_table, text_of};
use sql_values::{Column, Memory, SqlType, Table, Text};
use std::alloc::Global;

pub(crate) fn push_column(
    alloc: Global,
    columns: &mut Vec<Column>,
    name: &str,
    kind: SqlType,
) -> Result<(), Memory> {
    let name = Text::copy_of(alloc, name)?;
    columns.push(Column { name, kind })?;
    Ok(())
}

/// A number in `a`.
pub(crate) fn number(alloc: Global) -> Result<Vec<Column>, Memory> {
    let mut columns = Vec::new(alloc);
    push_column(alloc, &mut columns, "a", SqlType::Bigint)?;
    Ok(columns)
}

/// A number in `a` and a text in `c`.
pub(crate) fn pair(alloc: Global) -> Result<Vec<Column>, Memory> {
    let mut columns = number(alloc)?;
    push_column(alloc, &mut columns, "c", SqlType::Varchar)?;
    Ok(columns)
}

fn read_number(alloc: Global, limit: u16, bytes: &[u8]) -> Result<Table, TableFault> {
    let columns = number(alloc)?;
    read_table(alloc, columns.as_slice(), u32::from(limit), bytes)
}

fn read_pair(alloc: Global, limit: u16, bytes: &[u8]) -> Result<Table, TableFault> {
    let columns = pair(alloc)?;
    read_table(alloc, columns.as_slice(), u32::from(limit), bytes)
}

pub(crate) fn names_of(alloc: Global, columns: &[Column]) -> Result<Vec<Text>, Memory> {
    let mut names = Vec::new(alloc);
    for column in columns {
        names.push(column.name.copy(alloc)?)?;
    }
    Ok(names)
}

pub(crate) fn types_of(alloc: Global, columns: &[Column]) -> Result<Vec<SqlType>, Memory> {
    let mut types = Vec::new(alloc);
    for column in columns {
        types.push(column.kind)?;
    }
    Ok(types)
}

pub(crate) fn print(alloc: Global, table: &Table) -> Result<Vec<u8>, Memory> {
    let names = names_of(alloc, table.columns.as_slice())?;
    let types = types_of(alloc, table.columns.as_slice())?;
    text_of(alloc, names.as_slice(), types.as_slice(), &table.rows)
}

pub(crate) fn is_printed(alloc: Global, table: &Table, want: &str) -> Result<bool, TableFault> {
    let text = print(alloc, table)?;
    Ok(text.as_slice() == want.as_bytes())
}

/// Whether a text of a number and a text in each row prints as another.
fn prints(alloc: Global, limit: u16, text: &str, want: &str) -> Result<bool, TableFault> {
    let table = read_pair(alloc, limit, text.as_bytes())?;
    is_printed(alloc, &table, want)
}

#[test]
fn what_is_read_prints_as_it_stood(rt: HostRuntime) -> Result<(), TableFault> {
    for text in [
        "a,c\n1,x\n2,\n\\N,\\N\n",
        "a,c\n",
        "a,c\n1,\n2,\\\\N\n3,\\\\\\N\n",
        "a,c\n-9223372036854775808,\"x, \"\"y\"\"\"\n0,\"two\nlines\"\n",
    ] {
        assert!(rt; prints(rt.alloc(), 3, text, text)?);
    }
    Ok(())
}

#[test]
fn other_forms_of_a_table_print_plainly(rt: HostRuntime) -> Result<(), TableFault> {
    let alloc = rt.alloc();
    assert!(rt; prints(alloc, 1, "\u{feff}a,c\r\n+07,\"x\"\r\n", "a,c\n7,x\n")?);
    assert!(rt; prints(alloc, 1, "\n\na,c\n\n,y", "a,c\n\\N,y\n")?);
    assert!(rt; prints(alloc, 1, "a,c\n1,\\x\n", "a,c\n1,\\\\x\n")?);
    Ok(())
}

/// Whether a text and the same text with a name in quotes print as another.
fn both_print(alloc: Global, plain: &str, quoted: &str, want: &str) -> Result<bool, TableFault> {
    Ok(prints(alloc, 9, plain, want)? && prints(alloc, 9, quoted, want)?)
}

#[test]
fn lines_are_read_as_csv_reads_them(rt: HostRuntime) -> Result<(), TableFault> {
    let alloc = rt.alloc();
    assert!(rt;
        both_print(
            alloc,
            "a,c\r\n1,x\r\n\n\r2,\r",
            "\"a\",c\r\n1,x\r\n\n\r2,\r",
            "a,c\n1,x\n2,\n"
        )?
    );
    assert!(rt;
        both_print(
            alloc,
            "\r\na,c\n\\N,y z",
            "\r\n\"a\",c\n\\N,y z",
            "a,c\n\\N,y z\n"
        )?
    );
    assert!(rt; both_print(alloc, "a,c\n\n", "\"a\",c\n\n", "a,c\n")?);
    Ok(())
}

fn is_refusal(answer: &Result<Table, TableFault>, want: (u32, u32, u8)) -> bool {
    match answer {
        Err(TableFault::Refused { row, column, why }) => (*row, *column, *why) == want,
        _ => false,
    }
}

fn refuses_number(alloc: Global, limit: u16, bytes: &[u8], want: (u32, u32, u8)) -> bool {
    is_refusal(&read_number(alloc, limit, bytes), want)
}

fn refuses_pair(alloc: Global, bytes: &[u8], want: (u32, u32, u8)) -> bool {
    is_refusal(&read_pair(alloc, 9, bytes), want)
}

/// Whether rows behind other lines are refused so.
fn refuses_behind(
    alloc: Global,
    lines: &str,
    rows: &[u8],
    want: (u32, u32, u8),
) -> Result<bool, Memory> {
    let mut text = Vec::new(alloc);
    text.extend_from_slice(lines.as_bytes())?;
    text.extend_from_slice(rows)?;
    Ok(refuses_pair(alloc, text.as_slice(), want))
}

#[test]
fn refuses_the_first_fault_of_a_number(rt: HostRuntime) {
    let alloc = rt.alloc();
    assert!(rt; refuses_number(alloc, 1, b"a\n1\n2\n", (2, 0, 5)));
    assert!(rt; refuses_number(alloc, 1, b"b\n", (0, 0, 1)));
    assert!(rt; refuses_number(alloc, 1, b"a\n1x\n", (1, 0, 4)));
    assert!(rt; refuses_number(alloc, 1, b"", (0, 0, 1)));
    assert!(rt; refuses_number(alloc, 0, b"a\nx,y\n", (1, 0, 5)));
}

#[test]
fn a_line_is_refused_as_csv_reads_it(rt: HostRuntime) -> Result<(), Memory> {
    let alloc = rt.alloc();
    for lines in ["a,c\n1,x\n", "\"a\",c\n1,x\n"] {
        assert!(rt; refuses_behind(alloc, lines, b"2,y,\n", (2, 3, 2))?);
        assert!(rt; refuses_behind(alloc, lines, b"y\r", (2, 1, 2))?);
        assert!(rt; refuses_behind(alloc, lines, b"y,\xff", (2, 0, 4))?);
    }
    Ok(())
}

#[test]
fn refuses_the_first_fault_in_its_place(rt: HostRuntime) {
    let alloc = rt.alloc();
    assert!(rt; refuses_pair(alloc, b"a\n", (0, 1, 1)));
    assert!(rt; refuses_pair(alloc, b"a,c,d\n", (0, 2, 1)));
    assert!(rt; refuses_pair(alloc, b"a,c\n1,x\n2", (2, 1, 2)));
    assert!(rt; refuses_pair(alloc, b"a,c\n1,\xff,y\n", (1, 3, 2)));
    assert!(rt; refuses_pair(alloc, b"a,c\nx,\xff\n", (1, 0, 4)));
    assert!(rt; refuses_pair(alloc, b"a,c\n1,\xff\nx,y\n", (1, 1, 3)));
}

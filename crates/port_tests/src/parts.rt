use crate::tables::{pair, print};
use csv_tables::{TableFault, read_table};
use sql_values::{Column, Memory, Table};
use std::alloc::Global;
use std::thread::Threads;
use table_parts::{part_count, read_table_in_parts};

/// At most so many rows stand in a table.
const LIMIT: u32 = 5;

/// Texts of a number and a text in each row, each behind what is read of it: `ok`, or the row, the column and the
/// reason of a refusal. `/` is a line feed, `^` a carriage return, `~` a byte order mark and `!` no UTF-8.
const TEXTS: &str = "\
ok a,c/1,x/2,y/3,z/4,v/5,w/
ok a,c/1,x/2,y/3,z/4,v/5,w
ok a,c^/1,x^/2,y^/3,z^/
ok a,c/1,x^2,y/3,z/
ok a,c^1,x^2,y^3,z^
ok a,c^1,x/2,y/3,z/
ok ~a,c/1,x/2,y/3,z/
ok a,c/1,~x/2,~/3,~
104 a,c/~1,x/2,y/3,z/
204 a,c/1,x/~2,y/3,z/
304 a,c/1,x/2,y/~3,z/
ok ///a,c/1,x/2,y/
ok a,c/1,x/////2,y///3,z//
ok a,c/
ok a,c
ok a,c/1,\"x\"/2,y/3,z/
ok a,c/1,\"x/2,y/3\"/4,z/
ok a,c/1,x/2,y/3,z/4,\"/\"/
001 
001 ///
011 a/1/2/3/
021 a,c,d/1,x/2,y/
112 a,c/1/2,y/3,z/
412 a,c/1,x/2,y/3,z/4/5,w/
304 a,c/1,x/2,y/x,z/4,v/
213 a,c/1,x/2,!/3,z/
504 a,c/1,/2,/3,/4,/x,/6,/
605 a,c/1,/2,/3,/4,/5,/6,/
605 a,c/1,/2,/3,/4,/5,/x,y,z/7,/
605 a,c/1,/2,/3,/4,/5,/6,/7,/8,/x,/";

fn put_byte(text: &mut Vec<u8>, byte: u8) -> Result<(), Memory> {
    match byte {
        b'/' => text.push(b'\n')?,
        b'^' => text.push(b'\r')?,
        b'~' => text.extend_from_slice(b"\xEF\xBB\xBF")?,
        b'!' => text.push(0xFF)?,
        _ => text.push(byte)?,
    }
    Ok(())
}

/// The bytes that a line stands for.
fn bytes_of(alloc: Global, line: &str) -> Result<Vec<u8>, Memory> {
    let mut text = Vec::new(alloc);
    for byte in line.as_bytes() {
        put_byte(&mut text, *byte)?;
    }
    Ok(text)
}

fn digit_of(byte: u8) -> u32 {
    u32::from(byte.wrapping_sub(b'0'))
}

/// Whether three digits name the row, the column and the reason of a refusal.
fn is_named(want: &str, fault: TableFault) -> bool {
    let TableFault::Refused { row, column, why } = fault else {
        return false;
    };
    match want.as_bytes() {
        [a, b, c] => digit_of(*a) == row
            && digit_of(*b) == column
            && digit_of(*c) == u32::from(why),
        _ => false,
    }
}

/// Whether what was read is what is wanted of a text that is read as `table`.
fn is_wanted(
    alloc: Global,
    want: &str,
    table: &Result<Table, TableFault>,
    read: &Result<Table, TableFault>,
) -> Result<bool, Memory> {
    match (table, read) {
        (Ok(table), Ok(read)) => Ok(
            want == "ok" && print(alloc, table)?.as_slice() == print(alloc, read)?.as_slice(),
        ),
        (Err(fault), Err(other)) => Ok(is_named(want, *fault) && fault == other),
        _ => Ok(false),
    }
}

/// Whether a text is read alike as a whole and as two, three and seven parts.
fn reads_alike<R: Threads + Sync>(
    rt: &R,
    alloc: Global,
    columns: &[Column],
    want: &str,
    text: &[u8],
) -> Result<bool, Memory> {
    let table = read_table(alloc, columns, LIMIT, text);
    for parts in [2, 3, 7] {
        let read = read_table_in_parts(rt, alloc, parts, columns, LIMIT, text);
        if !is_wanted(alloc, want, &table, &read)? {
            return Ok(false);
        }
    }
    Ok(true)
}

/// The first text that is not read so.
fn first_wrong<R: Threads + Sync>(rt: &R, alloc: Global) -> Result<Option<&'static str>, Memory> {
    let columns = pair(alloc)?;
    for line in TEXTS.lines() {
        let Some((want, text)) = line.split_once(' ') else {
            return Ok(Some(line));
        };
        let bytes = bytes_of(alloc, text)?;
        if !reads_alike(rt, alloc, columns.as_slice(), want, bytes.as_slice())? {
            return Ok(Some(line));
        }
    }
    Ok(None)
}

#[test]
fn parts_read_as_the_whole(rt: HostRuntime) -> Result<(), Memory> {
    assert_eq!(rt; first_wrong(&rt, rt.alloc())?, None);
    Ok(())
}

#[test]
fn a_part_is_worth_a_thread(rt: HostRuntime) {
    assert_eq!(rt; part_count(4, 100_000), 0);
    assert_eq!(rt; part_count(4, 600_000), 2);
    assert_eq!(rt; part_count(4, 2_000_000_000), 4);
    assert_eq!(rt; part_count(1, 2_000_000_000), 1);
}

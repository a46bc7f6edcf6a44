ghost use Rattle.std.specs.Prelude.{◌≡◌, ◌≤◌, ◌++◌, codes, List, [], ℕ, Option, OnOk, OnErr};
ghost use Rattle.std.specs.Fmt.{decimal};
ghost use Rattle.std.specs.Io.KnownBytes.{Appends};
ghost use Rattle.count_laws.specs.Counts.{Rose};
ghost use Rattle.run_ports.specs.Writing.{AppendsPrefix};
ghost use Rattle.command_line.specs.Words.{asked, no_job};
ghost use Rattle.query_runner.specs.Answers.{Told, heard_on};
ghost use Rattle.query_runner.specs.Lines.{failure_message, file_numbered, kind_number, line, message, plan_message, read_message, table_message, table_named};

use crate::status::Status;
use command_line::Job;
use itoa::Buffer;
use plan_reader::TableDoc;
use run_ports::{Sink, SinkFailed, write_whole};
use sql_values::Fail;
use std::alloc::Global;

/// Writes the line of an answer to the errors, where it is not Ok. It takes no memory. A write that
/// fails ends it.
pub fn tell<E: Sink>(err: &mut E, job: &Job<'_>, tables: &[TableDoc], status: &Status)
    ensures { Told (heard_on E.Sink err.old err.new) (message (asked job.now) tables.now status.now) status.now }
{
    if let Status::Ok = status {
        return;
    }
    let _ = write_line(err, job, tables, status);
}

/// The same of an answer before there is a job.
pub fn tell_first<E: Sink>(alloc: Global, err: &mut E, status: &Status)
    ensures { Told (heard_on E.Sink err.old err.new) (message no_job [] status.now) status.now }
{
    tell(err, &Job::none(alloc), &[], status);
}

fn write_line<E: Sink>(
    err: &mut E,
    job: &Job<'_>,
    tables: &[TableDoc],
    status: &Status,
) -> Result<(), SinkFailed>
    ensures ok { OnOk result
        (Appends (E.written err.old) (E.written err.new)
        (line (message (asked job.now) tables.now status.now))) }
    ensures begins { OnErr result
        (AppendsPrefix (E.written err.old) (E.written err.new) (line (message (asked job.now) tables.now status.now))) }
    ensures later { E.faults err.old ≤ E.faults err.new }
    ensures cause { OnErr result (Rose (E.faults err.old) (E.faults err.new)) }
{
    write_text(err, "trinorun: ")?;
    write_message(err, job, tables, status)?;
    write_text(err, "\n")
}

fn write_message<E: Sink>(
    err: &mut E,
    job: &Job<'_>,
    tables: &[TableDoc],
    status: &Status,
) -> Result<(), SinkFailed>
    ensures ok { OnOk result
        (Appends (E.written err.old) (E.written err.new)
        (message (asked job.now) tables.now status.now)) }
    ensures begins { OnErr result
        (AppendsPrefix (E.written err.old) (E.written err.new) (message (asked job.now) tables.now status.now)) }
    ensures later { E.faults err.old ≤ E.faults err.new }
    ensures cause { OnErr result (Rose (E.faults err.old) (E.faults err.new)) }
{
    match status {
        Status::Ok => Ok(()),
        Status::Memory => write_text(err, "out of memory"),
        Status::BadWords => write_text(err, "bad command line"),
        Status::ReadFault { file } => write_unread(err, file_numbered(job, *file)),
        Status::PlanRefused { code, path } => write_plan(err, u32::from(*code), path.as_str()),
        Status::TableRefused {
            table,
            row,
            column,
            why,
        } => {
            write_table(
                err,
                table_named(tables, *table),
                *row,
                *column,
                u32::from(*why),
            )
        }
        Status::ExprFailed { node, kind } => write_failure(err, *node, kind_number(*kind)),
        Status::WriteFault => write_text(err, "cannot write"),
    }
}

fn write_unread<E: Sink>(err: &mut E, file: &str) -> Result<(), SinkFailed>
    ensures ok { OnOk result
        (Appends (E.written err.old) (E.written err.new) (read_message file.now)) }
    ensures begins { OnErr result
        (AppendsPrefix (E.written err.old) (E.written err.new) (read_message file.now)) }
    ensures later { E.faults err.old ≤ E.faults err.new }
    ensures cause { OnErr result (Rose (E.faults err.old) (E.faults err.new)) }
{
    write_text(err, "cannot read ")?;
    write_text(err, file)
}

fn write_plan<E: Sink>(err: &mut E, code: u32, path: &str) -> Result<(), SinkFailed>
    ensures ok { OnOk result
        (Appends (E.written err.old) (E.written err.new) (plan_message code path.now)) }
    ensures begins { OnErr result
        (AppendsPrefix (E.written err.old) (E.written err.new) (plan_message code path.now)) }
    ensures later { E.faults err.old ≤ E.faults err.new }
    ensures cause { OnErr result (Rose (E.faults err.old) (E.faults err.new)) }
{
    write_text(err, "plan refused ")?;
    write_number(err, code)?;
    write_text(err, " at ")?;
    write_text(err, path)
}

fn write_table<E: Sink>(
    err: &mut E,
    name: &str,
    row: u32,
    column: u32,
    why: u32,
) -> Result<(), SinkFailed>
    ensures ok { OnOk result
        (Appends (E.written err.old) (E.written err.new) (table_message name.now row column why)) }
    ensures begins { OnErr result
        (AppendsPrefix (E.written err.old) (E.written err.new) (table_message name.now row column why)) }
    ensures later { E.faults err.old ≤ E.faults err.new }
    ensures cause { OnErr result (Rose (E.faults err.old) (E.faults err.new)) }
{
    write_text(err, "table ")?;
    write_text(err, name)?;
    write_text(err, " refused ")?;
    write_number(err, why)?;
    write_text(err, " at row ")?;
    write_number(err, row)?;
    write_text(err, " column ")?;
    write_number(err, column)
}

fn write_failure<E: Sink>(err: &mut E, node: u32, kind: u32) -> Result<(), SinkFailed>
    ensures ok { OnOk result
        (Appends (E.written err.old) (E.written err.new) (failure_message node kind)) }
    ensures begins { OnErr result
        (AppendsPrefix (E.written err.old) (E.written err.new) (failure_message node kind)) }
    ensures later { E.faults err.old ≤ E.faults err.new }
    ensures cause { OnErr result (Rose (E.faults err.old) (E.faults err.new)) }
{
    write_text(err, "expression failed ")?;
    write_number(err, kind)?;
    write_text(err, " at node ")?;
    write_number(err, node)
}

pub(crate) fn write_text<E: Sink>(err: &mut E, text: &str) -> Result<(), SinkFailed>
    ensures ok { OnOk result (Appends (E.written err.old) (E.written err.new) text.now) }
    ensures begins { OnErr result
        (AppendsPrefix (E.written err.old) (E.written err.new) text.now) }
    ensures later { E.faults err.old ≤ E.faults err.new }
    ensures cause { OnErr result (Rose (E.faults err.old) (E.faults err.new)) }
{
    write_whole(err, text.as_bytes())
}

pub(crate) fn write_number<E: Sink>(err: &mut E, number: u32) -> Result<(), SinkFailed>
    ensures ok { OnOk result (Appends (E.written err.old) (E.written err.new) (decimal number)) }
    ensures begins { OnErr result
        (AppendsPrefix (E.written err.old) (E.written err.new) (decimal number)) }
    ensures later { E.faults err.old ≤ E.faults err.new }
    ensures cause { OnErr result (Rose (E.faults err.old) (E.faults err.new)) }
{
    let mut buffer = Buffer::new();
    write_text(err, buffer.format(number))
}

/// The file of a number: 0 is the plan's, and the others are counted from 1.
fn file_numbered<'a>(job: &Job<'a>, file: u32) -> &'a str
    ensures { result.now ≡ file_numbered (asked job.now) file }
{
    if file == 0 {
        return job.plan();
    }
    job.file_at((file - 1) as usize)
}

fn table_named(tables: &[TableDoc], place: u32) -> &str
    ensures { result.now ≡ table_named tables.now place }
{
    match tables.get(place as usize) {
        Some(doc) => doc.name.as_str(),
        None => "",
    }
}

/// The number of a kind of failure.
fn kind_number(kind: Fail) -> u32
    ensures { result ≡ kind_number kind }
{
    match kind {
        Fail::OutOfRange => 1,
        Fail::DivisionByZero => 2,
        Fail::BadCast => 3,
        Fail::TextTooLong => 4,
    }
}

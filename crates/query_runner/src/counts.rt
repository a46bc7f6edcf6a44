//! The lines that tell how many rows passed the dynamic filters of a plan.
ghost use Rattle.std.specs.Prelude.{◌≤◌, OnOk, OnErr};
ghost use Rattle.std.specs.Fmt.{decimal};
ghost use Rattle.std.specs.Io.KnownBytes.{Appends};
ghost use Rattle.count_laws.specs.Counts.{Rose};
ghost use Rattle.run_ports.specs.Writing.{AppendsPrefix};
ghost use Rattle.query_runner.specs.Answers.{ToldText, heard_on};
ghost use Rattle.query_runner.specs.Lines.{count_line, count_lines, filter_words, passed_words};

use crate::lines::{write_number, write_text};
use itoa::Buffer;
use run_ports::{Sink, SinkFailed};
use task_executor::FilterPassed;

/// Writes a line for each filter to the errors, in their order. It takes no memory. A write that fails ends it.
pub(crate) fn tell_counts<E: Sink>(err: &mut E, passed: &[FilterPassed])
    ensures { ToldText (heard_on E.Sink err.old err.new) (count_lines passed.now) }
{
    let _ = write_counts(err, passed);
}

fn write_counts<E: Sink>(err: &mut E, passed: &[FilterPassed]) -> Result<(), SinkFailed>
    ensures ok { OnOk result
        (Appends (E.written err.old) (E.written err.new) (count_lines passed.now)) }
    ensures begins { OnErr result
        (AppendsPrefix (E.written err.old) (E.written err.new) (count_lines passed.now)) }
    ensures later { E.faults err.old ≤ E.faults err.new }
    ensures cause { OnErr result (Rose (E.faults err.old) (E.faults err.new)) }
{
    let Some((first, rest)) = passed.split_first() else {
        return write_text(err, "");
    };
    write_count(err, first)?;
    write_counts(err, rest)
}

fn write_count<E: Sink>(err: &mut E, count: &FilterPassed) -> Result<(), SinkFailed>
    ensures ok { OnOk result
        (Appends (E.written err.old) (E.written err.new) (count_line count.now)) }
    ensures begins { OnErr result
        (AppendsPrefix (E.written err.old) (E.written err.new) (count_line count.now)) }
    ensures later { E.faults err.old ≤ E.faults err.new }
    ensures cause { OnErr result (Rose (E.faults err.old) (E.faults err.new)) }
{
    write_filter(err, count.filter)?;
    write_passed(err, count.rows)
}

fn write_filter<E: Sink>(err: &mut E, filter: u32) -> Result<(), SinkFailed>
    ensures ok { OnOk result (Appends (E.written err.old) (E.written err.new) (filter_words filter)) }
    ensures begins { OnErr result
        (AppendsPrefix (E.written err.old) (E.written err.new) (filter_words filter)) }
    ensures later { E.faults err.old ≤ E.faults err.new }
    ensures cause { OnErr result (Rose (E.faults err.old) (E.faults err.new)) }
{
    write_text(err, "filter ")?;
    write_number(err, filter)
}

fn write_passed<E: Sink>(err: &mut E, rows: u64) -> Result<(), SinkFailed>
    ensures ok { OnOk result (Appends (E.written err.old) (E.written err.new) (passed_words rows)) }
    ensures begins { OnErr result
        (AppendsPrefix (E.written err.old) (E.written err.new) (passed_words rows)) }
    ensures later { E.faults err.old ≤ E.faults err.new }
    ensures cause { OnErr result (Rose (E.faults err.old) (E.faults err.new)) }
{
    write_text(err, " passed ")?;
    write_rows(err, rows)?;
    write_text(err, "\n")
}

fn write_rows<E: Sink>(err: &mut E, rows: u64) -> Result<(), SinkFailed>
    ensures ok { OnOk result (Appends (E.written err.old) (E.written err.new) (decimal rows)) }
    ensures begins { OnErr result
        (AppendsPrefix (E.written err.old) (E.written err.new) (decimal rows)) }
    ensures later { E.faults err.old ≤ E.faults err.new }
    ensures cause { OnErr result (Rose (E.faults err.old) (E.faults err.new)) }
{
    let mut buffer = Buffer::new();
    write_text(err, buffer.format(rows))
}

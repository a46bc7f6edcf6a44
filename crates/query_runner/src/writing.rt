//! The text of a result, written chunk by chunk.
ghost use Rattle.std.specs.Prelude.{◌≤◌, OnOk, OnErr};
ghost use Rattle.std.specs.Io.KnownBytes.{Appends};
ghost use Rattle.count_laws.specs.Counts.{Rose};
ghost use Rattle.run_ports.specs.Writing.{AppendsPrefix};
ghost use Rattle.table_parts.specs.Printing.{whole_text};

use run_ports::{Sink, SinkFailed, write_whole};
use table_parts::TextChunks;

/// Writes a text. A write that fails ends it.
pub(crate) fn write_result<O: Sink>(out: &mut O, text: &TextChunks) -> Result<(), SinkFailed>
    ensures ok { OnOk result (Appends (O.written out.old) (O.written out.new) text.now) }
    ensures prefix { OnErr result (AppendsPrefix (O.written out.old) (O.written out.new) text.now) }
    ensures later { O.faults out.old ≤ O.faults out.new }
    ensures cause { OnErr result (Rose (O.faults out.old) (O.faults out.new)) }
{
    write_chunks(out, text.chunks())
}

/// Writes chunks, one behind the other.
fn write_chunks<O: Sink>(out: &mut O, chunks: &[Vec<u8>]) -> Result<(), SinkFailed>
    ensures ok { OnOk result
        (Appends (O.written out.old) (O.written out.new) (whole_text chunks.now)) }
    ensures prefix { OnErr result
        (AppendsPrefix (O.written out.old) (O.written out.new) (whole_text chunks.now)) }
    ensures later { O.faults out.old ≤ O.faults out.new }
    ensures cause { OnErr result (Rose (O.faults out.old) (O.faults out.new)) }
{
    for chunk in chunks {
        write_whole(out, chunk.as_slice())?;
    }
    Ok(())
}

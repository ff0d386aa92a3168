// One row is handed to a sink.
ghost use Rattle.row.specs.Rows.{row_text};

use crate::row::Row;
use crate::sink::Sink;
use crate::write::{LONGEST_ROW, write_row};

/// Hands one row to the sink, and waits for no other.
pub fn hand_row<S: Sink>(row: &Row, sink: &mut S) -> Result<(), S::Fault>
    ensures { S.Sink.hands sink.old (row_text row.now) result sink.new }
{
    let mut line = [0u8; LONGEST_ROW];
    let size = write_row(row, &mut line).unwrap();
    sink.take(&line[..size])
}

// Rows are gathered here before a sink is handed them.
ghost use Rattle.std.specs.Prelude.{◌≡◌, ℕ, ◌≤◌, [], length};
ghost use Rattle.row.specs.Buffers.{Appends, Puts, Flushes};
ghost use Rattle.row.specs.Rows.{row_text};

use crate::row::{Row, RowFault};
use crate::sink::Sink;
use crate::write::write_row;
use std::marker::Model;

/// How many bytes are gathered at most.
pub const BUFFER_SIZE: usize = 65536;

/// Rows on their way to a sink. No `ArrayVec`: it lends no room behind its elements, and a row is written into what is left of the buffer.
#[derive(Drop)]
pub struct RowBuffer {
    bytes: [u8; BUFFER_SIZE],
    used: usize,
    ghost within: { used ≤ 65536 },
}

// A clause sees the bytes that wait. The value carries the fact `few`, so that every caller knows how many they are at most.
impl Model for RowBuffer {
    ghost use Rattle.std.specs.Prelude.{take};
    ghost use Rattle.row.specs.Waiting.{Waiting, few_taken};

    ghost Value = { Waiting };

    ghost view = { λ b. record { bytes = take b.used b.bytes; few = few_taken b.used b.bytes b.within } };
}

impl RowBuffer {
    /// An empty buffer.
    pub fn new() -> RowBuffer
        ensures { result.bytes ≡ [] }
    {
        RowBuffer {
            bytes: [0; BUFFER_SIZE],
            used: 0,
        }
    }

    /// Hands all that waits to the sink.
    pub fn flush<S: Sink>(&mut self, sink: &mut S) -> Result<(), S::Fault>
        ensures { Flushes S.Sink.hands sink.old self.old.bytes result sink.new self.new.bytes }
    {
        sink.take(&self.bytes[..self.used])?;
        self.used = 0;
        Ok(())
    }

    // Puts a row behind those that wait, if it has room.
    fn append(&mut self, row: &Row) -> Result<(), RowFault>
        ensures { Appends self.old.bytes (row_text row.now) result self.new.bytes }
    {
        let size = write_row(row, &mut self.bytes[self.used..])?;
        self.used += size;
        Ok(())
    }

    /// Puts a row behind those that wait; where it has no room, they are handed to the sink first.
    pub fn put<S: Sink>(&mut self, row: &Row, sink: &mut S) -> Result<(), S::Fault>
        ensures puts { Puts S.Sink.hands sink.old self.old.bytes (row_text row.now) result sink.new self.new.bytes }
        ensures few { length self.new.bytes ≤ 65536 }
    {
        if self.append(row).is_ok() {
            return Ok(());
        }
        self.flush(sink)?;
        self.append(row).unwrap();
        Ok(())
    }
}

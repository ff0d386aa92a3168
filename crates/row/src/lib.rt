// Rows of a rehearsal: what the answer of a call looks like as text, rows written into a buffer, and rows on their way to a sink.
// It uses `level`, for the letters of ticks, and `thiserror`, for the text of a refusal.
// What rows look like stands in specs/Rows.antt, and what sinks are in specs/Sinks.antt.
#![tactic(auto)]

pub mod buffer;
mod field;
mod figures;
pub mod gather;
pub mod row;
pub mod sink;
pub mod write;

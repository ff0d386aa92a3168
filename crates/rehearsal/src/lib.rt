// Rehearsals: a typed script is played on a level over the plan of a sheet, and every answer becomes a row.
// It uses `sheet`, `level`, `command`, `row` and what they stand on, and `thiserror` for the text of its fault.
// What a whole rehearsal is stands in specs/Whole.antt.
#![tactic(auto)]

pub mod advance;
pub mod fault;
pub mod play;
pub mod rehearsal;
pub mod run;
pub mod whole;

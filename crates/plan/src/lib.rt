// Plans: timetables written as a list of entries, each of which owns a stretch of every frame on its path.
// It uses `clock` and `timetable`, and `thiserror` for the texts of the refusals.
// A plan is filled whole or not at all, so no plan ever has a clash.
#![tactic(auto)]

mod depth;
pub mod entry;
pub mod fault;
pub mod fill;
pub mod parts;
pub mod plan;

// Reservations, "so many ticks out of every so many", and the check of a list of them against any timetable.
// It uses `clock` and `timetable`, and `thiserror` for the texts of the refusals.
// The check knows a timetable only through the interface, so a new one needs nothing here.
#![tactic(auto)]

pub mod check;
pub mod fault;
pub mod reservation;
mod window;

// Plan sheets: a plan and its reservations as blocks of bytes, read whole or not at all.
// It uses `clock`, `timetable`, `plan` and `reservation`, and of the kit `arrayvec` and `thiserror`. What the bytes mean stands in specs/Format.antt.
#![tactic(auto)]

mod blocks;
mod entries;
pub mod fault;
mod heading;
pub mod load;

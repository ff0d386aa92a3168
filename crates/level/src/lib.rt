// Levels: activities that share one clock, over any timetable and any spare rule. A level gives each tick to a time constraint,
// to the tick's owner, or to whom the spare rule names. It uses `clock`, `timetable`, `reservation` and `spare`,
// and `thiserror` for the texts of its refusals.
// What is promised of every list of calls on several levels stands in specs/Promises.antt, and on the contract of each call.
#![tactic(auto)]

mod activity;
mod advance;
pub mod begin;
mod board;
pub mod collect;
pub mod constraint;
mod due;
pub mod finish;
mod inner;
pub mod level;
mod marking;
pub mod questions;
pub mod readiness;
pub mod refusal;
mod seating;
mod supply;
pub mod theorem;
pub mod tick;
pub mod ticked;
pub mod ticket;

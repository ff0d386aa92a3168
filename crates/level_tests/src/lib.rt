// Tests of `level` at its edges, in a crate of their own so that the level is proved once. It uses `scripts`, whose doors begin and end
// constraints without holding a ticket in between, and the example plan and the free timetable of `cases`.
#![tactic(auto)]

pub mod beyond;
pub mod foreign;
#[cfg(test)]
mod tests;
#[cfg(test)]
mod worked;

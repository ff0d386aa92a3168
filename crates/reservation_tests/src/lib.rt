// Tests of `reservation` at its edges, in a crate of their own so that the check is proved once.
// They use `plan`, `timetable`, and the example plan and the free timetable of `cases`.
#![tactic(auto)]

#[cfg(test)]
mod tests;

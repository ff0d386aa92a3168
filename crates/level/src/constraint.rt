// What a seat holds.

/// What a seat in use holds: its constraint, how many ticks that has run, and whether its ticket is out or left with the level.
#[derive(Clone, Copy, PartialEq, Eq, Debug)]
pub struct Constraint {
    pub activity: u8,
    pub start: i32,
    pub deadline: i32,
    pub estimate: u16,
    pub ran: u32,
    // A flag: it says one thing, and no value stands beside it that it would give a meaning.
    pub out: bool,
}

// Who owns each tick of an unending clock: the interface that every timetable meets, and a shift over any of them.
// It uses `clock` alone. Whatever is proved over the interface holds of every timetable, and needs no new proof for one more.
#![tactic(auto)]

pub mod shift;
pub mod table;

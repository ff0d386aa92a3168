// Script code as a studio writes it: lifts, doors and platforms that begin constraints, and levels that tick side by side.
// It uses `level` and what that stands on. A script can not lose a ticket: whoever returns while still holding one, or ends one twice,
// is refused before anything runs. Each contract says that whatever the script did, every level of the program keeps all promises.
#![tactic(auto)]

pub mod door;
pub mod lift;
pub mod outcome;
pub mod platform;
pub mod row;
pub mod side_by_side;

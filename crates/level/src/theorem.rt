// What holds of every list of calls, whoever makes them.
ghost use Rattle.level.specs.Promises.{Sharing};
ghost use Rattle.level.specs.Ticks.{MarkedOnce};

/// Every level of a program keeps all its promises after every list of openings and calls.
/// The contract is the sharing theorem; each call's contract has it for the calls that were really made.
pub fn sharing_stands()
    ensures { Sharing }
{}

/// A begin that is accepted has one set of ticks to mark, and no other.
pub fn marked_once()
    ensures { MarkedOnce }
{}

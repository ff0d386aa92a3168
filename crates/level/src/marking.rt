// Which ticks a constraint is given: one pass over its window counts them, and a second one marks them.
ghost use Rattle.std.specs.Prelude.{◌≡◌, ℕ, ◌≤◌, ℤ};
ghost use Rattle.level.specs.Board.{holder};
ghost use Rattle.level.specs.Ticks.{between, Gives};
ghost use Rattle.level.specs.Pass.{kind_of, own_at, free_at, Near, MarkedFirst};

use crate::board::Board;
use crate::constraint::Constraint;
use crate::refusal::Refusal;
use crate::supply::{Kind, Supply};
use timetable::table::Timetable;

// What the tick is to the activity.
fn kind_at<T: Timetable>(board: &Board, timetable: &T, activity: u8, t: i32) -> Kind
    ensures { result ≡ kind_of activity (holder board.now t) (T.Timetable.owner timetable.now t) }
{
    match board.holder_at(t) {
        Some(_) => Kind::Taken,
        None => match timetable.owner_at(t) {
            None => Kind::Free,
            Some(owner) if owner == activity => Kind::Own,
            Some(_) => Kind::Taken,
        },
    }
}

// The passes take board, timetable and constraint by themselves: a struct of the three would lend the board for one pass only.

// How many of the ticks in a constraint's window are there to be marked.
fn survey<T: Timetable>(board: &Board, timetable: &T, constraint: &Constraint) -> Supply
    requires { Near constraint.now }
    ensures own { result.own ≡ between (own_at (holder board.now) (T.Timetable.owner timetable.now) constraint.now.activity) constraint.now.start constraint.now.deadline }
    ensures free { result.free ≡ between (free_at (holder board.now) (T.Timetable.owner timetable.now) constraint.now.activity) constraint.now.start constraint.now.deadline }
    ensures few { (result.own ≤ 1024) × (result.free ≤ 1024) }
{
    let mut found = Supply { own: 0, free: 0 };
    for t in constraint.start..constraint.deadline {
        found.add(kind_at(board, timetable, constraint.activity, t));
    }
    found
}

// Marks the first own and the first free ones of those ticks, so many of each at most.
fn mark_first<T: Timetable>(
    board: &mut Board,
    timetable: &T,
    seat: u8,
    constraint: &Constraint,
    most: Supply,
)
    requires { Near constraint.now }
    ensures { MarkedFirst (T.Timetable.owner timetable.now) seat constraint.now most (holder board.old) (holder board.new) }
{
    let mut left = most;
    for t in constraint.start..constraint.deadline {
        if left.take(kind_at(board, timetable, constraint.activity, t)) {
            board.mark(t, seat);
        }
    }
}

// Marks for the seat as many of the ticks that are available as the constraint asks for, or tells how many there are.
pub(crate) fn give<T: Timetable>(
    board: &mut Board,
    timetable: &T,
    seat: u8,
    constraint: &Constraint,
) -> Result<(), Refusal>
    requires { Near constraint.now }
    ensures { Gives (T.Timetable.owner timetable.now) seat constraint.now board.old board.new result }
{
    let found = survey(board, timetable, constraint);
    let available = found.own + found.free;
    if available < constraint.estimate {
        return Err(Refusal::TooFew { available });
    }
    let own = constraint.estimate;
    let free = own.saturating_sub(found.own);
    mark_first(board, timetable, seat, constraint, Supply { own, free });
    Ok(())
}

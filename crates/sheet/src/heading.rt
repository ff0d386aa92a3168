// The heading of a sheet, with its reservations.
ghost use Rattle.std.specs.Prelude.{◌≡◌, ℕ, ◌+◌, ◌*◌, ◌/◌, ◌<◌, ◌≤◌, length, MatchOption, ◌≢◌};
ghost use Rattle.std.specs.List.{concat};
ghost use Rattle.sheet.specs.Format.{ReservationAt, block, blocks_for, byte};
ghost use Rattle.sheet.specs.Read.{IsMarked, ListRead, HeadingRead};
ghost use Rattle.sheet.specs.Told.{Headed};

use crate::blocks::{Blocks, CHECKED_SIZE, HEAD_SIZE, are_zero};
use crate::entries::BLOCK_ENTRIES;
use arrayvec::ArrayVec;
use reservation::check::MOST_RESERVATIONS;
use reservation::reservation::Reservation;

// The kind of a heading.
const HEADING: u8 = 1;

// How many bytes a reservation has.
pub(crate) const RESERVATION_SIZE: usize = 6;

// What a heading says.
#[derive(Drop)]
pub(crate) struct HeadingFields {
    pub(crate) base: u16,
    pub(crate) depth: u8,
    pub(crate) entries: usize,
    pub(crate) reservations: ArrayVec<Reservation, MOST_RESERVATIONS>,
}

// How many blocks a sheet of so many entries has.
fn blocks_for(entries: usize) -> usize
    requires { entries ≤ 255 }
    ensures { result ≡ blocks_for entries }
{
    1 + entries.div_ceil(BLOCK_ENTRIES)
}

// The reservation in these bytes, where the second of them is 0.
fn reservation_in(bytes: &[u8; RESERVATION_SIZE]) -> Option<Reservation>
    ensures { MatchOption result (byte bytes.now 1 ≢ 0) (ReservationAt bytes.now 0) }
{
    let [
        activity,
        zero,
        ticks_low,
        ticks_high,
        period_low,
        period_high,
    ] = *bytes;
    if zero != 0 {
        return None;
    }
    Some(Reservation {
        activity,
        ticks: u16::from_le_bytes([ticks_low, ticks_high]),
        period: u16::from_le_bytes([period_low, period_high]),
    })
}

// So many reservations at the front of the bytes.
fn read_reservations(bytes: &[u8], count: usize) -> Option<ArrayVec<Reservation, MOST_RESERVATIONS>>
    requires { (count ≤ 16) × (6 * count ≤ length bytes.now) }
    ensures { MatchOption result (IsMarked bytes.now count) (λ v. ListRead bytes.now count v.items) }
{
    let (chunks, _) = bytes.as_chunks::<RESERVATION_SIZE>();
    let mut list = ArrayVec::new();
    // A loop, since `collect` takes an allocator, which `load` may not ask for.
    for chunk in &chunks[..count] {
        list.push(reservation_in(chunk)?);
    }
    Some(list)
}

// What the heading says of a sheet of these blocks.
pub(crate) fn read_heading(blocks: &Blocks) -> Option<HeadingFields>
    ensures { MatchOption result (Headed (block (concat blocks.now.blocks.now) 0) (length blocks.now.blocks.now) → ⊥) (HeadingRead (block (concat blocks.now.blocks.now) 0) (length blocks.now.blocks.now)) }
{
    // A slice pattern with the first bytes named: the project's form for a block.
    let [
        kind,
        number,
        low,
        high,
        depth,
        reserved,
        entries,
        zero,
        rest @ ..,
    ] = &blocks.first()[..]
    else {
        return None;
    };
    let (reserved, entries) = (usize::from(*reserved), usize::from(*entries));
    if *kind != HEADING || *number != 0 || *zero != 0 {
        return None;
    }
    if reserved > MOST_RESERVATIONS || blocks_for(entries) != blocks.blocks.len() {
        return None;
    }
    let reservations = read_reservations(rest, reserved)?;
    if !are_zero(&rest[RESERVATION_SIZE * reserved..CHECKED_SIZE - HEAD_SIZE]) {
        return None;
    }
    Some(HeadingFields {
        base: u16::from_le_bytes([*low, *high]),
        depth: *depth,
        entries,
        reservations,
    })
}

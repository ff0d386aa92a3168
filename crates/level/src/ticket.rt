// Tickets.

/// The right to end the constraint of one seat of one level. Only `begin` and `collect` make tickets, and only `end` and `leave` take
/// them: a ticket cannot be forgotten, copied or forged.
pub struct Ticket {
    pub(crate) level: u32,
    pub(crate) seat: u8,
}

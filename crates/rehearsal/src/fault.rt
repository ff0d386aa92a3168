// Why a rehearsal is not told to its end.
use std::fmt::Display;
use thiserror::Error;

/// Neither is a verdict on sheet or script, so neither has a number.
#[derive(Clone, Copy, Debug, Drop, Error)]
#[error_bound(F: Display)]
pub enum RehearsalFault<F> {
    /// There is no memory for the plan.
    #[error("no memory for the plan")]
    Memory,
    /// The sink did not take the rows.
    #[error(transparent)]
    Output(F),
}

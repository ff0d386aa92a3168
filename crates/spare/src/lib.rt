// Who gets a spare tick: the set of ready activities, the interface that every rule for spare ticks meets, and the rules that
// come with it. It uses no other crate but `thiserror`, for the texts of its refusals.
// Whoever proves something over the interface has it of every rule, a studio's own too.
#![tactic(auto)]

pub mod example;
pub mod fault;
pub mod fill;
pub mod hold;
pub mod hold_rule;
pub mod queue;
pub mod ready;
pub mod rule;
mod search;
pub mod waiting;
pub mod wheel;
pub mod wheel_rule;

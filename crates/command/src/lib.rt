// Scripts of a rehearsal: their commands, and a reader that goes through a script line by line.
// It uses `thiserror`, for the text of a refusal. What the lines of a script say stands in specs/Grammar.antt.
#![tactic(auto)]

pub mod command;
pub mod commands;
pub mod opening;
pub mod reader;

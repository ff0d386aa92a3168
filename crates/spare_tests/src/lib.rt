// Tests of `spare`, in a crate of their own so that the rules are proved once. They use `spare` alone. Beside them stands a rule
// as a studio would write it.
#![tactic(auto)]

pub mod robin;
#[cfg(test)]
mod tests;

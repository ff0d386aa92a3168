// Tests of `sheet` at its edges: each refusal with its layer, number and place, and the largest sheets.
// They stand in a crate of their own, so that `sheet` is not proved a second time for them.
#![tactic(auto)]

#[cfg(test)]
mod draft;
#[cfg(test)]
mod tests;

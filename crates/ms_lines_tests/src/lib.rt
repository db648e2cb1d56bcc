// Tests of the crate that reads scripts, through its public calls.
#![tactic(auto)]

#[cfg(test)]
mod lines;

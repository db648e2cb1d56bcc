// Tests of the crate that numbers things and completes modules, through its public calls.
#![tactic(auto)]

#[cfg(test)]
mod programs;
#[cfg(test)]
mod rows;

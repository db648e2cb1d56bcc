// Tests of the crates that a search will stand on, through their public calls.
#![tactic(auto)]

#[cfg(test)]
mod analyze;
#[cfg(test)]
mod bench;
#[cfg(test)]
mod lits;
#[cfg(test)]
mod nogood;
#[cfg(test)]
mod search;

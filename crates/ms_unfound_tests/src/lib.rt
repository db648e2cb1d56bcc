// Tests of the theory of loops, through its public calls and by the search.
#![tactic(auto)]

#[cfg(test)]
mod bench;
#[cfg(test)]
mod loops;
#[cfg(test)]
mod module;
#[cfg(test)]
mod rows;

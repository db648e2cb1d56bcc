// Tests of the crates that look at joins and find their answer sets, through their public calls.
#![tactic(auto)]

#[cfg(test)]
mod answers;
#[cfg(test)]
mod cone;
#[cfg(test)]
mod graph;
#[cfg(test)]
mod propagation;
#[cfg(test)]
mod rules;

// Tests of the crates that read whole texts, keep their parts and print statements, through their public calls.
#![tactic(auto)]

#[cfg(test)]
mod ast;
#[cfg(test)]
mod parse;
#[cfg(test)]
mod parts;
#[cfg(test)]
mod texts;

// Tests of the lines of the log.
#![tactic(auto)]

#[cfg(test)]
mod lines;

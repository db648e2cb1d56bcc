// Tests of the top call: worked scripts with their replies, their limits and their faults.
#![tactic(auto)]

#[cfg(test)]
mod serving;
#[cfg(test)]
mod top_call;

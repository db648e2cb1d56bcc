// Tests of the crates that cut a text into tokens and read its terms, values and parts, through their public calls.
#![tactic(auto)]

#[cfg(test)]
mod lex;
#[cfg(test)]
mod read_part;
#[cfg(test)]
mod read_term;
#[cfg(test)]
mod read_value;

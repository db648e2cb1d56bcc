// Commands of a script, and the definitions of specs/ that say which line is which command, and which
// commands bytes have.
#![tactic(auto)]

pub mod command;

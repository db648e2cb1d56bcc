// Tests of the crates that name terms, ground and list, through their public calls.
#![tactic(auto)]

#[cfg(test)]
mod atombase;
#[cfg(test)]
mod ctxground;
#[cfg(test)]
mod instances;
#[cfg(test)]
mod order;
#[cfg(test)]
mod show;
#[cfg(test)]
mod term;
#[cfg(test)]
mod value;

// One step of the machine for each command.
#![tactic(auto)]

mod adding;
mod atoms;
mod grounding;
mod open_session;
mod reply_text;
mod session;
mod solving;
mod text;
mod value_term;

pub use ms_base::memory::OutOfMemory;
pub use ms_base::truth::{Effect, Truth};
pub use session::Session;

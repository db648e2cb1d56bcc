// The lines of the log: notes as text, and back.
#![tactic(auto)]

mod item;
mod kind;
mod laws;
mod reading;
mod writing;

pub use laws::{one_log, one_note};
pub use ms_base::memory::OutOfMemory;
pub use reading::read;
pub use writing::write;

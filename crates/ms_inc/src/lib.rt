// The loop of turns that grows a program step by step until a solve ends as it should.
#![tactic(auto)]

mod inc_loop;
mod laws;
mod turn;

pub use inc_loop::IncLoop;
pub use laws::{an_ended_loop_stays_ended, turns_are_made_by_need, turns_count_up};
pub use turn::{Last, Outcome, Turn};

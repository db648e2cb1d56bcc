// The top call: replies to a script, while it comes.
#![tactic(auto)]

pub mod answer;
pub mod putting;
pub mod serving;
pub mod status;
pub mod top;
pub mod words;

pub use serving::serve;
pub use status::Status;
pub use top::mshot;

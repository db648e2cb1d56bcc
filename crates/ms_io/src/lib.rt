// Where bytes come from and where they go, with a count of faults that shows the cause of each failure.
#![tactic(auto)]

mod failed;
mod mem_sink;
mod mem_source;
mod no_sink;
mod repeat_source;
mod sink;
mod source;
mod std_sink;
mod std_source;
#[cfg(test)]
mod transcript;
mod tries;

pub use failed::Failed;
pub use mem_sink::MemSink;
pub use mem_source::MemSource;
pub use ms_base::memory::OutOfMemory;
pub use no_sink::NoSink;
pub use repeat_source::RepeatSource;
pub use sink::Sink;
pub use source::Source;
pub use std_sink::StdSink;
pub use std_source::StdSource;

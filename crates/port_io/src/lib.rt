//! The edge of the program: where its bytes come from, where they go, and where its logs stand.
//!
//! `Source`, `Sink` and `LogRack` are all that the layers above know of the outside. Each has forms
//! in memory, which tell what they hold, and a form over the process's own streams or over files,
//! which tells nothing. A call answers that it failed only where the object's count of failures rose.
#![tactic(auto)]

mod calls;
mod clean;
mod damaged_rack;
mod file_rack;
mod log_rack;
mod mem;
mod mem_rack;
mod sink;
mod source;
mod stdio;
mod whole;
mod word;

pub use clean::{CleanRack, CleanSink, CleanSource};
pub use damaged_rack::DamagedRack;
pub use file_rack::FileRack;
pub use log_rack::{LogRack, RackFault};
pub use mem::{MemSink, MemSource};
pub use mem_rack::MemRack;
pub use sink::{Sink, SinkFault};
pub use source::{Failed, Source};
pub use stdio::{StdSink, StdSource};
pub use whole::{ReadAllFault, read_all, write_all};
pub use word::Word;

#[cfg(test)]
mod tests;

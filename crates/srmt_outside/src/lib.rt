//! The outside of a run: the files that it reads, the events that it writes, and its notes.
//!
//! Three traits say what a caller may rely on: what was read or written, where an object tells it,
//! and a count of faults that rises in each call that fails. The crate promises that its forms in
//! memory meet these traits exactly. The adapters over the runtime are the trusted edge: they tell
//! nothing of what the system did. The crate stands on `srmt_base` and std.
#![tactic(auto)]

mod failed;
mod file_fault;
mod files;
mod mem_files;
mod mem_outlet;
mod mem_sink;
mod outlet;
mod real_files;
mod real_outlet;
mod real_sink;
mod shelf;
mod sink;
mod sure_files;
mod sure_outlet;
mod sure_sink;

pub use failed::Failed;
pub use file_fault::FileFault;
pub use files::Files;
pub use mem_files::MemFiles;
pub use mem_outlet::MemOutlet;
pub use mem_sink::MemSink;
pub use outlet::Outlet;
pub use real_files::RealFiles;
pub use real_outlet::RealOutlet;
pub use real_sink::RealSink;
pub use sink::Sink;
pub use srmt_base::Event;
pub use sure_files::SureFiles;
pub use sure_outlet::SureOutlet;
pub use sure_sink::SureSink;

#[cfg(test)]
mod tests;

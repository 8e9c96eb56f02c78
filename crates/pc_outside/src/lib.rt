//! The outside as the program sees it: files that are read, sinks that are written to, and threads, in memory and
//! over the system.
#![tactic(auto)]

mod failure_plan;
mod files;
mod gate;
mod memory_files;
mod memory_sink;
mod memory_spawner;
mod refused;
mod sink;
mod spawner;
mod std_files;
mod thread_spawner;
mod writer_sink;

pub use files::{Files, ReadRefused};
pub use gate::{Gate, HoldingGate, OpenGate};
pub use memory_files::MemoryFiles;
pub use memory_sink::MemorySink;
pub use memory_spawner::MemorySpawner;
pub use sink::{PutRefused, Sink};
pub use spawner::{NotBegun, Spawner, beside};
pub use std_files::StdFiles;
pub use thread_spawner::ThreadSpawner;
pub use writer_sink::WriterSink;

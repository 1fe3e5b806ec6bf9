//! The engine's interface to the outside: sources, sinks and stores as traits with counted faults, and in-memory
//! implementations for tests.
//!
//! The contract of each trait holds for streams, folders and memory alike. An object counts its faults, and the
//! count rises in every call that fails and in no other, so that no layer above can report a fault that never was.
//! The objects in memory fail where a test asks them to. The crate depends on std alone. It carries the promise
//! that every answer which blames the outside has its cause there.
#![tactic(auto)]

mod archive;
mod fail_keeper;
mod fault;
mod fault_plan;
mod gate;
mod history;
mod holdings;
mod keeper;
mod laws;
mod mem_keeper;
mod mem_reader;
mod mem_sink;
mod mem_source;
mod name;
mod no_fault_keeper;
mod no_fault_source;
mod script;
mod sink;
mod source;
mod stop_keeper;

pub use fail_keeper::FailKeeper;
pub use fault::{Failed, one_more};
pub use gate::{Gate, OpenGate};
pub use keeper::{Got, KeepReader, Keeper, Listed, PutFault};
pub use laws::{changes_in_order, counts_with_a_bound};
pub use mem_keeper::MemKeeper;
pub use mem_reader::{FailReader, MemReader};
pub use mem_sink::MemSink;
pub use mem_source::MemSource;
pub use name::{NAME_LENGTH, is_name};
pub use no_fault_keeper::NoFaultKeeper;
pub use no_fault_source::NoFaultSource;
pub use sink::Sink;
pub use source::Source;
pub use stop_keeper::StopKeeper;

//! What the program reads from and writes to: files, a sink, a keeper of records, and a gate that
//! workers pass. Each is a trait that callers are generic over, with objects in memory, some of
//! which fail at listed calls, and adapters over the real files and the real standard output.
#![tactic(auto)]

mod calls;
mod disk;
mod files;
mod gate;
mod keeper;
mod memory_files;
mod memory_keeper;
mod memory_sink;
mod sink;
mod standard_output;
mod stuck_writer;
mod transfer;

pub use disk::DiskFiles;
pub use files::{FileFault, Files, LONGEST_FILE};
pub use gate::{Gate, NoGate};
pub use keeper::{KeepFault, Keeper, Row};
pub use memory_files::{MemFiles, SureFiles};
pub use memory_keeper::{MemKeeper, SureKeeper};
pub use memory_sink::MemSink;
pub use sink::{Failed, Sink};
pub use standard_output::StdSink;
pub use stuck_writer::StuckWriter;
pub use transfer::write_whole;

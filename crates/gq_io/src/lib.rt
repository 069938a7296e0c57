//! The devices that a run uses: files to read, a sink to write to, and a gate that workers pass.
//!
//! Each is a trait. Files and sinks are in memory, for tests and for embedding, or of the host; gates are open or
//! delay workers. Contracts see what a device holds, if that is known, and how often it failed; every failure that
//! a caller sees was counted. The host's devices in `src/host.rt` are the trusted boundary: only their failures are
//! known.
//!
//! Read `specs/Counts.antt`, `specs/Files.antt` and `specs/Sink.antt` first, then the traits in
//! `src/files.rt`, `src/sink.rt` and `src/gate.rt`. `specs/Known.antt` defines the possible results of a read, given
//! what is known of the files; `src/asking.rt` reads that way. `src/shape.rt` defines how work is divided among
//! workers.
#![tactic(auto)]

mod asking;
mod files;
mod gate;
mod host;
mod memory_files;
mod memory_sink;
mod schedule;
mod shape;
mod sink;

pub use asking::ask;
pub use files::{FileFault, Files, MOST_BYTES};
pub use gate::{AnyGate, Gate, HeldGate, HoldGate, OpenGate};
pub use host::{HostFiles, HostSink};
pub use memory_files::{MemoryFiles, SureFiles};
pub use memory_sink::{MemorySink, SureSink};
pub use shape::Shape;
pub use sink::{Sink, SinkFault, write_all};

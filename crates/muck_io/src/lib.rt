//! What the server reads from, writes to and asks for the time, and what its threads pass and do while
//! they wait. Each source and each sink has a count of faults, and fails only where that count rises;
//! each tells its bytes where it can.
#![tactic(auto)]

mod adapters;
mod calls;
mod clock;
mod gate;
mod memory_sink;
mod memory_source;
mod never;
mod rest;
mod rows;
mod sink;
mod source;

pub use adapters::{ReaderSource, SystemClock, WriterSink};
pub use clock::{Clock, ListClock};
pub use gate::{Gate, OpenGate, place};
pub use memory_sink::MemSink;
pub use memory_source::MemSource;
pub use never::{NeverSink, NeverSource};
pub use rest::{NoRest, Rest, YieldRest};
pub use rows::rows_hold;
pub use sink::{Put, Sink, WriteFailed, write_all};
pub use source::{Got, ReadFault, Source, read_all};

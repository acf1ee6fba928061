//! Records of objects as bytes, and batches of them: each has one spelling.
#![tactic(auto)]

mod batch;
mod fault;
mod reading;
mod record;
mod stored;
mod writing;

pub use batch::take_batch;
pub use fault::CodecFault;
pub use record::take_record;
pub use stored::{Batch, Property, Stored};
pub use writing::{put_record, put_tune};

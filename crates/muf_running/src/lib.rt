//! A program that runs, which contracts see as the state of its source.
#![tactic(auto)]

mod begin;
mod entered;
mod frame_box;
mod lending;
mod running;
mod stint;

pub use begin::Occasion;
pub use frame_box::FrameBox;
pub use lending::Programs;
pub use running::Running;
pub use stint::{Ran, Stint};

//! A disk that only reads a file of the system, also while another process writes it.
#![tactic(auto)]

mod reading;

pub use reading::ReadDisk;

// Request (xiv): the writer of dumps.
#![tactic(auto)]

mod fill;
mod put;
pub mod write;

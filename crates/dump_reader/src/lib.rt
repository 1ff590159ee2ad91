// Request (xiv): the reader of dumps.
#![tactic(auto)]

pub mod judge;
pub mod places;
mod reader;
mod stages;
pub mod steps;

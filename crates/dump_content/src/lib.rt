// Request (xiv): the content of a dump, for callers.
#![tactic(auto)]

pub mod read;
pub mod shown;

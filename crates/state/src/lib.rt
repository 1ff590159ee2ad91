// A new handler, and the test of refusal 7.
#![tactic(auto)]

pub mod new;
mod pings;
mod stages;
pub mod valid;

// Step 1 of a tick: the verdict on an access, and what the access does.
#![tactic(auto)]

pub mod access;
mod change;
mod silly;
mod verdict;

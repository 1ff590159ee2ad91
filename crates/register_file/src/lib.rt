// What the registers hold: a register's value and stage, read and stored, for every index. Whether an
// access is refused is not asked here.
#![tactic(auto)]

pub mod list;
pub mod read;
pub mod restage;
pub mod stage;
pub mod write;

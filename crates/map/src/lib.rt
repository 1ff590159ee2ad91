// "Register map": a register's number, its row, and what the row says of an access.
#![tactic(auto)]

pub mod column;
pub mod number;
mod row;

// "Traces": what is known of an edition, what a record of a trace holds, of the lines too, and the word of a tick.
#![tactic(auto)]

pub mod edition;
pub mod lines;
pub mod record;
pub mod word;

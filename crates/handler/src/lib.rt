// One tick of the handler in code: the access, the samples, the four classes and the outputs.
#![tactic(auto)]

pub mod tick; // tick.rt: the whole tick, and steps 2 to 5
mod effects; // effects.rt: an access without effects
mod rest; // rest.rt: classes that stay as they are
pub mod moving; // moving.rt: a tick in which the alerts rest
pub mod quiet; // quiet.rt: a tick without an event
mod classes; // classes.rt: steps 3 and 4 of the four classes
pub mod output; // output.rt: step 5, interrupts and lines
mod pairs; // pairs.rt: step 5, acknowledge and ping pairs
pub mod account; // account.rt: what a tick hears

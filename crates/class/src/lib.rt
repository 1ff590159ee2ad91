// One class in code: its states, steps 3 and 4 of its tick, and the lines that it drives.
#![tactic(auto)]

pub mod state; // state.rt: the states and STATE's numbers
pub mod step; // step.rt: steps 3 and 4
pub mod still; // still.rt: a class that a tick without an event leaves as it is
pub mod lines; // lines.rt: step 5
mod ctrl; // ctrl.rt: the fields of CTRL
pub mod moves; // moves.rt: the moves of step 4

// Request (xii): calm ticks, without access and on steady wires, in one go.
#![tactic(auto)]

pub mod stand; // stand.rt: how long a class stands in its state
pub mod jump; // jump.rt: what it is then
pub mod four; // four.rt: the four classes
pub mod sending; // sending.rt: the senders with them
pub mod round; // round.rt: a round, from move to move
pub mod changes; // changes.rt: the changes, a word for each
pub mod engine; // engine.rt: round after round
pub mod ticking; // ticking.rt: a state on its way, by plain ticks and by the engine
pub mod call; // call.rt: the call, with its refusals
